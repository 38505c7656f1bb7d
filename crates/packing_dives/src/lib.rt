//! Dives: packings from the linear program of a box, whose columns are taken step by step.
#![tactic(auto)]

mod choosing;
mod dives;
mod diving;
mod levels;
mod variants;

pub use dives::{Goal, dive, dive_often};

#[cfg(test)]
mod tests;
