//! Main graphs straight from lists of pieces, over states whose weights and copies are lifted as far as their completions allow.
#![tactic(auto)]

mod finish;
mod found;
mod mains;
mod numbered;
mod search;
mod states;
mod steps;
mod tables;

pub use mains::build_main;

#[cfg(test)]
mod tests;
