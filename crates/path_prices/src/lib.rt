//! What a path costs at most under prices, and what prices are worth in a box.
#![tactic(auto)]

mod bounds;
mod gains;
mod laid;
mod laws;
mod passes;
mod products;
mod scratch;
mod tables;
#[cfg(test)]
mod tests;

pub use bounds::{is_enough, worth};
pub use gains::{best_path, first_excess, gain};
pub use laws::gains_are_known;
pub use scratch::Scratch;
