//! Vectors of `N` weights, with their sums and their order.
#![tactic(auto)]

mod laws;
mod weights;

pub use laws::{at_most_comes_before, padding_keeps_fits, padding_keeps_order, sums_keep_order};
pub use weights::Weights;
