//! Instances that a seed generates, for trials of a search.
#![tactic(auto)]

mod items;
mod laws;
#[cfg(test)]
mod tests;

pub use items::generated;
pub use laws::generated_rows_come_out;
