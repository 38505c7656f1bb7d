//! Certificates from a stream: a text that comes in any pieces is judged line by line, and a verdict on all of it is given.
#![tactic(auto)]

mod batch;
mod judge;
mod laws;
mod stage;
#[cfg(test)]
mod tests;
mod verdict;

pub use judge::Judge;
pub use laws::{verdicts_are_exact, verdicts_are_so};
pub use verdict::Verdict;
