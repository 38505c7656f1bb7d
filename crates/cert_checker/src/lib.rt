//! The separate reader of certificates: it goes through the lines one by one, and accepts or refuses each.
#![tactic(auto)]

mod checker;
mod faults;
mod judging;
mod lines;
mod places;
mod runs;
mod standing;
#[cfg(test)]
mod tests;
mod trails;
mod whole;

pub use checker::Checker;
pub use faults::CheckFault;
pub use leaf_check::{LeafFault, check_leaf};
pub use needs_check::{NeedRoom, check_need};
pub use whole::{check, check_gated};
