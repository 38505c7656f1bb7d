//! Flows on the arcs of a joint graph: which row values violate first, and that packings are flows.
#![tactic(auto)]

mod checks;
mod known;
mod laws;
mod rows;
mod sums;

pub use checks::first_bad;
pub use laws::{no_bad_row_is_flow, packings_are_flows};
pub use rows::JointRow;
