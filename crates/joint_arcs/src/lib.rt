//! The arcs of a joint graph of all types by number, with the items that they carry.
#![tactic(auto)]

mod arcs;

pub use arcs::{JointArc, JointArcs};
