//! Flows of a joint graph as packings: a flow is taken apart into circuits, and what their paths carry is trimmed to what is
//! asked for.
#![tactic(auto)]

mod bins;
mod circuits;
mod extracts;
mod surpluses;
mod walks;

pub use extracts::{JointFault, joint_extract};
