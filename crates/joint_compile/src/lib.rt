//! From an instance to the joint graph of all its types of bins.
#![tactic(auto)]

mod compiling;
mod laws;
mod pieces;

pub use compiling::joint_of;
pub use laws::{
    joint_graph_is_one, joint_graphs_are_faithful, joint_sizes_are_one, joint_sizes_exist,
};
