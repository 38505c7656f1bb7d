//! One graph for all types of bins: a target for each type, and paths to it for all contents that fit the type.
#![tactic(auto)]

mod arriving;
mod graph;
mod joints;
mod laws;
mod levels;
mod mains;
mod merging;
mod onward;
mod ranks;
mod states;

pub use graph::Joint;
pub use joints::{JointGraph, JointSize, joint};
pub use laws::{
    joint_finals_are_one, joint_mains_are_alike, joint_mains_are_one, joint_mains_exist,
    joint_paths_cover, joint_paths_fit,
};
