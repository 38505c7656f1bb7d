//! The model of an instance over its joint graph, as a program of rows and columns.
#![tactic(auto)]

mod known;
mod laws;
mod models;

pub use laws::{joint_models_are_programs, solutions_are_flows};
pub use models::joint_program;
