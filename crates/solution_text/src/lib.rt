//! Values of an outside solver for the columns of a graph's arcs, as lines of names and numbers.
#![tactic(auto)]

mod faults;
mod fields;
mod lines;

pub use faults::SolutionFault;
pub use lines::read_solution;
