//! Bounds by step functions: from the weights alone, without a graph, for instances with one type of bins.
#![tactic(auto)]

mod bounds;
mod laws;
mod values;

pub use bounds::{StepFound, step_bound};
pub use laws::{counts_keep_within, step_rows_come_out, step_values_are_floors};
pub use values::step_value;
