//! Cutting a text into lines, and a line into fields.
#![tactic(auto)]

mod fields;
mod lines;

pub use fields::{is_indented, next_field, two_fields};
pub use lines::split_line;

#[cfg(test)]
mod tests;
