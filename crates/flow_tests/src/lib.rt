//! Tests of numbered graphs, of flows, and of the texts of programs and solutions.
//! They stand apart from the crates that they are about, since a crate with tests of its own is proved twice.
#![tactic(auto)]

#[cfg(test)]
mod tests;
