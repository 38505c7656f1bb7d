//! Tests of compiled graphs, of their pieces and sizes.
//! They stand apart from the crates that they are about, since a crate with tests of its own is proved twice.
#![tactic(auto)]

#[cfg(test)]
mod tests;
