//! Tests of joint graphs, of their models and of their flows.
//! They stand apart from the crates that they are about, since a crate with tests of its own is proved twice.
#![tactic(auto)]

#[cfg(test)]
mod tests;
