//! Tests of the program: worked runs of each command, calls of the outside that fail, and texts that are refused.
//! They stand apart from the crate that they are about, since a crate with tests of its own is proved twice.
#![tactic(auto)]

#[cfg(test)]
mod tests;
