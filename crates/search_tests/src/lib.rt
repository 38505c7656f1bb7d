//! Tests of the search: trees of boxes, boxes with fixed chords, prices of boxes, states, and whole searches.
//! They stand apart from the crates that they are about, since a crate with tests of its own is proved twice.
#![tactic(auto)]

#[cfg(test)]
mod tests;
