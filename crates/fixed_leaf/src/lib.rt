//! Boxes in which each chord has one value. The chords determine the values of all arcs, so that prices close such a box for
//! what its one flow costs, or show that no flow lies in it.
#![tactic(auto)]

mod chords;
mod faults;
mod heights;
mod joints;
mod leaf;
mod prices;
mod values;

pub use chords::chords_of;
pub use leaf::{FixedLeaf, OnlyFlow, fixed_leaf};
