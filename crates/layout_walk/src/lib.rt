//! A walk over the places of a layout: what the readers of both layouts share.
#![tactic(auto)]

mod item_caps;
mod laws;
mod parts;
mod places;
mod vectors;

pub use item_caps::caps;
pub use laws::each_text_reads_or_has_a_bad_place;
pub use parts::Parts;
pub use places::Places;
pub use vectors::{form, vector};
