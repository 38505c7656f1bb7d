//! How far a search for a cheapest packing is: its tree, of which each place is known, and the cheapest packing so far; the first
//! state, the leaf that is split next, and what is found out of a box.
#![tactic(auto)]

mod choosing;
mod diving;
mod findings;
mod growing;
mod keeping;
mod known;
mod notes;
mod pricing;
mod shortening;
mod splitting;
mod states;
mod wholes;

pub use choosing::fractional_chord;
pub use findings::{Finding, Given, look_at};
pub use growing::split_leaf;
pub use known::{Known, better_of, first_known, known_from};
pub use notes::{Note, Notes};
pub use shortening::shortened;
pub use splitting::open_chord;
pub use states::{State, first_state, open_leaf};
