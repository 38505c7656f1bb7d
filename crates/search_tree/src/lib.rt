//! Trees of boxes: how a search splits them, what it knows of each, and the certificate that this makes.
#![tactic(auto)]

mod copies;
mod laws;
mod lines;
mod places;
mod tree;

pub use laws::{open_trees_have_points, parts_are_shown};
pub use lines::{MAX_PARTS, Target, reaches, tree_certificate};
pub use places::{Cut, Place, Shown, SplitAt};
pub use tree::Tree;
