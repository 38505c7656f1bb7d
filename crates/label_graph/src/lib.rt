//! Graphs with labels of `N` weights at their nodes and pieces on their arcs.
#![tactic(auto)]

mod graph;
mod images;
mod laws;
mod lists;
mod parts;

pub use graph::Graph;
pub use images::{arcs_are_in_order, image, quotient};
pub use laws::{
    cuts_keep_images, images_are_graphs, images_are_one, images_exist, images_keep_contents,
    labels_bound_weights, nodes_lie_on_paths,
};
pub use lists::{known_pieces, known_weights, sort_distinct};
pub use parts::{GraphArc, GraphFault, Mark, Piece};
