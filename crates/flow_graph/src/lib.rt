//! The arcs of all types in one row, by number. Arcs here carry numbers of items and forms, and no weights.
#![tactic(auto)]

mod graph;
mod laws;
mod parts;

pub use graph::FlowGraph;
pub use laws::{
    chords_extend, examples_come_out, nodes_are_few, nodes_have_tree_arcs, nodes_lie_on_paths,
    numbers_are_arcs, numbers_are_unique, numbers_have_kinds, paths_have_numbers, paths_join,
    points_are_counted, potentials_cancel,
};
pub use parts::{ArcKind, TypeArc};
