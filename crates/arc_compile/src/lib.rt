//! From an instance to the graphs of its types of bins.
#![tactic(auto)]

mod compiling;
mod extended;
mod forms;
mod laws;
mod level_sizes;
mod numbered;
mod pieces;
mod ranks;
mod results;
mod rows;
mod type_graphs;

pub use compiling::{compile, compile_gated};
pub use extended::{capacity_in, place_count};
pub use forms::ranked_forms;
pub use laws::{
    compiled_graphs_are_faithful, compiled_graphs_are_one, extended_weights_tell_fits,
    final_graphs_are_exact, padding_keeps_graphs, sizes_are_one, sizes_exist,
};
pub use level_sizes::level_size;
pub use numbered::numbered_arcs;
pub use pieces::{pieces_of, with_copies};
pub use ranks::Ranked;
pub use results::{CompileFault, Compiled, Sizes, TypeSize};
