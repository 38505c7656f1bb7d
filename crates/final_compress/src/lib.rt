//! Final compression: the nodes of a graph to which equally heavy ways lead from the source become one.
#![tactic(auto)]

mod finals;
mod laws;

pub use finals::compress_final;
pub use laws::{
    cuts_keep_final_graphs, final_graphs_are_graphs, final_graphs_are_one,
    final_graphs_keep_contents, final_paths_weigh_no_more,
};
