//! Main compression: the nodes of a graph with the same room left by their heaviest ways on to the target become one.
#![tactic(auto)]

mod laws;
mod mains;

pub use laws::{
    cuts_keep_main_graphs, main_graphs_are_graphs, main_graphs_are_one, main_graphs_exist,
    main_graphs_keep_contents, main_paths_fit,
};
pub use mains::compress_main;
