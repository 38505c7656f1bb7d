//! The level graph of a list of pieces: the ways to take copies of one piece after the other while they fit.
#![tactic(auto)]

mod build;
mod counts;
mod laws;
mod layers;
mod states;

pub use build::levels;
pub use counts::level_counts;
pub use laws::{
    choices_have_one_path, cuts_keep_level_graphs, level_graphs_are_graphs, level_graphs_exist,
    levels_are_one, paths_are_choices,
};
