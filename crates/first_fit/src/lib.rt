//! A first packing of an instance: bins are filled greedily, from the largest piece on.
#![tactic(auto)]

mod filling;
mod first;
mod greedy;
mod pieces;
mod stock;

pub use first::first_fit;
