//! The columns of a master program: each once, and which of them are awake.
#![tactic(auto)]

mod awake;
mod columns;
mod pool;
mod ways;

pub use awake::{Awake, Split, SplitRow};
pub use columns::{Column, Content};
pub use pool::{ColumnPool, Place};
pub use ways::{Arcs, Way};
