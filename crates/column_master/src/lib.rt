//! The column master: dual prices for the boxes of a search, found by column generation on a simplex in fixed point, and a
//! flow in fractions. Rounding costs bound and never truth, since only prices that pass an exact test are answered.
#![tactic(auto)]

mod drafts;
mod flows;
mod generator;
mod master;
mod passes;
mod prices;
mod relaxation;
mod rows;
mod scales;
mod seeds;
mod ways;

pub use generator::{Effort, Ended, Outlook};
pub use master::{Master, NodePrices};
pub use relaxation::{BasicName, Chosen, Relaxation};
pub use rows::{MasterRow, RowName};
