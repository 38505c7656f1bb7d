//! Whether a need of a split holds: that no prices could have spared the split.
#![tactic(auto)]

mod costs;
mod demands;
mod known;
mod needs;
mod nodes;
mod ranges;
mod room;
mod tables;

pub use needs::check_need;
pub use room::NeedRoom;
