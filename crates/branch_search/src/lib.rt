//! The search for a cheapest packing: a tree of boxes, of which each is priced and split until its bound reaches the cheapest
//! packing so far.
#![tactic(auto)]

mod certificates;
mod endings;
mod homeless;
mod outcomes;
mod searching;

pub use outcomes::Outcome;
pub use searching::search;
