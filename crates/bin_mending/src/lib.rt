//! Packings made of bins that need be none: what is too much is taken away, what is missing is filled in.
#![tactic(auto)]

mod emptying;
mod filling;
mod groups;
mod lowering;
mod mending;
mod opening;
mod sizes;

pub use mending::mend;

#[cfg(test)]
mod tests;
