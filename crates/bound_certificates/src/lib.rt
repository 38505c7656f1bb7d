//! Bounds from the weights alone, without a graph, and certificates that show them.
#![tactic(auto)]

mod certificates;
mod found;
mod laws;
mod material;

pub use certificates::bound_certificate;
pub use found::{BoundKind, FoundBound, find_bound};
pub use laws::{found_bounds_are_accepted, material_prices_close};
pub use material::material_prices;
