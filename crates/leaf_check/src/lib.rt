//! Whether prices close a box: no bin gains more than it costs, and all items together are worth enough for a claim.
#![tactic(auto)]

mod leaves;

pub use leaves::{LeafFault, check_leaf};
