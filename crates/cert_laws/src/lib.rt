//! What certificates show: the rules of their lines, and that what keeps them is a lower bound.
#![tactic(auto)]

mod causes;
mod laws;

pub use causes::Cause;
pub use laws::{certified_is_so, examples_come_out, faults_are_exact, needs_bar_prices};
