//! Flows as packings: a flow is taken apart into paths, and the paths' contents are trimmed to what is asked for.
#![tactic(auto)]

mod contents;
mod extracts;
mod laws;
mod paths;
mod runs;
mod surpluses;
mod takings;
mod trims;
mod units;
mod walks;

pub use extracts::{ExtractFault, extract};
pub use laws::{examples_come_out, flows_are_packings};
pub use paths::paths_of;
pub use runs::PathRun;
pub use takings::take_off;
pub use trims::trim;
pub use units::{carried_units, put_unit};
