//! Linear programs in whole numbers as MPS text, both ways.
#![tactic(auto)]

mod column_lines;
mod counts;
mod faults;
mod laws;
mod names;
mod parts;
mod read;
mod reader;
mod row_lines;
mod side_lines;
mod skipped_lines;
mod stages;
mod state;
mod values;
mod write;

pub use faults::{MpsCause, MpsFault};
pub use laws::{
    examples_come_out, meanings_are_given, meanings_keep_the_rules, three_units_keep_the_rules,
    written_is_read,
};
pub use read::read_mps;
pub use write::write_mps;
