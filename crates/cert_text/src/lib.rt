//! Certificates: their lines, the one spelling of each, and a reader that takes the text in any pieces.
#![tactic(auto)]

mod answer;
mod faults;
mod fields;
mod laws;
mod lines;
mod pairs;
mod parse;
mod reader;
mod spell;

pub use answer::LineAnswer;
pub use laws::{
    bad_stays_bad, lines_have_one_spelling, no_text_begins_another, pieces_do_not_matter,
};
pub use lines::{
    ArcPart, ArcPrice, CertLine, Certificate, Claim, ItemPrice, Need, Prices, TreeLine,
};
pub use reader::CertReader;
pub use spell::{line_text, write_certificate};
