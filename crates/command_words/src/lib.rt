//! The words of the command line: what they ask for, by one table, and the first faulty word.
#![tactic(auto)]

mod checks;
mod commands;
mod faults;
mod found;
mod parts;
mod reading;
mod table;
#[cfg(test)]
mod tests;

pub use commands::{Command, DEFAULT_SPLITS, Source};
pub use faults::{WordFault, push_word_fault};
pub use reading::read_words;
