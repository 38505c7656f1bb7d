//! The commands of vpack: words, reports, refusals, and the one call that does all that the program does.
#![tactic(auto)]

mod commands;
mod inputs;
mod judging;
mod kept;
mod loading;
mod outcomes;
mod performing;
mod printing;
mod refusals;
mod rejections;
mod reports;
mod runs;
mod status;
mod verdicts;
mod writing;

pub use branch_search::Outcome;
pub use cert_text::Certificate;
pub use command_words::{Command, WordFault, read_words};
pub use outcomes::{make_text, solve_text};
pub use refusals::Refusal;
pub use reports::compile_text;
pub use runs::run;
pub use status::Status;
pub use verdicts::check_text;
pub use workload::generated;
