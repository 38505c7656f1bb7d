//! What the program refuses, and what it says then.

ghost use Rattle.std.specs.Prelude.{◌≡◌, ◌++◌, IfOk, string_bytes, codes};
ghost use Rattle.command_words.specs.Lines.{word_fault_line};
ghost use Rattle.arc_program.specs.Refusals.{token_line, place_line, refusal_line, refusal_status, unstored_line, named_line, no_weight, large_line, large_joint_line};

use crate::loading::Text;
use crate::status::Status;
use arc_num::Memory;
use command_words::{WordFault, push_word_fault};
use packing_laws::ReadFault;
use std::alloc::{AllocError, Global};

/// Why a run ended without its report.
#[derive(Debug, Drop)]
pub enum Refusal {
    /// The words ask for nothing.
    Words { fault: WordFault },
    /// The text under this name could not be read.
    Unread { name: String },
    /// The instance has more than 67,108,864 bytes.
    Long { name: String },
    /// The text is no instance: its first bad place.
    BadPlace { name: String, fault: ReadFault },
    /// The main graphs of the types up to this one have more than 1,000,000 arcs together.
    Large { name: String, t: u32 },
    /// The joint main graph of all types has more than 1,000,000 arcs.
    LargeJoint { name: String },
    /// The second text is refused: the line that says why, and the status.
    Rejected { line: Text, status: Status },
    /// The certificate could not be written under this name.
    Unstored { name: String },
    /// The report could not be written.
    Unwritten,
    /// Want of memory.
    Memory,
}

fn word_fault_text(alloc: Global, fault: WordFault) -> Result<Vec<u8>, Memory>
    ensures { IfOk result (λ line. line.items ≡ word_fault_line fault) }
{
    let mut line = Vec::new(alloc);
    push_word_fault(&mut line, fault)?;
    Ok(line)
}

fn token_text(alloc: Global, name: &str, index: u64, said: &str) -> Result<String, AllocError>
    ensures { IfOk result (λ line. string_bytes line ≡ token_line name.now index said.now) }
{
    format!(in alloc; "vpack: {name}: token {index}: {said}\n")
}

fn no_weight_text(alloc: Global, item: u32, form: u32) -> Result<String, AllocError>
    ensures { IfOk result (λ said. string_bytes said ≡ no_weight item form) }
{
    format!(in alloc; "item {item} form {form} has no weight")
}

fn zero_weight_text(
    alloc: Global,
    name: &str,
    index: u64,
    item: u32,
    form: u32,
) -> Result<String, AllocError>
    ensures { IfOk result (λ line. string_bytes line ≡ token_line name.now index (no_weight item form)) }
{
    let said = no_weight_text(alloc, item, form)?;
    token_text(alloc, name, index, said.as_str())
}

fn place_text(alloc: Global, name: &str, fault: ReadFault) -> Result<String, AllocError>
    ensures { IfOk result (λ line. string_bytes line ≡ place_line name.now fault) }
{
    match fault {
        ReadFault::Short { index } => token_text(alloc, name, index, "missing"),
        ReadFault::NotNumber { index } => token_text(alloc, name, index, "not a number"),
        ReadFault::Range { index } => token_text(alloc, name, index, "out of range"),
        ReadFault::Total { index } => token_text(alloc, name, index, "too many forms"),
        ReadFault::ZeroWeight { index, item, form } => {
            zero_weight_text(alloc, name, index, item, form)
        }
        ReadFault::Extra { index } => token_text(alloc, name, index, "one token too many"),
        ReadFault::Memory => String::from_str(alloc, "vpack: out of memory\n"),
    }
}

fn unread_text(alloc: Global, name: &str) -> Result<String, AllocError>
    ensures { IfOk result (λ line. string_bytes line ≡ codes "vpack: cannot read " ++ name.now ++ codes "\n") }
{
    format!(in alloc; "vpack: cannot read {name}\n")
}

fn unstored_text(alloc: Global, name: &str) -> Result<String, AllocError>
    ensures { IfOk result (λ line. string_bytes line ≡ unstored_line name.now) }
{
    format!(in alloc; "vpack: cannot write {name}\n")
}

/// The line on a text under this name that is too long.
pub fn long_text(alloc: Global, name: &str) -> Result<String, AllocError>
    ensures { IfOk result (λ line. string_bytes line ≡ named_line name.now (codes "too long")) }
{
    format!(in alloc; "vpack: {name}: too long\n")
}

fn large_text(alloc: Global, name: &str, t: u32) -> Result<String, AllocError>
    ensures { IfOk result (λ line. string_bytes line ≡ large_line name.now t) }
{
    format!(in alloc; "vpack: {name}: type {t}: too many arcs\n")
}

fn large_joint_text(alloc: Global, name: &str) -> Result<String, AllocError>
    ensures { IfOk result (λ line. string_bytes line ≡ large_joint_line name.now) }
{
    format!(in alloc; "vpack: {name}: joint graph: too many arcs\n")
}

fn copied(alloc: Global, line: &[u8]) -> Result<Vec<u8>, Memory>
    ensures { IfOk result (λ copy. copy.items ≡ line.now) }
{
    let copy = Vec::from_slice(alloc, line)?;
    Ok(copy)
}

/// The line on a refusal.
pub fn refusal_text(alloc: Global, refusal: &Refusal) -> Result<Vec<u8>, Memory>
    ensures { IfOk result (λ line. line.items ≡ refusal_line refusal.now) }
{
    let line = match refusal {
        Refusal::Words { fault } => return word_fault_text(alloc, *fault),
        Refusal::Unread { name } => unread_text(alloc, name.as_str())?,
        Refusal::Long { name } => long_text(alloc, name.as_str())?,
        Refusal::BadPlace { name, fault } => place_text(alloc, name.as_str(), *fault)?,
        Refusal::Large { name, t } => large_text(alloc, name.as_str(), *t)?,
        Refusal::LargeJoint { name } => large_joint_text(alloc, name.as_str())?,
        Refusal::Rejected { line, .. } => return copied(alloc, line.as_slice()),
        Refusal::Unstored { name } => unstored_text(alloc, name.as_str())?,
        Refusal::Unwritten => String::from_str(alloc, "vpack: cannot write output\n")?,
        Refusal::Memory => String::from_str(alloc, "vpack: out of memory\n")?,
    };
    Ok(line.into_bytes())
}

impl Refusal {
    /// The status of a run that ends so.
    pub fn status(&self) -> Status
        ensures { result ≡ refusal_status self.now }
    {
        match self {
            Refusal::Words { .. } => Status::Usage,
            Refusal::Unread { .. } => Status::ReadFault,
            Refusal::Long { .. } => Status::BadInstance,
            Refusal::BadPlace { .. } => Status::BadInstance,
            Refusal::Large { .. } => Status::TooLarge,
            Refusal::LargeJoint { .. } => Status::TooLarge,
            Refusal::Rejected { status, .. } => *status,
            Refusal::Unstored { .. } => Status::WriteFault,
            Refusal::Unwritten => Status::WriteFault,
            Refusal::Memory => Status::NoMemory,
        }
    }
}
