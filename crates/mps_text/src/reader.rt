//! The reader: what is read so far, and the next line.

ghost use Rattle.std.specs.Prelude.{◌≡◌, ℕ, ◌+◌, ◌<◌, ◌≤◌, ◌^◌, length, OnOk, Ok, Err};
ghost use Rattle.std.specs.List.{list_all};
ghost use Rattle.text_lines.specs.Lines.{fields_of};
ghost use Rattle.mps_text.specs.Meaning.{first_reading, follows, word_alone, stage_in, is_columns, is_ended, is_bounded, begins, heading, section_line, line_of, target_in};
ghost use Rattle.mps_text.specs.inner.Readers.{reading_of, at_line, Judges};

use crate::faults::{MpsCause, MpsFault};
use crate::names::Names;
use crate::parts::ReadColumn;
use crate::stages::Stage;
use crate::state::Reader;
use arc_num::Memory;
use std::alloc::Global;
use text_lines::next_field;

/// Why a line was not taken.
#[derive(Clone, Copy, Debug)]
pub(crate) enum LineFault {
    Bad(MpsCause),
    Memory,
}

impl LineFault {
    /// The fault of a text whose line with this number is at fault so.
    pub(crate) fn at(self, line: u64) -> MpsFault
        ensures { result ≡ at_line self line }
    {
        match self {
            LineFault::Bad(cause) => MpsFault::Bad { line, cause },
            LineFault::Memory => MpsFault::Memory,
        }
    }
}

impl From<Memory> for LineFault {
    ghost use Rattle.std.specs.Prelude.{◌≡◌};
    ghost use Rattle.mps_text.specs.declared.reader.LineFault.TheVariants as fault;

    ghost from_gives = { λ _ e. e ≡ fault.Memory };

    fn from(_e: Memory) -> LineFault {
        LineFault::Memory
    }
}

impl<'a> Reader<'a> {
    pub(crate) fn new(alloc: Global) -> Self
        ensures first { reading_of result ≡ first_reading }
    {
        Reader {
            stage: Stage::Start,
            integers_open: false,
            objective: None,
            row_names: Names::new(alloc),
            rows: Vec::new(alloc),
            last_columns: Vec::new(alloc),
            column_names: Names::new(alloc),
            columns: Vec::new(alloc),
        }
    }

    /// A heading.
    pub(crate) fn heading(&mut self, line: &[u8]) -> Result<(), LineFault>
        ensures judged { Judges result (heading (reading_of self.old) (fields_of line.now)) (reading_of self.new) }
        ensures grows { length self.new.rows.items ≤ length self.old.rows.items }
    {
        match stage_of(line) {
            None => Err(LineFault::Bad(MpsCause::Section)),
            Some(stage) => self.begin(stage),
        }
    }

    fn begin(&mut self, stage: Stage) -> Result<(), LineFault>
        ensures judged { Judges result (begins (reading_of self.old) stage) (reading_of self.new) }
        ensures grows { length self.new.rows.items ≤ length self.old.rows.items }
    {
        if !follows(self.stage, stage) {
            return Err(LineFault::Bad(MpsCause::Section));
        }
        if is_columns(stage) && self.objective.is_none() {
            return Err(LineFault::Bad(MpsCause::Section));
        }
        if self.integers_open {
            return Err(LineFault::Bad(MpsCause::Kind));
        }
        if is_ended(stage) && !all_bounded(self.columns.as_slice()) {
            return Err(LineFault::Bad(MpsCause::Bound));
        }
        self.stage = stage;
        Ok(())
    }
}

fn stage_of(line: &[u8]) -> Option<Stage>
    ensures { result ≡ stage_in (fields_of line.now) }
{
    let (word, rest) = next_field(line);
    let (second, _) = next_field(rest);
    if word.is_empty() {
        return None;
    }
    if word == b"NAME".as_slice() {
        return Some(Stage::Named);
    }
    if second.is_empty() {
        stage_alone(word)
    } else {
        None
    }
}

fn stage_alone(word: &[u8]) -> Option<Stage>
    ensures { result ≡ word_alone word.now }
{
    if word == b"ROWS".as_slice() {
        Some(Stage::Rows)
    } else if word == b"COLUMNS".as_slice() {
        Some(Stage::Columns)
    } else if word == b"RHS".as_slice() {
        Some(Stage::Rights)
    } else if word == b"BOUNDS".as_slice() {
        Some(Stage::Limits)
    } else if word == b"ENDATA".as_slice() {
        Some(Stage::Ended)
    } else {
        None
    }
}

fn follows(old: Stage, new: Stage) -> bool
    ensures { result ≡ follows old new }
{
    match old {
        Stage::Start => matches!(new, Stage::Named),
        Stage::Named => matches!(new, Stage::Rows),
        Stage::Rows => matches!(new, Stage::Columns),
        Stage::Columns => matches!(new, Stage::Rights | Stage::Limits | Stage::Ended),
        Stage::Rights => matches!(new, Stage::Limits | Stage::Ended),
        Stage::Limits => matches!(new, Stage::Ended),
        Stage::Ended => false,
    }
}

fn is_columns(stage: Stage) -> bool
    ensures { result ≡ is_columns stage }
{
    matches!(stage, Stage::Columns)
}

pub(crate) fn is_ended(stage: Stage) -> bool
    ensures { result ≡ is_ended stage }
{
    matches!(stage, Stage::Ended)
}

fn all_bounded(columns: &[ReadColumn]) -> bool
    ensures { result ≡ list_all is_bounded columns.now }
{
    columns.iter().all(|column| bounded(column))
}

fn bounded(column: &ReadColumn) -> bool
    ensures { result ≡ is_bounded column.now }
{
    if column.fixed.is_some() {
        return true;
    }
    match column.upper {
        None => false,
        Some(upper) => column.lower.unwrap_or(0) <= upper,
    }
}
