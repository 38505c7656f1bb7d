//! Reading a program from MPS text.

ghost use Rattle.std.specs.Prelude.{◌≡◌, ◌⊎◌, ℕ, ◌+◌, ◌<◌, ◌≤◌, ◌^◌, [], map, filter, not, length, unwrap_or, Ok, Err, OnOk, IfOk, MatchResult};
ghost use Rattle.std.specs.List.Sorted.{IsSortedByKey, IsStableByKey};
ghost use Rattle.std.specs.Ordering.{nat_cmp};
ghost use Rattle.flow_model.specs.Programs.{IsProgram};
ghost use Rattle.text_lines.specs.Lines.{lines_of, fields_of};
ghost use Rattle.mps_text.specs.Meaning.{first_reading, section_line, line_of, lines_read, in_row_order, row_of, column_of, program_of, mps_meaning};
ghost use Rattle.mps_text.specs.Written.{is_zero};
ghost use Rattle.mps_text.specs.inner.Readers.{reading_of, Judges, Reads};

use crate::faults::{MpsCause, MpsFault};
use crate::parts::{ReadColumn, ReadRow};
use crate::reader::{LineFault, is_ended};
use crate::skipped_lines::is_skipped;
use crate::stages::Stage;
use crate::state::Reader;
use arc_num::{Listed, Memory};
use flow_model::{Column, Entry, Name, Program, Row};
use std::alloc::Global;
use text_lines::{is_indented, split_line};

/// The program that a text means, or the first line at fault with its first cause.
pub fn read_mps(alloc: Global, text: &[u8]) -> Result<Program, MpsFault>
    requires { length text.now < 2 ^ 32 }
    ensures meaning { MatchResult result (λ p. mps_meaning text.now ≡ Ok p) (λ e. (e ≡ MpsFault.Memory) ⊎ (mps_meaning text.now ≡ Err e)) }
    ensures lawful { IfOk result (λ p. IsProgram p) }
{
    let mut reader = Reader::new(alloc);
    reader.read(alloc, text)?;
    let program = reader.into_program(alloc)?;
    Ok(program)
}

impl<'a> Reader<'a> {
    fn read(&mut self, alloc: Global, text: &'a [u8]) -> Result<(), MpsFault>
        requires first { reading_of self.old ≡ first_reading }
        requires small { length text.now < 2 ^ 32 }
        ensures { Reads result (lines_read 1 first_reading (lines_of text.now)) (reading_of self.new) }
    {
        let mut rest = text;
        let mut number = 1u64;
        while !rest.is_empty() {
            let (line, behind) = split_line(rest);
            match self.line(alloc, line) {
                Ok(()) => {}
                Err(fault) => return Err(fault.at(number)),
            }
            rest = behind;
            number += 1;
        }
        if is_ended(self.stage) {
            Ok(())
        } else {
            Err(MpsFault::Bad {
                line: number,
                cause: MpsCause::Section,
            })
        }
    }

    fn line(&mut self, alloc: Global, line: &'a [u8]) -> Result<(), LineFault>
        requires small { length self.old.rows.items < 2 ^ 32 }
        ensures judged { Judges result (line_of (reading_of self.old) line.now) (reading_of self.new) }
        ensures grows { length self.new.rows.items ≤ length self.old.rows.items + 1 }
    {
        if is_skipped(line) {
            return Ok(());
        }
        if is_indented(line) {
            self.section_line(alloc, line)
        } else {
            self.heading(line)
        }
    }

    fn section_line(&mut self, alloc: Global, line: &'a [u8]) -> Result<(), LineFault>
        requires small { length self.old.rows.items < 2 ^ 32 }
        ensures judged { Judges result (section_line self.old.stage (reading_of self.old) (fields_of line.now)) (reading_of self.new) }
        ensures grows { length self.new.rows.items ≤ length self.old.rows.items + 1 }
    {
        match self.stage {
            Stage::Rows => self.rows_line(alloc, line),
            Stage::Columns => self.columns_line(alloc, line),
            Stage::Rights => self.rights_line(line),
            Stage::Limits => self.bounds_line(line),
            _ => Err(LineFault::Bad(MpsCause::Section)),
        }
    }

    fn into_program(self, alloc: Global) -> Result<Program, Memory>
        ensures { IfOk result (λ p. p ≡ program_of (reading_of self.entry)) }
    {
        let Reader {
            objective,
            rows,
            columns,
            ..
        } = self;
        let rows = finished_rows(alloc, rows)?;
        let columns = finished_columns(alloc, columns)?;
        Ok(Program {
            objective: objective_or_none(alloc, objective),
            rows: Listed::new(rows),
            columns: Listed::new(columns),
        })
    }
}

fn objective_or_none(alloc: Global, objective: Option<Name>) -> Name
    ensures { result ≡ unwrap_or objective [] }
{
    match objective {
        Some(name) => name,
        None => Name::new(Vec::new(alloc)),
    }
}

fn finished_rows(alloc: Global, rows: Vec<ReadRow>) -> Result<Vec<Row>, Memory>
    ensures { IfOk result (λ v. v.items ≡ map row_of rows.items) }
{
    let mut finished = Vec::new(alloc);
    for row in rows {
        finished.push(row.into_row())?;
    }
    Ok(finished)
}

fn finished_columns(alloc: Global, columns: Vec<ReadColumn>) -> Result<Vec<Column>, Memory>
    ensures { IfOk result (λ v. v.items ≡ map column_of columns.items) }
{
    let mut finished = Vec::new(alloc);
    for column in columns {
        finished.push(column.into_column()?)?;
    }
    Ok(finished)
}

impl ReadRow {
    fn into_row(self) -> Row
        ensures { result ≡ row_of self }
    {
        Row {
            name: self.name,
            kind: self.kind,
            right: self.right.unwrap_or(0),
        }
    }
}

impl ReadColumn {
    fn into_column(self) -> Result<Column, Memory>
        ensures { IfOk result (λ c. c ≡ column_of self) }
    {
        let (lower, upper) = match self.fixed {
            Some(value) => (value, value),
            None => (self.lower.unwrap_or(0), self.upper.unwrap_or(0)),
        };
        Ok(Column {
            name: self.name,
            cost: self.cost.unwrap_or(0),
            entries: Listed::new(in_order(self.entries)?),
            lower,
            upper,
        })
    }
}

/// The entries that are not 0, by their rows.
fn in_order(entries: Listed<Entry>) -> Result<Vec<Entry>, Memory>
    ensures { IfOk result (λ v. v.items ≡ in_row_order (filter (λ e. not (is_zero e.value)) entries)) }
{
    let mut list = entries.into_list();
    drop_zeros(&mut list);
    sort_by_row(&mut list)?;
    Ok(list)
}

fn drop_zeros(list: &mut Vec<Entry>)
    ensures { list.new.items ≡ filter (λ e. not (is_zero e.value)) list.old.items }
{
    list.retain(|entry| is_nonzero(entry));
}

fn is_nonzero(entry: &Entry) -> bool
    ensures { result ≡ not (is_zero entry.now.value) }
{
    entry.value != 0
}

fn sort_by_row(list: &mut Vec<Entry>) -> Result<(), Memory>
    ensures sorted { OnOk result (IsSortedByKey (λ e. e.row) nat_cmp list.new.items) }
    ensures stable { IsStableByKey (λ e. e.row) nat_cmp list.old.items list.new.items }
{
    list.sort_by_key(|entry| entry.row)?;
    Ok(())
}
