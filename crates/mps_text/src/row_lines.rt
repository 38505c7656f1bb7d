//! Lines of the rows.

ghost use Rattle.std.specs.Prelude.{◌≡◌, ℕ, ◌+◌, ◌<◌, ◌≤◌, [], ◌∷◌, length, None, OnOk, Ok, Err};
ghost use Rattle.text_lines.specs.Lines.{fields_of};
ghost use Rattle.mps_text.specs.Meaning.{place_of, row_names, kind_in, target_in, is_new_name, with_row, objective_line, row_named, rows_line};
ghost use Rattle.mps_text.specs.inner.Readers.{reading_of, Judges};

use crate::faults::MpsCause;
use crate::parts::ReadRow;
use crate::reader::LineFault;
use crate::stages::Stage;
use crate::state::Reader;
use crate::values::{keeps_rules, name_of};
use arc_num::Memory;
use flow_model::RowKind;
use std::alloc::Global;
use text_lines::two_fields;

impl<'a> Reader<'a> {
    /// A line of the rows.
    pub(crate) fn rows_line(&mut self, alloc: Global, line: &'a [u8]) -> Result<(), LineFault>
        requires stage { self.old.stage ≡ Stage.Rows }
        ensures judged { Judges result (rows_line (reading_of self.old) (fields_of line.now)) (reading_of self.new) }
        ensures grows { length self.new.rows.items ≤ length self.old.rows.items + 1 }
    {
        match two_fields(line) {
            None => Err(LineFault::Bad(MpsCause::Fields)),
            Some((kind, name)) => self.named_line(alloc, kind, name),
        }
    }

    fn named_line(&mut self, alloc: Global, kind: &[u8], name: &'a [u8]) -> Result<(), LineFault>
        requires stage { self.old.stage ≡ Stage.Rows }
        ensures judged { Judges result (rows_line (reading_of self.old) (kind.now ∷ name.now ∷ [])) (reading_of self.new) }
        ensures grows { length self.new.rows.items ≤ length self.old.rows.items + 1 }
    {
        if kind == b"N".as_slice() {
            return self.objective_line(alloc, name);
        }
        match row_kind(kind) {
            None => Err(LineFault::Bad(MpsCause::Kind)),
            Some(kind) => self.row(alloc, kind, name),
        }
    }

    fn objective_line(&mut self, alloc: Global, name: &[u8]) -> Result<(), LineFault>
        ensures judged { Judges result (objective_line (reading_of self.old) name.now) (reading_of self.new) }
        ensures grows { self.new.rows.items ≡ self.old.rows.items }
    {
        if self.objective.is_some() {
            return Err(LineFault::Bad(MpsCause::Kind));
        }
        if !self.is_new(name) {
            return Err(LineFault::Bad(MpsCause::Name));
        }
        self.objective = Some(name_of(alloc, name)?);
        Ok(())
    }

    fn row(&mut self, alloc: Global, kind: RowKind, name: &'a [u8]) -> Result<(), LineFault>
        requires stage { self.old.stage ≡ Stage.Rows }
        ensures judged { Judges result (row_named (reading_of self.old) name.now kind) (reading_of self.new) }
        ensures grows { length self.new.rows.items ≤ length self.old.rows.items + 1 }
    {
        if !self.is_new(name) {
            return Err(LineFault::Bad(MpsCause::Name));
        }
        self.add_row(alloc, kind, name)?;
        Ok(())
    }

    fn add_row(&mut self, alloc: Global, kind: RowKind, name: &'a [u8]) -> Result<(), Memory>
        requires stage { self.old.stage ≡ Stage.Rows }
        requires new { place_of name.now (row_names self.old.rows.items) ≡ None }
        ensures added { OnOk result (reading_of self.new ≡ with_row (reading_of self.old) kind name.now) }
        ensures grows { length self.new.rows.items ≤ length self.old.rows.items + 1 }
    {
        let row = ReadRow {
            name: name_of(alloc, name)?,
            kind,
            right: None,
        };
        self.last_columns.reserve(1)?;
        self.rows.reserve(1)?;
        self.row_names.add(name)?;
        self.last_columns.push(0).unwrap();
        self.rows.push(row).unwrap();
        Ok(())
    }

    fn is_new(&self, name: &[u8]) -> bool
        ensures { result ≡ is_new_name (reading_of self.now) name.now }
    {
        keeps_rules(name) && self.target(name).is_none()
    }

    /// The place of a name: first the objective, where there is one, then the rows.
    pub(crate) fn target(&self, name: &[u8]) -> Option<usize>
        ensures { result ≡ target_in (reading_of self.now) name.now }
    {
        match &self.objective {
            None => self.row_names.find(name),
            Some(objective) => self.target_behind(objective.as_slice(), name),
        }
    }

    fn target_behind(&self, objective: &[u8], name: &[u8]) -> Option<usize>
        ensures { result ≡ place_of name.now (objective.now ∷ row_names self.now.rows.items) }
    {
        if name == objective {
            return Some(0);
        }
        match self.row_names.find(name) {
            None => None,
            Some(place) => Some(place + 1),
        }
    }
}

fn row_kind(field: &[u8]) -> Option<RowKind>
    ensures { result ≡ kind_in field.now }
{
    if field == b"E".as_slice() {
        Some(RowKind::Equal)
    } else if field == b"G".as_slice() {
        Some(RowKind::Least)
    } else if field == b"L".as_slice() {
        Some(RowKind::Most)
    } else {
        None
    }
}
