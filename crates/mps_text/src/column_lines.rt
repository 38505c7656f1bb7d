//! Lines of the columns.

ghost use Rattle.std.specs.Prelude.{◌≡◌, ℕ, ◌+◌, ◌-◌, ◌<◌, ◌≤◌, ◌^◌, [], ◌∷◌, ◌++◌, length, None, OnOk, IfOk, Ok, Err};
ghost use Rattle.mps_text.specs.declared.faults.MpsCause.TheVariants as cause;
ghost use Rattle.text_lines.specs.Lines.{fields_of};
ghost use Rattle.mps_text.specs.inner.Counts.{fields_in};
ghost use Rattle.mps_text.specs.Meaning.{place_of, column_names, new_column, value_in, each_in, change_at, with_cost, with_entry, with_value, target_in, turn, mark_line, columns_with, column_line, columns_line};
ghost use Rattle.mps_text.specs.inner.Readers.{reading_of, opened, both_of, Judges, Finds, KeepsAll};

use crate::counts::{Pair, Pairs, pair_fields};
use crate::faults::MpsCause;
use crate::parts::ReadColumn;
use crate::reader::LineFault;
use crate::stages::Stage;
use crate::state::Reader;
use crate::values::{keeps_rules, name_of, two_numbers, value_of};
use arc_num::{Listed, Memory};
use flow_model::Entry;
use std::alloc::Global;

impl<'a> Reader<'a> {
    /// A line of the columns.
    pub(crate) fn columns_line(&mut self, alloc: Global, line: &'a [u8]) -> Result<(), LineFault>
        requires stage { self.old.stage ≡ Stage.Columns }
        requires small { length self.old.rows.items < 2 ^ 32 }
        ensures judged { Judges result (columns_line (reading_of self.old) (fields_of line.now)) (reading_of self.new) }
        ensures grows { length self.new.rows.items ≤ length self.old.rows.items }
    {
        match pair_fields(line) {
            None => Err(LineFault::Bad(MpsCause::Fields)),
            Some(pairs) => self.pairs_line(alloc, pairs),
        }
    }

    fn pairs_line(&mut self, alloc: Global, pairs: Pairs<'a>) -> Result<(), LineFault>
        requires stage { self.old.stage ≡ Stage.Columns }
        requires small { length self.old.rows.items < 2 ^ 32 }
        ensures judged { Judges result (columns_line (reading_of self.old) (fields_in pairs.entry)) (reading_of self.new) }
        ensures grows { length self.new.rows.items ≤ length self.old.rows.items }
    {
        match pairs.second {
            Some(second) => self.two_values(alloc, pairs.name, pairs.first, second),
            None => self.mark_or_value(alloc, pairs.name, pairs.first),
        }
    }

    fn mark_or_value(
        &mut self,
        alloc: Global,
        name: &'a [u8],
        pair: Pair<'a>,
    ) -> Result<(), LineFault>
        requires stage { self.old.stage ≡ Stage.Columns }
        requires small { length self.old.rows.items < 2 ^ 32 }
        ensures judged { Judges result (columns_line (reading_of self.old) (name.now ∷ pair.entry.row.now ∷ pair.entry.value.now ∷ [])) (reading_of self.new) }
        ensures grows { length self.new.rows.items ≤ length self.old.rows.items }
    {
        if pair.row == b"'MARKER'".as_slice() {
            return self.mark(name, pair.value);
        }
        self.one_value(alloc, name, pair)
    }

    fn mark(&mut self, name: &[u8], word: &[u8]) -> Result<(), LineFault>
        ensures judged { Judges result (mark_line (reading_of self.old) name.now word.now) (reading_of self.new) }
        ensures grows { self.new.rows.items ≡ self.old.rows.items }
    {
        if word == b"'INTORG'".as_slice() {
            return self.turn(name, true);
        }
        if word == b"'INTEND'".as_slice() {
            return self.turn(name, false);
        }
        Err(LineFault::Bad(MpsCause::Fields))
    }

    fn turn(&mut self, name: &[u8], opens: bool) -> Result<(), LineFault>
        ensures judged { Judges result (turn (reading_of self.old) name.now opens) (reading_of self.new) }
        ensures grows { self.new.rows.items ≡ self.old.rows.items }
    {
        if self.integers_open == opens {
            return Err(LineFault::Bad(MpsCause::Kind));
        }
        if !keeps_rules(name) {
            return Err(LineFault::Bad(MpsCause::Name));
        }
        self.integers_open = opens;
        Ok(())
    }

    fn one_value(&mut self, alloc: Global, name: &'a [u8], pair: Pair<'a>) -> Result<(), LineFault>
        requires stage { self.old.stage ≡ Stage.Columns }
        requires small { length self.old.rows.items < 2 ^ 32 }
        ensures judged { Judges result (column_line (reading_of self.old) name.now (pair.entry.row.now ∷ []) (pair.entry.value.now ∷ [])) (reading_of self.new) }
        ensures grows { self.new.rows.items ≡ self.old.rows.items }
    {
        self.open_column(alloc, name)?;
        if !self.integers_open {
            return Err(LineFault::Bad(MpsCause::Real));
        }
        let target = self.target_of(pair.row)?;
        let number = value_of(pair.value)?;
        self.put(target, number)
    }

    fn two_values(
        &mut self,
        alloc: Global,
        name: &'a [u8],
        first: Pair<'a>,
        second: Pair<'a>,
    ) -> Result<(), LineFault>
        requires stage { self.old.stage ≡ Stage.Columns }
        requires small { length self.old.rows.items < 2 ^ 32 }
        ensures judged { Judges result (column_line (reading_of self.old) name.now (first.entry.row.now ∷ second.entry.row.now ∷ []) (first.entry.value.now ∷ second.entry.value.now ∷ [])) (reading_of self.new) }
        ensures grows { self.new.rows.items ≡ self.old.rows.items }
    {
        self.open_column(alloc, name)?;
        if !self.integers_open {
            return Err(LineFault::Bad(MpsCause::Real));
        }
        let (target, other_target) = match self.two_targets(first.row, second.row) {
            Ok(targets) => targets,
            Err(fault) => return Err(fault),
        };
        let (number, other_number) = match two_numbers(first.value, second.value) {
            Ok(numbers) => numbers,
            Err(fault) => return Err(fault),
        };
        match self.put(target, number) {
            Ok(()) => self.put(other_target, other_number),
            Err(fault) => Err(fault),
        }
    }

    /// Makes the named column the last one.
    fn open_column(&mut self, alloc: Global, name: &'a [u8]) -> Result<(), LineFault>
        requires stage { self.old.stage ≡ Stage.Columns }
        ensures found { Finds (opened result self.new.columns.items) (columns_with name.now self.old.columns.items) cause.Name }
        ensures same { KeepsAll self.old self.new }
        ensures some { OnOk result (0 < length self.new.columns.items) }
    {
        match self.column_names.find(name) {
            Some(place) => {
                if place + 1 == self.columns.len() {
                    Ok(())
                } else {
                    Err(LineFault::Bad(MpsCause::Name))
                }
            }
            None => {
                if !keeps_rules(name) {
                    return Err(LineFault::Bad(MpsCause::Name));
                }
                self.add_column(alloc, name)?;
                Ok(())
            }
        }
    }

    fn add_column(&mut self, alloc: Global, name: &'a [u8]) -> Result<(), Memory>
        requires stage { self.old.stage ≡ Stage.Columns }
        requires new { place_of name.now (column_names self.old.columns.items) ≡ None }
        ensures added { OnOk result (self.new.columns.items ≡ self.old.columns.items ++ new_column name.now ∷ []) }
        ensures same { KeepsAll self.old self.new }
    {
        let column = ReadColumn {
            name: name_of(alloc, name)?,
            cost: None,
            entries: Listed::empty(alloc),
            fixed: None,
            lower: None,
            upper: None,
        };
        self.columns.reserve(1)?;
        self.column_names.add(name)?;
        self.columns.push(column).unwrap();
        Ok(())
    }

    fn target_of(&self, row: &[u8]) -> Result<usize, LineFault>
        ensures found { Finds result (target_in (reading_of self.now) row.now) cause.Row }
        ensures within { IfOk result (λ t. t ≤ length self.now.rows.items) }
    {
        match self.target(row) {
            Some(target) => Ok(target),
            None => Err(LineFault::Bad(MpsCause::Row)),
        }
    }

    fn two_targets(&self, first: &[u8], second: &[u8]) -> Result<(usize, usize), LineFault>
        ensures found { Finds (both_of result) (each_in (target_in (reading_of self.now)) (first.now ∷ second.now ∷ [])) cause.Row }
        ensures within { IfOk result (λ t. (t.0 ≤ length self.now.rows.items) × (t.1 ≤ length self.now.rows.items)) }
    {
        match self.target_of(first) {
            Err(fault) => Err(fault),
            Ok(one) => match self.target_of(second) {
                Err(fault) => Err(fault),
                Ok(two) => Ok((one, two)),
            },
        }
    }

    /// One more value of the last column.
    fn put(&mut self, target: usize, number: i64) -> Result<(), LineFault>
        requires stage { self.old.stage ≡ Stage.Columns }
        requires small { length self.old.rows.items < 2 ^ 32 }
        requires within { target ≤ length self.old.rows.items }
        requires some { 0 < length self.old.columns.items }
        ensures found { Finds (opened result self.new.columns.items) (change_at (length self.old.columns.items - 1) (with_value target number) self.old.columns.items) cause.Twice }
        ensures same { KeepsAll self.old self.new }
        ensures size { length self.new.columns.items ≡ length self.old.columns.items }
    {
        if target == 0 {
            self.put_cost(number)
        } else {
            self.put_entry(target - 1, number)
        }
    }

    fn put_cost(&mut self, number: i64) -> Result<(), LineFault>
        requires stage { self.old.stage ≡ Stage.Columns }
        requires some { 0 < length self.old.columns.items }
        ensures found { Finds (opened result self.new.columns.items) (change_at (length self.old.columns.items - 1) (with_cost number) self.old.columns.items) cause.Twice }
        ensures same { KeepsAll self.old self.new }
        ensures size { length self.new.columns.items ≡ length self.old.columns.items }
    {
        let last = self.columns.len() - 1;
        let column = &mut self.columns[last];
        if column.cost.is_some() {
            return Err(LineFault::Bad(MpsCause::Twice));
        }
        column.cost = Some(number);
        Ok(())
    }

    fn put_entry(&mut self, place: usize, number: i64) -> Result<(), LineFault>
        requires stage { self.old.stage ≡ Stage.Columns }
        requires small { length self.old.rows.items < 2 ^ 32 }
        requires within { place < length self.old.rows.items }
        requires some { 0 < length self.old.columns.items }
        ensures found { Finds (opened result self.new.columns.items) (change_at (length self.old.columns.items - 1) (with_entry (place + 1) number) self.old.columns.items) cause.Twice }
        ensures same { KeepsAll self.old self.new }
        ensures size { length self.new.columns.items ≡ length self.old.columns.items }
    {
        let count = self.columns.len();
        if self.last_columns[place] == count {
            return Err(LineFault::Bad(MpsCause::Twice));
        }
        let entry = Entry {
            row: place as u32 + 1,
            value: number,
        };
        self.columns[count - 1].add(entry)?;
        self.last_columns[place] = count;
        Ok(())
    }
}
