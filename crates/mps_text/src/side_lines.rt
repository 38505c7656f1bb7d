//! Lines of the right sides and of the bounds.

ghost use Rattle.std.specs.Prelude.{◌≡◌, ℕ, ◌<◌, ◌≤◌, [], ◌∷◌, length, Some, None, OnOk, IfOk, Ok, Err, if◌then◌else◌};
ghost use Rattle.mps_text.specs.declared.faults.MpsCause.TheVariants as cause;
ghost use Rattle.text_lines.specs.Lines.{fields_of};
ghost use Rattle.mps_text.specs.inner.Counts.{fields_in};
ghost use Rattle.mps_text.specs.Meaning.{place_of, row_names, column_names, value_in, bound_in, each_in, change_at, with_right, with_bound, right_line, rights_line, bound_kind_in, bound_line, bounds_line};
ghost use Rattle.mps_text.specs.inner.Readers.{reading_of, opened, both_of, Judges, Finds, KeepsAll, KeepsColumns};

use crate::counts::{Four, Pair, Pairs, four_fields, pair_fields};
use crate::faults::MpsCause;
use crate::parts::ReadColumn;
use crate::reader::LineFault;
use crate::stages::{BoundKind, Stage};
use crate::state::Reader;
use crate::values::{bound, keeps_rules, two_numbers, value_of};

impl<'a> Reader<'a> {
    /// A line of the right sides.
    pub(crate) fn rights_line(&mut self, line: &[u8]) -> Result<(), LineFault>
        requires stage { self.old.stage ≡ Stage.Rights }
        ensures judged { Judges result (rights_line (reading_of self.old) (fields_of line.now)) (reading_of self.new) }
        ensures grows { length self.new.rows.items ≤ length self.old.rows.items }
    {
        match pair_fields(line) {
            None => Err(LineFault::Bad(MpsCause::Fields)),
            Some(pairs) => self.right_pairs(pairs),
        }
    }

    fn right_pairs(&mut self, pairs: Pairs<'_>) -> Result<(), LineFault>
        requires stage { self.old.stage ≡ Stage.Rights }
        ensures judged { Judges result (rights_line (reading_of self.old) (fields_in pairs.entry)) (reading_of self.new) }
        ensures grows { length self.new.rows.items ≤ length self.old.rows.items }
    {
        match pairs.second {
            Some(second) => self.two_rights(pairs.name, pairs.first, second),
            None => self.one_right(pairs.name, pairs.first),
        }
    }

    fn one_right(&mut self, set: &[u8], pair: Pair<'_>) -> Result<(), LineFault>
        requires stage { self.old.stage ≡ Stage.Rights }
        ensures judged { Judges result (right_line (reading_of self.old) set.now (pair.entry.row.now ∷ []) (pair.entry.value.now ∷ [])) (reading_of self.new) }
        ensures grows { length self.new.rows.items ≡ length self.old.rows.items }
    {
        if !keeps_rules(set) {
            return Err(LineFault::Bad(MpsCause::Name));
        }
        let place = self.row_place(pair.row)?;
        let number = value_of(pair.value)?;
        self.put_right(place, number)
    }

    fn two_rights(&mut self, set: &[u8], first: Pair<'_>, second: Pair<'_>) -> Result<(), LineFault>
        requires stage { self.old.stage ≡ Stage.Rights }
        ensures judged { Judges result (right_line (reading_of self.old) set.now (first.entry.row.now ∷ second.entry.row.now ∷ []) (first.entry.value.now ∷ second.entry.value.now ∷ [])) (reading_of self.new) }
        ensures grows { length self.new.rows.items ≡ length self.old.rows.items }
    {
        if !keeps_rules(set) {
            return Err(LineFault::Bad(MpsCause::Name));
        }
        let (place, other_place) = match self.two_places(first.row, second.row) {
            Ok(places) => places,
            Err(fault) => return Err(fault),
        };
        let (number, other_number) = match two_numbers(first.value, second.value) {
            Ok(numbers) => numbers,
            Err(fault) => return Err(fault),
        };
        match self.put_right(place, number) {
            Ok(()) => self.put_right(other_place, other_number),
            Err(fault) => Err(fault),
        }
    }

    fn row_place(&self, row: &[u8]) -> Result<usize, LineFault>
        ensures found { Finds result (place_of row.now (row_names self.now.rows.items)) cause.Row }
        ensures within { IfOk result (λ t. t < length self.now.rows.items) }
    {
        match self.row_names.find(row) {
            Some(place) => Ok(place),
            None => Err(LineFault::Bad(MpsCause::Row)),
        }
    }

    fn two_places(&self, first: &[u8], second: &[u8]) -> Result<(usize, usize), LineFault>
        ensures found { Finds (both_of result) (each_in (λ name. place_of name (row_names self.now.rows.items)) (first.now ∷ second.now ∷ [])) cause.Row }
        ensures within { IfOk result (λ t. (t.0 < length self.now.rows.items) × (t.1 < length self.now.rows.items)) }
    {
        match self.row_place(first) {
            Err(fault) => Err(fault),
            Ok(one) => match self.row_place(second) {
                Err(fault) => Err(fault),
                Ok(two) => Ok((one, two)),
            },
        }
    }

    fn put_right(&mut self, place: usize, number: i64) -> Result<(), LineFault>
        requires stage { self.old.stage ≡ Stage.Rights }
        requires within { place < length self.old.rows.items }
        ensures found { Finds (opened result self.new.rows.items) (change_at place (with_right number) self.old.rows.items) cause.Twice }
        ensures same { KeepsColumns self.old self.new }
        ensures size { length self.new.rows.items ≡ length self.old.rows.items }
    {
        let row = &mut self.rows[place];
        if row.right.is_some() {
            return Err(LineFault::Bad(MpsCause::Twice));
        }
        row.right = Some(number);
        Ok(())
    }

    /// A line of the bounds.
    pub(crate) fn bounds_line(&mut self, line: &[u8]) -> Result<(), LineFault>
        requires stage { self.old.stage ≡ Stage.Limits }
        ensures judged { Judges result (bounds_line (reading_of self.old) (fields_of line.now)) (reading_of self.new) }
        ensures grows { self.new.rows.items ≡ self.old.rows.items }
    {
        match four_fields(line) {
            None => Err(LineFault::Bad(MpsCause::Fields)),
            Some(four) => self.bound_of(four),
        }
    }

    fn bound_of(&mut self, line: Four<'_>) -> Result<(), LineFault>
        requires stage { self.old.stage ≡ Stage.Limits }
        ensures judged { Judges result (bound_line (reading_of self.old) line.entry.kind.now line.entry.set.now line.entry.column.now line.entry.value.now) (reading_of self.new) }
        ensures grows { self.new.rows.items ≡ self.old.rows.items }
    {
        let kind = match bound_kind(line.kind) {
            Some(kind) => kind,
            None => return Err(LineFault::Bad(MpsCause::Kind)),
        };
        if !keeps_rules(line.set) {
            return Err(LineFault::Bad(MpsCause::Name));
        }
        let place = match self.column_names.find(line.column) {
            Some(place) => place,
            None => return Err(LineFault::Bad(MpsCause::Column)),
        };
        let number = match bound(line.value) {
            Some(number) => number,
            None => return Err(LineFault::Bad(MpsCause::Value)),
        };
        self.put_bound(place, kind, number)
    }

    fn put_bound(&mut self, place: usize, kind: BoundKind, number: u64) -> Result<(), LineFault>
        requires stage { self.old.stage ≡ Stage.Limits }
        requires within { place < length self.old.columns.items }
        ensures found { Finds (opened result self.new.columns.items) (change_at place (with_bound kind number) self.old.columns.items) cause.Twice }
        ensures same { KeepsAll self.old self.new }
    {
        if self.columns[place].set_bound(kind, number) {
            Ok(())
        } else {
            Err(LineFault::Bad(MpsCause::Twice))
        }
    }
}

fn bound_kind(field: &[u8]) -> Option<BoundKind>
    ensures { result ≡ bound_kind_in field.now }
{
    if field == b"UP".as_slice() {
        Some(BoundKind::Upper)
    } else if field == b"LO".as_slice() {
        Some(BoundKind::Lower)
    } else if field == b"FX".as_slice() {
        Some(BoundKind::Fixed)
    } else {
        None
    }
}

impl ReadColumn {
    /// One more bound, where it may have one of this kind.
    fn set_bound(&mut self, kind: BoundKind, number: u64) -> bool
        ensures bound { with_bound kind number self.old ≡ (if result then Some self.new else None) }
        ensures name { self.new.name ≡ self.old.name }
    {
        if self.fixed.is_some() {
            return false;
        }
        match kind {
            BoundKind::Upper => self.set_upper(number),
            BoundKind::Lower => self.set_lower(number),
            BoundKind::Fixed => self.set_fixed(number),
        }
    }

    fn set_upper(&mut self, number: u64) -> bool
        requires { self.old.fixed ≡ None }
        ensures bound { with_bound BoundKind.Upper number self.old ≡ (if result then Some self.new else None) }
        ensures name { self.new.name ≡ self.old.name }
    {
        if self.upper.is_some() {
            return false;
        }
        self.upper = Some(number);
        true
    }

    fn set_lower(&mut self, number: u64) -> bool
        requires { self.old.fixed ≡ None }
        ensures bound { with_bound BoundKind.Lower number self.old ≡ (if result then Some self.new else None) }
        ensures name { self.new.name ≡ self.old.name }
    {
        if self.lower.is_some() {
            return false;
        }
        self.lower = Some(number);
        true
    }

    fn set_fixed(&mut self, number: u64) -> bool
        requires { self.old.fixed ≡ None }
        ensures bound { with_bound BoundKind.Fixed number self.old ≡ (if result then Some self.new else None) }
        ensures name { self.new.name ≡ self.old.name }
    {
        if self.lower.is_some() || self.upper.is_some() {
            return false;
        }
        self.fixed = Some(number);
        true
    }
}
