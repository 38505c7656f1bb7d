//! The fields of a line, one after the other, and the numbers in them.

ghost use Rattle.std.specs.Prelude.{◌≡◌, ℕ, ◌≤◌, ◌^◌, [], ◌∷◌, ◌↔◌, length, IsTrue, MatchOption, position, ◌==◌};
ghost use Rattle.cert_text.specs.inner.Fields.{split_fields, numeral, ranged, signed_in, number_at, signed_at, Gives};

use crate::faults::LineFault;
use arc_num::{MAX_PRICE, number};
use std::marker::Model;

/// What stands between the spaces of a line. Two spaces have an empty field between them.
#[derive(Drop)]
pub(crate) struct Fields<'a> {
    rest: &'a [u8],
    is_done: bool,
}

impl<'a> Model for Fields<'a> {
    ghost use Rattle.std.specs.Prelude.{ℕ, List, [], if◌then◌else◌};
    ghost use Rattle.cert_text.specs.inner.Fields.{split_fields};

    ghost Value = { List (List ℕ) };

    ghost view = { λ s. if s.is_done then [] else split_fields s.rest.now };
}

impl<'a> Fields<'a> {
    pub(crate) fn new(line: &'a [u8]) -> Fields<'a>
        ensures { result ≡ split_fields line.now }
    {
        Fields {
            rest: line,
            is_done: false,
        }
    }

    pub(crate) fn next(&mut self) -> Option<&'a [u8]>
        ensures { MatchOption result ((self.old ≡ []) × (self.new ≡ [])) (λ field. self.old ≡ field.now ∷ self.new) }
    {
        if self.is_done {
            return None;
        }
        let rest = self.rest;
        match first_place(rest, b' ') {
            Some(end) => {
                self.rest = &rest[end + 1..];
                Some(&rest[..end])
            }
            None => {
                self.is_done = true;
                Some(rest)
            }
        }
    }

    pub(crate) fn is_empty(&self) -> bool
        ensures { result ≡ (length self.now == 0) }
    {
        self.is_done
    }
}

/// The first place of a byte.
pub(crate) fn first_place(bytes: &[u8], wanted: u8) -> Option<usize>
    ensures { result ≡ position (λ b. b == wanted) bytes.now }
{
    bytes.iter().position(|byte| *byte == wanted)
}

/// The value of digits that have no leading zero.
fn numeral(field: &[u8]) -> Option<u64>
    ensures { result ≡ numeral field.now }
{
    if field.len() > 1 && field[0] == b'0' {
        return None;
    }
    number(field)
}

fn ranged(least: u64, most: u64, field: &[u8]) -> Option<u64>
    ensures { result ≡ ranged least most (numeral field.now) }
{
    match numeral(field) {
        Some(n) if least <= n && n <= most => Some(n),
        _ => None,
    }
}

/// A price of an arc, which is not 0.
fn signed(field: &[u8]) -> Option<i64>
    ensures { result ≡ signed_in field.now }
{
    match field.strip_prefix(b"-") {
        Some(digits) => match ranged(1, MAX_PRICE, digits) {
            Some(n) => Some(-(n as i64)),
            None => None,
        },
        None => match ranged(1, MAX_PRICE, field) {
            Some(n) => Some(n as i64),
            None => None,
        },
    }
}

/// The next field as a number between two others.
#[tactic(auto, unfolding(crate::specs::inner::Fields::number_at))]
pub(crate) fn number_field(fields: &mut Fields<'_>, least: u64, most: u64) -> Result<u64, LineFault>
    ensures { Gives result (number_at least most fields.old) fields.new }
{
    match fields.next() {
        Some(field) => match ranged(least, most, field) {
            Some(n) => Ok(n),
            None => Err(LineFault::Bad),
        },
        None => Err(LineFault::Bad),
    }
}

/// The same for a number of 32 bits.
#[tactic(auto, unfolding(crate::specs::inner::Fields::number_at))]
pub(crate) fn small_field(fields: &mut Fields<'_>, least: u64, most: u32) -> Result<u32, LineFault>
    ensures { Gives result (number_at least most fields.old) fields.new }
{
    match fields.next() {
        Some(field) => match ranged(least, u64::from(most), field) {
            Some(n) => Ok(n as u32),
            None => Err(LineFault::Bad),
        },
        None => Err(LineFault::Bad),
    }
}

#[tactic(auto, unfolding(crate::specs::inner::Fields::signed_at))]
pub(crate) fn signed_field(fields: &mut Fields<'_>) -> Result<i64, LineFault>
    ensures { Gives result (signed_at fields.old) fields.new }
{
    match fields.next() {
        Some(field) => match signed(field) {
            Some(price) => Ok(price),
            None => Err(LineFault::Bad),
        },
        None => Err(LineFault::Bad),
    }
}
