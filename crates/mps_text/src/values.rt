//! Names and numbers in fields.

ghost use Rattle.std.specs.Prelude.{◌≡◌, [], ◌∷◌, IfOk};
ghost use Rattle.mps_text.specs.declared.faults.MpsCause.TheVariants as cause;
ghost use Rattle.std.specs.List.{list_all};
ghost use Rattle.mps_text.specs.Meaning.{is_visible, is_name, size_in, value_in, bound_in, each_in};
ghost use Rattle.mps_text.specs.inner.Readers.{both_of, Finds};

use crate::faults::MpsCause;
use crate::reader::LineFault;
use arc_num::{MAX_PRICE, Memory, number};
use flow_model::Name;
use std::alloc::Global;

/// A name of its own, with the bytes of a field.
pub(crate) fn name_of(alloc: Global, field: &[u8]) -> Result<Name, Memory>
    ensures { IfOk result (λ name. name ≡ field.now) }
{
    Ok(Name::new(Vec::from_slice(alloc, field)?))
}

/// Whether a name keeps the rules.
pub(crate) fn keeps_rules(name: &[u8]) -> bool
    ensures { result ≡ is_name name.now }
{
    let sized = !name.is_empty() && name.len() <= 255;
    sized && all_visible(name) && name != b"'MARKER'".as_slice()
}

fn all_visible(name: &[u8]) -> bool
    ensures { result ≡ list_all is_visible name.now }
{
    name.iter().all(|byte| visible(*byte))
}

fn visible(byte: u8) -> bool
    ensures { result ≡ is_visible byte }
{
    byte >= b'!' && byte <= b'~'
}

fn size(field: &[u8]) -> Option<u64>
    ensures { result ≡ size_in field.now }
{
    match number(field) {
        Some(n) if n <= MAX_PRICE => Some(n),
        _ => None,
    }
}

/// A value: digits, maybe with a minus sign before them.
fn value(field: &[u8]) -> Option<i64>
    ensures { result ≡ value_in field.now }
{
    match field.strip_prefix(b"-") {
        Some(digits) => match size(digits) {
            Some(n) => Some(-(n as i64)),
            None => None,
        },
        None => match size(field) {
            Some(n) => Some(n as i64),
            None => None,
        },
    }
}

/// A value of at least 0.
pub(crate) fn bound(field: &[u8]) -> Option<u64>
    ensures { result ≡ bound_in field.now }
{
    match value(field) {
        Some(n) if n >= 0 => Some(n as u64),
        _ => None,
    }
}

/// The value of a field, or the cause that it is none.
pub(crate) fn value_of(field: &[u8]) -> Result<i64, LineFault>
    ensures { Finds result (value_in field.now) cause.Value }
{
    match value(field) {
        Some(number) => Ok(number),
        None => Err(LineFault::Bad(MpsCause::Value)),
    }
}

/// The values of two fields, or the cause that one of them is none.
pub(crate) fn two_numbers(first: &[u8], second: &[u8]) -> Result<(i64, i64), LineFault>
    ensures { Finds (both_of result) (each_in value_in (first.now ∷ second.now ∷ [])) cause.Value }
{
    match value_of(first) {
        Err(fault) => Err(fault),
        Ok(one) => match value_of(second) {
            Err(fault) => Err(fault),
            Ok(two) => Ok((one, two)),
        },
    }
}
