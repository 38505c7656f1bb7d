//! Columns and values in fields.

ghost use Rattle.std.specs.Prelude.{◌≡◌, ◌≢◌, ℕ, ◌+◌, ◌^◌, ◌<◌, ◌≤◌, ◌∷◌, [], length, position, None, IfSome, decimal, bytes_eq};
ghost use Rattle.std.specs.List.{list_all};
ghost use Rattle.flow_model.specs.Models.{arc_name};
ghost use Rattle.solution_text.specs.Fields.{column_names, is_point, is_zero, whole_part, fraction, size_in, value_in};
ghost use Rattle.solution_text.specs.inner.Letters.{letter_of};

use arc_num::{MAX_PRICE, number};
use flow_graph::{ArcKind, FlowGraph};

/// The place, from 0, of the arc whose column has this name: `Z` or, for an arc that is no bin arc, `F`, and the arc's
/// number without leading zeros.
pub(crate) fn column_place(name: &[u8], graph: &FlowGraph) -> Option<usize>
    ensures { result ≡ position (bytes_eq name.now) (column_names graph.now) }
{
    let _count = graph.arc_count();
    let (letter, digits) = name.split_first()?;
    let arc = arc_number(digits)?;
    let kind = graph.arc(arc)?;
    if *letter == letter_of(kind) {
        Some(arc as usize - 1)
    } else {
        None
    }
}

/// The number that these digits spell without leading zeros.
fn arc_number(digits: &[u8]) -> Option<u32>
    ensures some { IfSome result (λ a. digits.now ≡ decimal a) }
    ensures none { result ≡ None → (a : ℕ) → 1 ≤ a → a < 2 ^ 32 → digits.now ≢ decimal a }
{
    if digits.starts_with(b"0") {
        return None;
    }
    match number(digits) {
        Some(value) if value <= u32::MAX as u64 => Some(value as u32),
        _ => None,
    }
}

fn letter_of(kind: ArcKind) -> u8
    ensures { result ≡ letter_of kind }
{
    match kind {
        ArcKind::Bin { .. } => b'Z',
        _ => b'F',
    }
}

/// A value: a size, or a minus sign and the size 0.
pub(crate) fn value(field: &[u8]) -> Option<u64>
    ensures { result ≡ value_in field.now }
{
    match field.strip_prefix(b"-") {
        Some(digits) => match size(digits) {
            Some(0) => Some(0),
            _ => None,
        },
        None => size(field),
    }
}

/// A size: digits, and behind them nothing, or a point and any number of zeros.
fn size(field: &[u8]) -> Option<u64>
    ensures { result ≡ size_in field.now }
{
    let (digits, fraction) = parts(field);
    match number(digits) {
        Some(value) if value <= MAX_PRICE && are_zeros(fraction) => Some(value),
        _ => None,
    }
}

/// What stands before the first point of a field, and what stands behind it.
fn parts(field: &[u8]) -> (&[u8], &[u8])
    ensures whole { result.0.now ≡ whole_part field.now }
    ensures fraction { result.1.now ≡ fraction field.now }
{
    match point(field) {
        Some(at) => (&field[..at], &field[at + 1..]),
        None => (field, &field[field.len()..]),
    }
}

fn point(field: &[u8]) -> Option<usize>
    ensures { result ≡ position is_point field.now }
{
    field.iter().position(|byte| *byte == b'.')
}

fn are_zeros(digits: &[u8]) -> bool
    ensures { result ≡ list_all is_zero digits.now }
{
    digits.iter().all(|byte| *byte == b'0')
}
