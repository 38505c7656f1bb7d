//! Lines of a known number of fields.

ghost use Rattle.std.specs.Prelude.{◌≡◌, ◌≢◌, [], ◌∷◌, length, None, MatchOption, IfSome};
ghost use Rattle.text_lines.specs.Lines.{fields_of};
ghost use Rattle.mps_text.specs.inner.Counts.{fields_in, IsFirstPair};

use text_lines::next_field;

/// The four fields of a line of bounds.
#[derive(Clone, Copy)]
pub(crate) struct Four<'a> {
    pub(crate) kind: &'a [u8],
    pub(crate) set: &'a [u8],
    pub(crate) column: &'a [u8],
    pub(crate) value: &'a [u8],
}

/// The fields of a line of four.
pub(crate) fn four_fields(line: &[u8]) -> Option<Four<'_>>
    ensures { MatchOption result (length (fields_of line.now) ≢ 4) (λ x. fields_of line.now ≡ x.kind.now ∷ x.set.now ∷ x.column.now ∷ x.value.now ∷ []) }
{
    let (kind, rest) = next_field(line);
    let (set, rest) = next_field(rest);
    let (column, rest) = next_field(rest);
    let (value, rest) = next_field(rest);
    let (fifth, _) = next_field(rest);
    if kind.is_empty()
        || set.is_empty()
        || column.is_empty()
        || value.is_empty()
        || !fifth.is_empty()
    {
        return None;
    }
    Some(Four {
        kind,
        set,
        column,
        value,
    })
}

/// A row and what a line gives for it.
#[derive(Clone, Copy)]
pub(crate) struct Pair<'a> {
    pub(crate) row: &'a [u8],
    pub(crate) value: &'a [u8],
}

/// A name, and one or two pairs behind it.
#[derive(Clone, Copy)]
pub(crate) struct Pairs<'a> {
    pub(crate) name: &'a [u8],
    pub(crate) first: Pair<'a>,
    pub(crate) second: Option<Pair<'a>>,
}

/// The fields of a line of three or five.
pub(crate) fn pair_fields(line: &[u8]) -> Option<Pairs<'_>>
    ensures none { result ≡ None → (length (fields_of line.now) ≢ 3) × (length (fields_of line.now) ≢ 5) }
    ensures some { IfSome result (λ x. fields_of line.now ≡ fields_in x) }
{
    let (name, rest) = next_field(line);
    let (first, rest) = next_pair(rest);
    let (second, rest) = next_pair(rest);
    let (last, _) = next_field(rest);
    if name.is_empty() || first.row.is_empty() || first.value.is_empty() {
        return None;
    }
    if second.row.is_empty() {
        return Some(Pairs {
            name,
            first,
            second: None,
        });
    }
    if second.value.is_empty() || !last.is_empty() {
        return None;
    }
    Some(Pairs {
        name,
        first,
        second: Some(second),
    })
}

fn next_pair(line: &[u8]) -> (Pair<'_>, &[u8])
    ensures { IsFirstPair line.now result.0.row.now result.0.value.now result.1.now }
{
    let (row, rest) = next_field(line);
    let (value, rest) = next_field(rest);
    (Pair { row, value }, rest)
}
