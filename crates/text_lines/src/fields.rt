//! Cutting a line into fields.

ghost use Rattle.std.specs.Prelude.{◌≡◌, ◌≢◌, ◌≤◌, not, [], ◌∷◌, length, position, MatchOption};
ghost use Rattle.std.specs.List.{position_or_len};
ghost use Rattle.text_lines.specs.Lines.{parts_fields, fields_of, is_indented, IsFirstField};

/// The first field of a line, and what stands behind it; the field is empty where the line has none. Spaces and tabs
/// part the fields, and every other byte is a byte of a field.
pub fn next_field(line: &[u8]) -> (&[u8], &[u8])
    ensures { IsFirstField line.now result.0.now result.1.now }
{
    let rest = &line[start(line)..];
    let end = end(rest);
    (&rest[..end], &rest[end..])
}

/// The fields of a line of two.
pub fn two_fields(line: &[u8]) -> Option<(&[u8], &[u8])>
    ensures { MatchOption result (length (fields_of line.now) ≢ 2) (λ x. fields_of line.now ≡ x.0.now ∷ x.1.now ∷ []) }
{
    let (first, rest) = next_field(line);
    let (second, rest) = next_field(rest);
    let (third, _) = next_field(rest);
    if first.is_empty() || second.is_empty() || !third.is_empty() {
        return None;
    }
    Some((first, second))
}

/// Whether a line begins with a space or a tab.
pub fn is_indented(line: &[u8]) -> bool
    ensures { result ≡ is_indented line.now }
{
    match line.first() {
        Some(byte) => parts_fields(*byte),
        None => false,
    }
}

fn parts_fields(byte: u8) -> bool
    ensures { result ≡ parts_fields byte }
{
    byte == b' ' || byte == b'\t'
}

fn start(line: &[u8]) -> usize
    ensures at { result ≡ position_or_len (λ b. not (parts_fields b)) line.now }
    ensures within { result ≤ length line.now }
{
    match first_inside(line) {
        Some(at) => at,
        None => line.len(),
    }
}

fn end(line: &[u8]) -> usize
    ensures at { result ≡ position_or_len parts_fields line.now }
    ensures within { result ≤ length line.now }
{
    match first_between(line) {
        Some(at) => at,
        None => line.len(),
    }
}

fn first_inside(line: &[u8]) -> Option<usize>
    ensures { result ≡ position (λ b. not (parts_fields b)) line.now }
{
    line.iter().position(|byte| !parts_fields(*byte))
}

fn first_between(line: &[u8]) -> Option<usize>
    ensures { result ≡ position parts_fields line.now }
{
    line.iter().position(|byte| parts_fields(*byte))
}
