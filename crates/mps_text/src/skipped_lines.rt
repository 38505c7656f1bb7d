//! Lines that count for nothing.

ghost use Rattle.std.specs.Prelude.{◌≡◌};
ghost use Rattle.std.specs.List.{list_all};
ghost use Rattle.arc_num.specs.Words.{is_white};
ghost use Rattle.mps_text.specs.Skipped.{is_comment, is_skipped};

/// Whether a line counts for nothing: it is empty or white space, or a comment.
pub(crate) fn is_skipped(line: &[u8]) -> bool
    ensures { result ≡ is_skipped line.now }
{
    is_blank(line) || is_comment(line)
}

fn is_blank(line: &[u8]) -> bool
    ensures { result ≡ list_all is_white line.now }
{
    line.iter().all(|byte| *byte == b' ' || *byte == b'\t' || *byte == b'\r' || *byte == b'\n')
}

fn is_comment(line: &[u8]) -> bool
    ensures { result ≡ is_comment line.now }
{
    match line.first() {
        Some(byte) => *byte == b'*',
        None => false,
    }
}
