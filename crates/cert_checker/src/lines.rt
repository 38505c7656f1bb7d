//! Lines of a certificate, as they stand in a list of lines or in a list of places.

ghost use Rattle.std.specs.Prelude.{◌≡◌, ◌≤◌, length};
ghost use Rattle.cert_text.specs.declared.lines.CertLine.{CertLine};
ghost use Rattle.cert_checker.specs.inner.LineRefs.{line_of};

use cert_text::{CertLine, Claim, TreeLine};

/// A line that stands elsewhere.
#[derive(Clone, Copy, Debug)]
pub(crate) enum LineRef<'a> {
    Head { version: u32 },
    Claim { claim: Claim, goal: Option<u64> },
    Place(&'a TreeLine),
    End,
}

/// What stands for a line of a certificate.
pub(crate) trait Line: Sync {
    ghost told: { Self → CertLine };

    /// The line.
    fn shown(&self) -> LineRef<'_>
        ensures { line_of result ≡ told self.now };
}

impl Line for CertLine {
    ghost told = { λ line. line };

    fn shown(&self) -> LineRef<'_> {
        match self {
            CertLine::Head { version } => LineRef::Head { version: *version },
            CertLine::Claim { claim, goal } => LineRef::Claim {
                claim: *claim,
                goal: *goal,
            },
            CertLine::Tree(place) => LineRef::Place(place),
            CertLine::End => LineRef::End,
        }
    }
}

impl Line for TreeLine {
    ghost told = { λ place. CertLine.Tree place };

    fn shown(&self) -> LineRef<'_> {
        LineRef::Place(self)
    }
}

/// Whether a line is a leaf.
pub(crate) fn is_leaf(line: LineRef<'_>) -> bool {
    matches!(line, LineRef::Place(TreeLine::Leaf(_)))
}

/// How many leaves stand among the lines.
pub(crate) fn leaf_count<T: Line>(lines: &[T]) -> usize
    ensures { result ≤ length lines.now }
{
    let mut count = 0;
    for line in lines {
        if is_leaf(line.shown()) {
            count += 1;
        }
    }
    count
}

/// The place behind so many leaves, or behind all lines.
pub(crate) fn behind_leaves<T: Line>(lines: &[T], count: usize) -> usize
    ensures { result ≤ length lines.now }
{
    let mut seen = 0;
    for index in 0..lines.len() {
        if seen == count {
            return index;
        }
        if is_leaf(lines[index].shown()) {
            seen += 1;
        }
    }
    lines.len()
}
