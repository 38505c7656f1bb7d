//! How far a text has been read.

/// The heading that was read last.
#[derive(Clone, Copy, Debug, PartialEq, Eq)]
pub(crate) enum Stage {
    /// None yet.
    Start,
    Named,
    Rows,
    Columns,
    Rights,
    Limits,
    Ended,
}

/// What a bound of a column says.
#[derive(Clone, Copy, Debug, PartialEq, Eq)]
pub(crate) enum BoundKind {
    Upper,
    Lower,
    Fixed,
}
