//! What a reader says of the next line.

use crate::lines::CertLine;

/// What a reader says of the next line.
#[derive(Clone, Debug, PartialEq, Eq, Drop)]
pub enum LineAnswer {
    Line(CertLine),
    /// The bytes that came have no whole line.
    NotYet,
    /// The line, by its number from 1, is no spelling for its place and version, or is longer than any.
    Bad { line: u64 },
    /// There was not enough memory. The line is still unread.
    Memory,
}
