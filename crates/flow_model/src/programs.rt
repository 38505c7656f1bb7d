//! Linear programs in whole numbers. Rows and columns are numbered from 1.

use arc_num::Listed;

/// The name of a row, of a column or of the objective: bytes of a text.
pub type Name = Listed<u8>;

/// How what the columns add up to in a row stands to its right side.
#[derive(Clone, Copy, Debug, PartialEq, Eq)]
pub enum RowKind {
    Equal,
    /// At least the right side.
    Least,
    /// At most the right side.
    Most,
}

/// A row: what its columns' entries, each times the value of its column, have to add up to.
#[derive(Clone, Debug, PartialEq, Eq, Drop)]
pub struct Row {
    pub name: Name,
    pub kind: RowKind,
    pub right: i64,
}

/// What one unit of a column adds in the row with this number, from 1.
#[derive(Clone, Copy, Debug, PartialEq, Eq)]
pub struct Entry {
    pub row: u32,
    pub value: i64,
}

/// A column: a whole number within bounds, what one unit of it costs, and what it adds in the rows.
#[derive(Clone, Debug, PartialEq, Eq, Drop)]
pub struct Column {
    pub name: Name,
    pub cost: i64,
    pub entries: Listed<Entry>,
    pub lower: u64,
    pub upper: u64,
}

/// A linear program over whole numbers: rows, columns with bounds, and the name under which the costs of the columns
/// are added up. It need not keep any rule.
#[derive(Clone, Debug, PartialEq, Eq, Drop)]
pub struct Program {
    pub objective: Name,
    pub rows: Listed<Row>,
    pub columns: Listed<Column>,
}
