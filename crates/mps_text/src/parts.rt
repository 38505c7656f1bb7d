//! Rows and columns as far as they are read.

ghost use Rattle.std.specs.Prelude.{◌≡◌, [], ◌∷◌, ◌++◌, OnOk, OnErr};

use arc_num::{Listed, Memory};
use flow_model::{Entry, Name, RowKind};

/// A row, and its right side where a line gave one.
#[derive(Debug, Drop)]
pub(crate) struct ReadRow {
    pub(crate) name: Name,
    pub(crate) kind: RowKind,
    pub(crate) right: Option<i64>,
}

/// A column: its cost and its bounds where lines gave them, and its entries as they were given, also those of value 0.
#[derive(Debug, Drop)]
pub(crate) struct ReadColumn {
    pub(crate) name: Name,
    pub(crate) cost: Option<i64>,
    pub(crate) entries: Listed<Entry>,
    pub(crate) fixed: Option<u64>,
    pub(crate) lower: Option<u64>,
    pub(crate) upper: Option<u64>,
}

impl ReadColumn {
    /// One more entry.
    pub(crate) fn add(&mut self, entry: Entry) -> Result<(), Memory>
        ensures ok { OnOk result (self.new ≡ record self.old { entries = self.old.entries ++ entry ∷ [] }) }
        ensures err { OnErr result (self.new ≡ self.old) }
    {
        self.entries.push(entry)
    }
}
