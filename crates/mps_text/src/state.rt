//! What is read so far.

ghost use Rattle.mps_text.specs.inner.Kept.{IsKept};

use crate::names::Names;
use crate::parts::{ReadColumn, ReadRow};
use crate::stages::Stage;
use flow_model::Name;

/// What is read so far. The names are also kept by themselves, to be found fast; each row has the number of the last
/// column with a value in it, which tells at once whether the column that is read has one there.
#[derive(Drop)]
pub(crate) struct Reader<'a> {
    pub(crate) stage: Stage,
    pub(crate) integers_open: bool,
    pub(crate) objective: Option<Name>,
    pub(crate) row_names: Names<'a>,
    pub(crate) rows: Vec<ReadRow>,
    pub(crate) last_columns: Vec<usize>,
    pub(crate) column_names: Names<'a>,
    pub(crate) columns: Vec<ReadColumn>,

    // The names are those of the rows and columns, and while columns may come the last columns are right.
    ghost kept: { IsKept stage row_names rows.items last_columns.items column_names columns.items },
}
