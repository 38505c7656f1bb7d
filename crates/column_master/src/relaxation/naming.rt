//! Basic variables by name.

use crate::rows::{MasterRow, RowName};
use column_pool::ColumnPool;
use simplex_basis::{Basic, Variable};

/// A column of the pool as a basic variable.
pub(super) fn column_basic(pool: &ColumnPool, number: usize) -> Option<Basic> {
    let (_, column) = pool.get(number)?;
    Some(Basic {
        variable: Variable::Column(u32::try_from(number).ok()?),
        cost: column.cost,
    })
}

/// The slack of the row with this name.
pub(super) fn slack_basic(rows: &[MasterRow], name: RowName) -> Option<Basic> {
    let place = rows.iter().position(|row| row.name == name)?;
    Some(Basic {
        variable: Variable::Slack(u32::try_from(place).ok()?),
        cost: 0,
    })
}
