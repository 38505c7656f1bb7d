//! Levels of columns, as whole copies and shares of one.

use simplex_basis::{Level, ONE, POINT};

/// What is less than this above 0 may be due to rounding: 2^-22.
const SLIGHT: i128 = 1 << 18;

/// How many whole copies a column is taken.
pub(crate) fn whole_copies(level: Level) -> u32 {
    let whole = level.value().saturating_add(SLIGHT) >> POINT;
    u32::try_from(whole).unwrap_or(0)
}

pub(crate) fn is_above_zero(level: Level) -> bool {
    level.value() > SLIGHT
}

/// How good it is to take a column once more that has this level and so many units above what is asked for.
pub(crate) fn merit(level: Level, wasted: i64) -> i128 {
    let loss = i128::from(wasted).saturating_mul(i128::from(ONE / 3));
    level.value().saturating_sub(loss)
}
