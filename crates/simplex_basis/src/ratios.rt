//! Which basic variable leaves: the ratio test in two passes of P. M. J. Harris, "Pivot selection methods of the Devex
//! LP code", Mathematical Programming 5 (1973).

ghost use Rattle.std.specs.Prelude.{◌<◌, IfSome, length};

use crate::entries::Weight;
use crate::levels::{Level, Ratio};
use crate::parts::Basic;

/// A weight that is no greater than this, 2^-22, does not bound the column that enters.
const LEAST_WEIGHT: i64 = 1 << 18;

/// An artificial variable at 0 leaves where its weight is greater than this, 2^-18.
const LEAST_LEAVING: u64 = 1 << 22;

/// The row of the variable that first falls to 0 when the column enters, and among those that fall at nearly the same
/// time the one with the greatest weight; or none where nothing bounds the column.
pub(crate) fn leaving_row(levels: &[Level], weights: &[Weight]) -> Option<usize>
    ensures { IfSome result (λ row. row < length levels.now) }
{
    let bound = least_ratio(levels, weights)?;
    greatest_within(levels, weights, bound)
}

fn least_ratio(levels: &[Level], weights: &[Weight]) -> Option<Ratio> {
    let mut least: Option<Ratio> = None;
    for (level, weight) in levels.iter().zip(weights.iter()) {
        if weight.value() > LEAST_WEIGHT {
            least = smaller(
                least,
                Ratio {
                    level: *level,
                    weight: *weight,
                },
            );
        }
    }
    least
}

fn smaller(least: Option<Ratio>, ratio: Ratio) -> Option<Ratio> {
    match least {
        Some(best) if !ratio.is_below(best) => Some(best),
        _ => Some(ratio),
    }
}

fn greatest_within(levels: &[Level], weights: &[Weight], bound: Ratio) -> Option<usize>
    ensures { IfSome result (λ row. row < length levels.now) }
{
    let mut found = levels.len();
    let mut greatest = LEAST_WEIGHT;
    for (row, (level, weight)) in levels.iter().zip(weights.iter()).enumerate() {
        if weight.value() > greatest && is_within(*level, *weight, bound) {
            greatest = weight.value();
            found = row;
        }
    }
    if found < levels.len() {
        Some(found)
    } else {
        None
    }
}

fn is_within(level: Level, weight: Weight, bound: Ratio) -> bool {
    Ratio { level, weight }.is_within(bound)
}

/// The first row of an artificial variable at 0 that the column changes.
pub(crate) fn artificial_row(
    basics: &[Basic],
    levels: &[Level],
    weights: &[Weight],
) -> Option<usize>
    ensures { IfSome result (λ row. row < length levels.now) }
{
    let rows = basics.iter().zip(levels.iter().zip(weights.iter()));
    for (row, (basic, (level, weight))) in rows.enumerate() {
        if basic.is_artificial() && level.is_settled() && weight.size() > LEAST_LEAVING {
            return within(row, levels);
        }
    }
    None
}

fn within(row: usize, levels: &[Level]) -> Option<usize>
    ensures { IfSome result (λ row. row < length levels.now) }
{
    if row < levels.len() { Some(row) } else { None }
}
