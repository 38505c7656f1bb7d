//! Levels, prices and values, computed anew from the inverse.

ghost use Rattle.std.specs.Prelude.{◌≡◌, ◌^◌, ◌≤◌, unsigned_abs};

use crate::entries::Entry;
use crate::faults::{BasisFault, Broken};
use crate::inverse::Inverse;
use crate::levels::Level;
use crate::parts::{Aim, Basic, Coefficient, Row};
use crate::prices::{Price, Total};
use std::alloc::Global;

/// The levels: the inverse times the right sides.
pub(crate) fn compute_levels(
    alloc: Global,
    inverse: &Inverse,
    rows: &[Row],
    levels: &mut [Level],
) -> Result<(), BasisFault> {
    let mut totals = vec![in alloc; Total::ZERO; levels.len()]?;
    add_columns(totals.as_mut_slice(), inverse.columns(), rows)?;
    for (level, total) in levels.iter_mut().zip(totals.as_slice().iter()) {
        *level = total.level().ok_or(Broken)?;
    }
    Ok(())
}

fn add_columns(totals: &mut [Total], entries: &[Entry], rows: &[Row]) -> Result<(), Broken> {
    let size = totals.len().max(1);
    for (column, row) in entries.chunks_exact(size).zip(rows.iter()) {
        if row.bound > 0 {
            add_multiple(totals, column, i64::from(row.bound))?;
        }
    }
    Ok(())
}

#[inline(never)]
fn add_multiple(totals: &mut [Total], column: &[Entry], factor: i64) -> Result<(), Broken> {
    for (total, entry) in totals.iter_mut().zip(column.iter()) {
        match total.plus(entry.times(factor)) {
            Some(sum) => *total = sum,
            None => return Err(Broken),
        }
    }
    Ok(())
}

/// The prices: the costs of the basic variables times the inverse, without so many of the last bits.
pub(crate) fn compute_prices(
    inverse: &Inverse,
    basics: &[Basic],
    aim: Aim,
    spare: u32,
    prices: &mut [Price],
) -> Result<(), Broken>
    requires { spare ≤ 40 }
{
    let columns = inverse.columns().chunks_exact(basics.len().max(1));
    for (price, column) in prices.iter_mut().zip(columns) {
        *price = price_of(column, basics, aim, spare)?;
    }
    Ok(())
}

#[inline(never)]
fn price_of(column: &[Entry], basics: &[Basic], aim: Aim, spare: u32) -> Result<Price, Broken>
    requires { spare ≤ 40 }
{
    let mut total = Total::ZERO;
    for (entry, basic) in column.iter().zip(basics.iter()) {
        let cost = basic.cost_under(aim);
        if cost > 0 {
            total = total.plus(entry.times(i64::from(cost))).ok_or(Broken)?;
        }
    }
    total.price(spare).ok_or(Broken)
}

/// What the basic variables cost together, in units of 2^-40.
pub(crate) fn value_of(levels: &[Level], basics: &[Basic], aim: Aim) -> Result<i128, Broken> {
    let mut total = Total::ZERO;
    for (level, basic) in levels.iter().zip(basics.iter()) {
        let cost = basic.cost_under(aim);
        total = total.plus(level.times(cost)).ok_or(Broken)?;
    }
    Ok(total.value())
}

/// The cost of a column less what its coefficients are worth, where one unit of cost is so many of price.
pub(crate) fn reduced_cost(
    column: &[Coefficient],
    prices: &[Price],
    cost: u32,
    unit: i64,
) -> Result<Price, Broken> {
    let start = Price::of_cost(cost, unit);
    let mut total = Total::ZERO.plus(start).ok_or(Broken)?;
    for coefficient in column {
        let Some(price) = prices.get(coefficient.row as usize) else {
            return Err(Broken);
        };
        total = total
            .plus(price.times(-i64::from(coefficient.value)))
            .ok_or(Broken)?;
    }
    total.price(0).ok_or(Broken)
}
