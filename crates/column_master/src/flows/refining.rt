//! The levels of a basis with more bits than its inverse has.

use crate::relaxation::Relaxation;
use arc_num::Memory;
use simplex_basis::{Basic, Basis, Coefficient, Columns, Entry, Level, POINT, Variable};
use std::alloc::Global;

/// Bits behind the point of refined levels.
pub(super) const FINE: u32 = 72;

/// So often what the rows miss is shared among the basic variables.
const STEPS: u32 = 2;

/// The level of each basic variable, in units of 2^-72. Artificial variables count as 0. Where a number leaves its range the
/// levels come out wrong.
pub(super) fn refined_levels(alloc: Global, relaxation: &Relaxation) -> Result<Vec<i128>, Memory> {
    let basis = relaxation.basis();
    let mut levels = Vec::new(alloc);
    for level in basis.levels() {
        levels.push(fine(*level))?;
    }
    for _ in 0..STEPS {
        let missing = missing_at(alloc, relaxation, levels.as_slice())?;
        share_out(basis, missing.as_slice(), levels.as_mut_slice());
    }
    Ok(levels)
}

fn fine(level: Level) -> i128 {
    level.value() << (FINE - POINT)
}

/// What each row misses at these levels, in units of 2^-72. Sums on the way may wrap, since in the end little is missing.
fn missing_at(
    alloc: Global,
    relaxation: &Relaxation,
    levels: &[i128],
) -> Result<Vec<i128>, Memory> {
    let basis = relaxation.basis();
    let mut missing = Vec::new(alloc);
    for row in basis.rows() {
        missing.push(i128::from(row.bound) << FINE)?;
    }
    for (basic, level) in basis.basics().iter().zip(levels.iter()) {
        take_basic(relaxation, basic, *level, missing.as_mut_slice());
    }
    Ok(missing)
}

/// Takes what a basic variable has at a level from what is missing.
fn take_basic(relaxation: &Relaxation, basic: &Basic, level: i128, missing: &mut [i128]) {
    match basic.variable {
        Variable::Column(number) => {
            take_column(relaxation.awake().coefficients(number), level, missing);
        }
        Variable::Slack(row) => take_slack(relaxation.basis(), row, level, missing),
        Variable::Artificial(_) => {}
    }
}

fn take_slack(basis: &Basis, row: u32, level: i128, missing: &mut [i128]) {
    if let Some(found) = basis.rows().get(row as usize) {
        let value = found.slack();
        let column = [Coefficient { row, value }];
        take_column(column.as_slice(), level, missing);
    }
}

fn take_column(column: &[Coefficient], level: i128, missing: &mut [i128]) {
    for coefficient in column {
        let row = coefficient.row as usize;
        if row < missing.len() {
            let taken = level.wrapping_mul(i128::from(coefficient.value));
            missing[row] = missing[row].wrapping_sub(taken);
        }
    }
}

/// Adds the inverse times what is missing to the levels.
fn share_out(basis: &Basis, missing: &[i128], levels: &mut [i128]) {
    let mut row = 0u32;
    for rest in missing {
        if *rest != 0
            && let Some(entries) = basis.column_of_inverse(row)
        {
            add_shares(entries, *rest, levels);
        }
        row = row.saturating_add(1);
    }
}

#[inline(never)]
fn add_shares(entries: &[Entry], rest: i128, levels: &mut [i128]) {
    for (level, entry) in levels.iter_mut().zip(entries.iter()) {
        let share = (rest >> 8).wrapping_mul(i128::from(entry.value()));
        *level = level.wrapping_add(share >> 32);
    }
}
