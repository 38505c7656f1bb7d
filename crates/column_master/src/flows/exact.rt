//! The columns of a program in exact fractions.

use super::fractions::{Fraction, common_multiple, fraction_of};
use super::refining::refined_levels;
use super::takings::{Taking, Takings};
use crate::relaxation::Relaxation;
use arc_num::Memory;
use simplex_basis::Variable;
use std::alloc::Global;

/// A level below this is taken for 0, in units of 2^-72.
const NOTHING: i128 = 1 << 20;

/// A column, and how often it is taken.
#[derive(Clone, Copy, Debug, PartialEq, Eq)]
struct Share {
    column: usize,
    fraction: Fraction,
}

/// The columns of a program, each level replaced by the fraction with a small denominator that it stands for; none where a
/// level stands for no such fraction, or where their common denominator is too large.
pub(super) fn exact_takings(
    alloc: Global,
    relaxation: &Relaxation,
) -> Result<Option<Takings>, Memory> {
    let levels = refined_levels(alloc, relaxation)?;
    let mut shares = Vec::new(alloc);
    let basics = relaxation.basis().basics();
    for (basic, level) in basics.iter().zip(levels.as_slice().iter()) {
        if let Variable::Column(number) = basic.variable
            && *level > NOTHING
        {
            let column = number as usize;
            match fraction_of(level.unsigned_abs()) {
                Some(fraction) => shares.push(Share { column, fraction })?,
                None => return Ok(None),
            }
        }
    }
    let Some(scale) = scale_of(shares.as_slice()) else {
        return Ok(None);
    };
    in_scale(alloc, shares.as_slice(), scale)
}

/// The least scale in which all shares are whole.
fn scale_of(shares: &[Share]) -> Option<u64> {
    let mut scale = 1u64;
    for share in shares {
        scale = common_multiple(scale, share.fraction.below)?;
    }
    Some(scale)
}

fn in_scale(alloc: Global, shares: &[Share], scale: u64) -> Result<Option<Takings>, Memory> {
    let mut columns = Vec::new(alloc);
    for share in shares {
        let column = share.column;
        match share.fraction.times(scale) {
            Some(times) => columns.push(Taking { column, times })?,
            None => return Ok(None),
        }
    }
    Ok(Some(Takings { scale, columns }))
}
