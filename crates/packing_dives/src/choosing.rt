//! The column that is rounded up.

use crate::levels::{is_above_zero, merit};
use arc_num::Memory;
use column_master::{Chosen, MasterRow, Relaxation, RowName};
use simplex_basis::{Coefficient, Columns};
use std::alloc::Global;
use std::cmp::Reverse;

/// A column that may be taken once more. Better ones come first.
#[derive(Clone, Copy, Debug, PartialEq, Eq, PartialOrd, Ord)]
struct Candidate {
    merit: Reverse<i128>,
    column: usize,
}

/// What one more copy of a column would be worth in rows with these bounds.
#[derive(Clone, Copy, Debug, PartialEq, Eq)]
struct Use {
    /// Units that are asked for.
    wanted: i64,
    /// Units above what is asked for.
    wasted: i64,
    /// Whether each row that limits it lets it in.
    is_allowed: bool,
}

impl Use {
    const NONE: Use = Use {
        wanted: 0,
        wasted: 0,
        is_allowed: true,
    };

    /// With what the column has in one row more.
    fn with(self, row: &MasterRow, value: i64) -> Use {
        let bound = i64::from(row.bound);
        match row.name {
            RowName::Demand { .. } => Use {
                wanted: self.wanted.saturating_add(value.min(bound)),
                wasted: self
                    .wasted
                    .saturating_add(value.saturating_sub(bound).max(0)),
                ..self
            },
            RowName::Upper { .. } => Use {
                is_allowed: self.is_allowed && value <= bound,
                ..self
            },
            RowName::Lower { .. } => self,
        }
    }
}

/// The column to be rounded up, if there is one that is of use: the best one but for so many, which are put among those that
/// are passed over, and are not looked at again.
pub(crate) fn column_to_round(
    alloc: Global,
    relaxation: &Relaxation,
    passed: &mut Vec<usize>,
    skip: usize,
) -> Result<Option<usize>, Memory> {
    let mut candidates = Vec::new(alloc);
    push_candidates(alloc, relaxation, passed.as_slice(), &mut candidates)?;
    candidates.sort_unstable();
    let place = skip.min(candidates.len().saturating_sub(1));
    for candidate in candidates.as_slice().iter().take(place) {
        passed.push(candidate.column)?;
    }
    Ok(candidates.get(place).map(|candidate| candidate.column))
}

/// The columns in the solution that may be rounded up.
fn push_candidates(
    alloc: Global,
    relaxation: &Relaxation,
    passed: &[usize],
    out: &mut Vec<Candidate>,
) -> Result<(), Memory> {
    let mut solution = Vec::new(alloc);
    relaxation.push_solution(&mut solution)?;
    for chosen in solution.as_slice() {
        if !passed.contains(&chosen.column)
            && let Some(candidate) = candidate_of(relaxation, chosen)
        {
            out.push(candidate)?;
        }
    }
    Ok(())
}

fn candidate_of(relaxation: &Relaxation, chosen: &Chosen) -> Option<Candidate> {
    let number = u32::try_from(chosen.column).ok()?;
    let found = use_of(relaxation.rows(), relaxation.awake().coefficients(number));
    if found.is_allowed && found.wanted > 0 && is_above_zero(chosen.level) {
        Some(Candidate {
            merit: Reverse(merit(chosen.level, found.wasted)),
            column: chosen.column,
        })
    } else {
        None
    }
}

fn use_of(rows: &[MasterRow], coefficients: &[Coefficient]) -> Use {
    let mut found = Use::NONE;
    for coefficient in coefficients {
        if let Some(row) = rows.get(coefficient.row as usize) {
            found = found.with(row, i64::from(coefficient.value));
        }
    }
    found
}
