//! A dive under way.

use crate::choosing::column_to_round;
use crate::levels::whole_copies;
use crate::variants::{FEW, Variant};
use arc_num::Memory;
use column_master::{Relaxation, RowName};
use column_pool::{Column, ColumnPool, Way};
use packing_laws::{Bin, Count, Counts};
use simplex_basis::{Coefficient, Columns};
use std::alloc::Global;

/// The program that is left, and the bins that were taken so far.
#[derive(Drop)]
pub(crate) struct Diving {
    alloc: Global,
    pub relaxation: Relaxation,
    pub bins: Vec<Bin>,
    /// What the bins cost.
    pub cost: u64,
    variant: Variant,
    /// How many columns were rounded up.
    steps: u32,
    /// Columns that are not rounded up.
    passed: Vec<usize>,
}

impl Diving {
    pub(crate) fn new(alloc: Global, relaxation: Relaxation, variant: Variant) -> Diving {
        Diving {
            alloc,
            relaxation,
            bins: Vec::new(alloc),
            cost: 0,
            variant,
            steps: 0,
            passed: Vec::new(alloc),
        }
    }

    /// Whether no column was taken yet.
    pub(crate) fn is_new(&self) -> bool {
        self.bins.is_empty() && self.steps == 0
    }

    /// Takes the whole copies of each column. False where numbers left their ranges.
    pub(crate) fn take_whole(&mut self, pool: &ColumnPool) -> Result<bool, Memory> {
        let mut solution = Vec::new(self.alloc);
        self.relaxation.push_solution(&mut solution)?;
        for chosen in solution.as_slice() {
            let times = self.variant.taken(whole_copies(chosen.level), self.steps);
            self.take(pool, chosen.column, times)?;
        }
        self.relaxation.settle_levels()
    }

    /// Takes a column that is in part in the solution once. False where there is none, or numbers left their ranges.
    pub(crate) fn round_up(&mut self, pool: &ColumnPool) -> Result<bool, Memory> {
        let skip = self.variant.passed_over(self.steps);
        match column_to_round(self.alloc, &self.relaxation, &mut self.passed, skip)? {
            Some(column) => {
                self.take(pool, column, 1)?;
                self.steps = self.steps.saturating_add(1);
                self.relaxation.settle_levels()
            }
            None => Ok(false),
        }
    }

    /// Whether nothing is asked for any more.
    pub(crate) fn is_through(&self) -> bool {
        let rows = self.relaxation.rows();
        rows.iter().all(|row| row.bound == 0 || matches!(row.name, RowName::Upper { .. }))
    }

    /// Takes a column of the pool so many times: the bounds fall, and the levels are still to be computed.
    fn take(&mut self, pool: &ColumnPool, column: usize, times: u32) -> Result<(), Memory> {
        if times == 0 {
            return Ok(());
        }
        if let (Ok(number), Some((way, found))) = (u32::try_from(column), pool.get(column)) {
            let coefficients = Vec::from_slice(
                self.alloc,
                self.relaxation.awake().coefficients(number),
            )?;
            lower_bounds(&mut self.relaxation, coefficients.as_slice(), times);
            self.bins.push(bin_of(self.alloc, way, found, times)?)?;
            let more = u64::from(found.cost).saturating_mul(u64::from(times));
            self.cost = self.cost.saturating_add(more);
        }
        Ok(())
    }
}

/// Whether a column has more copies in the solution than all variants take alike.
pub(crate) fn has_many(alloc: Global, relaxation: &Relaxation) -> Result<bool, Memory> {
    let mut solution = Vec::new(alloc);
    relaxation.push_solution(&mut solution)?;
    Ok(
        solution
            .as_slice()
            .iter()
            .any(|chosen| whole_copies(chosen.level) > FEW),
    )
}

/// Takes so many times what a column has out of the bounds, which do not fall below 0.
fn lower_bounds(relaxation: &mut Relaxation, coefficients: &[Coefficient], times: u32) {
    for coefficient in coefficients {
        let row = coefficient.row as usize;
        if let Some(bound) = bound_at(relaxation, row) {
            let units = u32::try_from(coefficient.value).unwrap_or(0);
            relaxation.set_bound(row, bound.saturating_sub(units.saturating_mul(times)));
        }
    }
}

fn bound_at(relaxation: &Relaxation, row: usize) -> Option<u32> {
    Some(relaxation.rows().get(row)?.bound)
}

/// So many bins that are filled as a column says.
fn bin_of(alloc: Global, way: &Way, column: &Column, times: u32) -> Result<Bin, Memory> {
    let mut counts = Vec::new(alloc);
    for content in column.contents.as_slice() {
        counts.push(Count {
            item: content.item,
            form: content.form,
            count: content.copies,
        })?;
    }
    Ok(Bin {
        bin_type: way.bin_type,
        times,
        counts: Counts::new(counts),
    })
}
