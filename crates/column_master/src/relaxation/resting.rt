//! Columns go to sleep where too many are awake.

use super::Relaxation;
use crate::ways::is_proper;
use column_pool::{Awake, ColumnPool};
use simplex_basis::{Basic, BasisFault, Variable};
use std::alloc::Global;

/// So many columns for each row are left awake at most, and so many more.
const MOST_AWAKE: usize = 5;

const SPARE_AWAKE: usize = 500;

/// A column that is awake, with its reduced cost: those with a small one come first.
#[derive(Clone, Copy, Debug, PartialEq, Eq, PartialOrd, Ord)]
struct Priced {
    reduced: i64,
    number: usize,
}

impl Relaxation {
    /// Where too many columns are awake, puts all but the best by reduced cost and those of the basis to sleep.
    pub(crate) fn rest(&mut self, alloc: Global, pool: &ColumnPool) -> Result<(), BasisFault> {
        let most = self.rows.len().saturating_mul(MOST_AWAKE);
        if self.awake.len() <= most.saturating_add(SPARE_AWAKE) {
            return Ok(());
        }
        let mut priced = self.priced(alloc)?;
        priced.sort_unstable();
        let mut awake = Awake::new(alloc, self.splits.as_slice())?;
        for next in priced.as_slice().iter().take(most / 2) {
            let _fresh = awake.wake(pool, next.number)?;
        }
        wake_basics(self.basis.basics(), pool, &mut awake)?;
        self.awake = awake;
        Ok(())
    }

    /// Puts the columns to sleep that have more copies of an item than the rest of its demand, by number, but for those of
    /// the basis.
    pub(crate) fn keep_proper(
        &mut self,
        alloc: Global,
        pool: &ColumnPool,
        rest: &[u32],
    ) -> Result<(), BasisFault> {
        let mut awake = Awake::new(alloc, self.splits.as_slice())?;
        for place in 0..self.awake.len() {
            if let Some(number) = self.awake.number_at(place)
                && is_proper_at(pool, number, rest)
            {
                let _fresh = awake.wake(pool, number)?;
            }
        }
        wake_basics(self.basis.basics(), pool, &mut awake)?;
        self.awake = awake;
        Ok(())
    }

    fn priced(&self, alloc: Global) -> Result<Vec<Priced>, BasisFault> {
        let mut reduced = Vec::new(alloc);
        self.awake
            .push_reduced(self.basis.prices(), self.unit(), &mut reduced)?;
        let mut priced = Vec::new(alloc);
        for (place, reduced) in reduced.as_slice().iter().enumerate() {
            if let Some(number) = self.awake.number_at(place) {
                let reduced = *reduced;
                priced.push(Priced { reduced, number })?;
            }
        }
        Ok(priced)
    }
}

fn is_proper_at(pool: &ColumnPool, number: usize, rest: &[u32]) -> bool {
    match pool.get(number) {
        Some((_, column)) => is_proper(column.contents.as_slice(), rest),
        None => false,
    }
}

fn wake_basics(basics: &[Basic], pool: &ColumnPool, awake: &mut Awake) -> Result<(), BasisFault> {
    for basic in basics {
        if let Variable::Column(number) = basic.variable {
            let _fresh = awake.wake(pool, number as usize)?;
        }
    }
    Ok(())
}
