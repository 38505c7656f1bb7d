//! A variable enters the basis, and another leaves it.

ghost use Rattle.std.specs.Prelude.{◌≡◌, ◌<◌, IfOk, IfSome, MatchOption, length};
ghost use Rattle.simplex_basis.specs.Standing.{SameFrame, WithBasic};

use super::Basis;
use crate::entries::Weight;
use crate::faults::Broken;
use crate::inverse::{Step, gather};
use crate::levels::Level;
use crate::parts::{Aim, Basic, Coefficient};
use crate::ratios;

impl Basis {
    /// Computes what each basic variable loses by one unit of a column.
    pub fn weigh(&mut self, column: &[Coefficient]) -> Result<(), Broken>
        ensures { self.new ≡ self.old }
    {
        self.inverse.weigh(column, self.weights.as_mut_slice())
    }

    /// The weights of the column that was weighed last, a row each.
    pub fn weights(&self) -> &[Weight]
        ensures { length result.now ≡ length self.now.basics }
    {
        self.weights.as_slice()
    }

    /// Lets a variable with these coefficients enter, in the row of the one that first falls to 0, and answers that row;
    /// or none, with the basis as it was, where nothing bounds it. An artificial variable at 0 leaves before all others
    /// once the aim is least cost.
    pub fn enter(
        &mut self,
        entering: Basic,
        column: &[Coefficient],
    ) -> Result<Option<usize>, Broken>
        ensures frame { SameFrame self.old self.new }
        ensures entered { IfOk result (λ place. MatchOption place (self.new ≡ self.old) (λ row. WithBasic self.old self.new row entering)) }
    {
        let gain = self.reduced_cost(column, entering.cost_under(self.aim))?;
        self.weigh(column)?;
        let Some(row) = self.leaving_row() else {
            return Ok(None);
        };
        self.replace(row, entering, gain.value())?;
        Ok(Some(row))
    }

    fn leaving_row(&self) -> Option<usize>
        ensures { IfSome result (λ row. row < length self.now.basics) }
    {
        let levels = self.levels.as_slice();
        let weights = self.weights.as_slice();
        if self.aim == Aim::Cheapest {
            let artificial = ratios::artificial_row(self.basics.as_slice(), levels, weights);
            if artificial.is_some() {
                return artificial;
            }
        }
        ratios::leaving_row(levels, weights)
    }

    /// Lets the variable whose weights were computed take the place of the one in this row.
    pub(super) fn replace(&mut self, row: usize, entering: Basic, gain: i64) -> Result<(), Broken>
        requires { row < length self.old.basics }
        ensures frame { SameFrame self.old self.new }
        ensures entered { IfOk result (λ _. WithBasic self.old self.new row entering) }
    {
        let pivot = self.weights[row].pivot().ok_or(Broken)?;
        settle(self.levels.as_mut_slice(), row, self.basics[row]);
        self.basics[row] = entering;
        let step = Step { row, pivot, gain };
        let count = gather(self.weights.as_slice(), self.factors.as_mut_slice());
        let factors = &self.factors.as_slice()[..count];
        self.inverse
            .pivot(step, factors, self.prices.as_mut_slice())?;
        pivot_levels(self.levels.as_mut_slice(), step, self.weights.as_slice())?;
        self.pivots = self.pivots.saturating_add(1);
        Ok(())
    }
}

/// An artificial variable that leaves near 0 leaves at 0, so that none is below 0 by rounding alone.
fn settle(levels: &mut [Level], row: usize, leaving: Basic) {
    if row < levels.len() && leaving.is_artificial() && levels[row].is_settled() {
        levels[row] = Level::ZERO;
    }
}

fn pivot_levels(levels: &mut [Level], step: Step, weights: &[Weight]) -> Result<(), Broken> {
    if step.row >= levels.len() {
        return Ok(());
    }
    let entering = levels[step.row].over(step.pivot).ok_or(Broken)?;
    subtract(levels, weights, entering)?;
    levels[step.row] = entering;
    Ok(())
}

#[inline(never)]
fn subtract(levels: &mut [Level], weights: &[Weight], by: Level) -> Result<(), Broken> {
    for (level, weight) in levels.iter_mut().zip(weights.iter()) {
        match level.less(*weight, by) {
            Some(less) => *level = less,
            None => return Err(Broken),
        }
    }
    Ok(())
}
