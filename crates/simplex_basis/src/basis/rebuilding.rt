//! The inverse, computed anew from the names of basic variables.

ghost use Rattle.std.specs.Prelude.{◌≡◌, ◌<◌, IfSome, length};
ghost use Rattle.simplex_basis.specs.Standing.{SameFrame};

use super::{Basis, signs_of, slack_of};
use crate::entries::Weight;
use crate::faults::{BasisFault, Broken};
use crate::levels::Level;
use crate::parts::{Basic, Columns, Variable};
use std::alloc::Global;

/// A variable that is no slack is left out where its weights in the rows that are free are no greater than this: 2^-22.
const LEAST_SIZE: u64 = 1 << 18;

/// A variable that waits for its row: those with few coefficients come first.
#[derive(Clone, Copy, Debug, PartialEq, Eq, PartialOrd, Ord)]
struct Waiting {
    length: usize,
    place: usize,
}

impl Basis {
    /// Computes the inverse anew, and with it levels and prices.
    pub fn invert<C: Columns>(&mut self, columns: &C) -> Result<(), BasisFault>
        ensures { SameFrame self.old self.new }
    {
        let alloc = *self.levels.allocator();
        let names = Vec::from_slice(alloc, self.basics.as_slice())?;
        self.rebuild(names.as_slice(), columns)
    }

    /// Begins with all slacks, and lets the named variables enter, those with few coefficients first, each in the row
    /// with its greatest weight among those that no named slack and no earlier variable has. Then levels and prices are
    /// computed. A variable without a row is left out.
    pub fn rebuild<C: Columns>(&mut self, names: &[Basic], columns: &C) -> Result<(), BasisFault>
        ensures { SameFrame self.old self.new }
    {
        let alloc = *self.levels.allocator();
        let mut taken = vec![in alloc; false; self.levels.len()]?;
        mark_slacks(taken.as_mut_slice(), names);
        let mut waiting = self.waiting(names, columns)?;
        waiting.sort_unstable();
        self.put_slacks()?;
        for next in waiting.as_slice() {
            if let Some(name) = names.get(next.place) {
                self.put_in(*name, columns, taken.as_mut_slice())?;
            }
        }
        self.compute_levels()?;
        self.compute_prices()?;
        Ok(())
    }

    /// Makes each row's slack its basic variable. Levels and prices are 0 then.
    fn put_slacks(&mut self) -> Result<(), BasisFault>
        ensures { SameFrame self.old self.new }
    {
        let alloc = *self.levels.allocator();
        let signs = signs_of(alloc, self.rows.as_slice())?;
        self.inverse.reset(signs.as_slice());
        put_slacks(self.basics.as_mut_slice());
        for level in self.levels.as_mut_slice().iter_mut() {
            *level = Level::ZERO;
        }
        self.pivots = 0;
        Ok(())
    }

    /// The named variables that are no slacks, with the numbers of their coefficients.
    fn waiting<C: Columns>(
        &self,
        names: &[Basic],
        columns: &C,
    ) -> Result<Vec<Waiting>, BasisFault> {
        let mut waiting = Vec::new(*self.levels.allocator());
        for (place, name) in names.iter().enumerate() {
            match name.variable {
                Variable::Slack(_) => {}
                _ => {
                    let length = self.coefficients_of(name.variable, columns)?.len();
                    waiting.push(Waiting { length, place })?;
                }
            }
        }
        Ok(waiting)
    }

    fn put_in<C: Columns>(
        &mut self,
        name: Basic,
        columns: &C,
        taken: &mut [bool],
    ) -> Result<(), BasisFault>
        ensures { SameFrame self.old self.new }
    {
        let column = self.coefficients_of(name.variable, columns)?;
        self.inverse
            .weigh(column.as_slice(), self.weights.as_mut_slice())?;
        let Some(row) = free_row(self.weights.as_slice(), taken) else {
            return Ok(());
        };
        taken[row] = true;
        self.replace(row, name, 0)?;
        Ok(())
    }
}

fn mark_slacks(taken: &mut [bool], names: &[Basic]) {
    for name in names {
        if let Variable::Slack(row) = name.variable {
            mark(taken, row as usize);
        }
    }
}

fn mark(taken: &mut [bool], row: usize) {
    if row < taken.len() {
        taken[row] = true;
    }
}

fn put_slacks(basics: &mut [Basic]) {
    for (row, basic) in basics.iter_mut().enumerate() {
        if let Ok(row) = u32::try_from(row) {
            *basic = slack_of(row);
        }
    }
}

/// The row with the greatest weight among those that are not taken.
fn free_row(weights: &[Weight], taken: &[bool]) -> Option<usize>
    ensures weights { IfSome result (λ row. row < length weights.now) }
    ensures taken { IfSome result (λ row. row < length taken.now) }
{
    let mut found = weights.len();
    let mut greatest = LEAST_SIZE;
    for (row, (weight, is_taken)) in weights.iter().zip(taken.iter()).enumerate() {
        if !*is_taken && weight.size() > greatest {
            greatest = weight.size();
            found = row;
        }
    }
    if found < weights.len() && found < taken.len() {
        Some(found)
    } else {
        None
    }
}
