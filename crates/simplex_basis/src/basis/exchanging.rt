//! Basic variables below 0 give their places to artificial ones.

ghost use Rattle.std.specs.Prelude.{◌≡◌, ◌<◌, length};
ghost use Rattle.simplex_basis.specs.Standing.{SameFrame};

use super::Basis;
use crate::faults::{BasisFault, Broken};
use crate::parts::{Basic, Coefficient, Columns, Variable};
use arc_num::Listed;
use std::alloc::Global;

impl Basis {
    /// Exchanges each basic variable below 0 for an artificial one whose column is the negative of its own, and whose
    /// level is above 0 so. Then the prices are computed.
    pub fn exchange_negatives<C: Columns>(&mut self, columns: &C) -> Result<(), BasisFault>
        ensures { SameFrame self.old self.new }
    {
        for row in 0..self.levels.len() {
            if self.levels[row].is_negative() {
                self.exchange(row, columns)?;
            }
        }
        self.compute_prices()?;
        Ok(())
    }

    /// Whether no artificial variable is above 0.
    pub fn is_feasible(&self) -> bool {
        let mut standing = self
            .basics
            .as_slice()
            .iter()
            .zip(self.levels.as_slice().iter());
        standing.all(|(basic, level)| { !basic.is_artificial() || level.is_settled() })
    }

    fn exchange<C: Columns>(&mut self, row: usize, columns: &C) -> Result<(), BasisFault>
        requires { row < length self.old.basics }
        ensures { SameFrame self.old self.new }
    {
        let Ok(number) = u32::try_from(self.artificials.len()) else {
            return Err(BasisFault::Memory);
        };
        let alloc = *self.levels.allocator();
        let own = self.coefficients_of(self.basics[row].variable, columns)?;
        self.artificials.push(negatives(alloc, own.as_slice())?)?;
        self.basics[row] = Basic {
            variable: Variable::Artificial(number),
            cost: 0,
        };
        self.levels[row] = self.levels[row].negative();
        self.inverse.negate_row(row);
        Ok(())
    }

    /// The coefficients of a variable; none where there is no such one.
    pub fn coefficients_of<C: Columns>(
        &self,
        variable: Variable,
        columns: &C,
    ) -> Result<Vec<Coefficient>, BasisFault> {
        let alloc = *self.levels.allocator();
        let coefficients = match variable {
            Variable::Column(number) => Vec::from_slice(alloc, columns.coefficients(number))?,
            Variable::Slack(row) => match self.rows.get(row as usize) {
                Some(found) => vec![in alloc;
                    Coefficient {
                        row,
                        value: found.slack()
                    },
                ]?,
                None => Vec::new(alloc),
            },
            Variable::Artificial(number) => match self.artificials.get(number as usize) {
                Some(found) => Vec::from_slice(alloc, found.as_slice())?,
                None => Vec::new(alloc),
            },
        };
        Ok(coefficients)
    }
}

fn negatives(alloc: Global, column: &[Coefficient]) -> Result<Listed<Coefficient>, BasisFault> {
    let mut negatives = Listed::empty(alloc);
    for coefficient in column {
        let value = coefficient.value.checked_neg().ok_or(Broken)?;
        negatives.push(Coefficient {
            row: coefficient.row,
            value,
        })?;
    }
    Ok(negatives)
}
