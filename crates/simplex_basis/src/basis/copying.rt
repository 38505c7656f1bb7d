//! Copies of a basis.

ghost use Rattle.std.specs.Prelude.{◌≡◌, IfOk};

use super::Basis;
use crate::faults::BasisFault;
use crate::parts::Coefficient;
use arc_num::Listed;
use std::alloc::Global;

impl Basis {
    /// The same basis once more, with all its numbers.
    pub fn copy(&self) -> Result<Basis, BasisFault>
        ensures { IfOk result (λ b. b ≡ self.now) }
    {
        let alloc = *self.levels.allocator();
        Ok(Basis {
            rows: Vec::from_slice(alloc, self.rows.as_slice())?,
            inverse: self.inverse.copy()?,
            levels: Vec::from_slice(alloc, self.levels.as_slice())?,
            prices: Vec::from_slice(alloc, self.prices.as_slice())?,
            basics: Vec::from_slice(alloc, self.basics.as_slice())?,
            artificials: copies(alloc, self.artificials.as_slice())?,
            weights: Vec::from_slice(alloc, self.weights.as_slice())?,
            factors: Vec::from_slice(alloc, self.factors.as_slice())?,
            aim: self.aim,
            price_bits: self.price_bits,
            pivots: self.pivots,
        })
    }
}

fn copies(
    alloc: Global,
    columns: &[Listed<Coefficient>],
) -> Result<Vec<Listed<Coefficient>>, BasisFault> {
    let mut copies = Vec::new(alloc);
    for column in columns {
        copies.push(Listed::new(Vec::from_slice(alloc, column.as_slice())?))?;
    }
    Ok(copies)
}
