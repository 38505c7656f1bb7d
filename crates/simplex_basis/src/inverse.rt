//! The dense inverse of a basis, column by column.

ghost use Rattle.std.specs.Prelude.{◌≡◌, ◌*◌, ◌^◌, ◌<◌, ◌≤◌, ◌↔◌, IfOk, IfSome, IsSome, length, vec_len};

use crate::entries::{Entry, Pivot, Slight, Weight};
use crate::faults::Broken;
use crate::parts::Coefficient;
use crate::prices::Price;
use arc_num::Memory;
use std::alloc::Global;

/// A square matrix. Its column of a row says how the basic variables change with the right side of that row.
#[derive(Debug, Drop)]
pub(crate) struct Inverse {
    size: usize,
    entries: Vec<Entry>,
    ghost square: { vec_len entries ≡ size * size },
}

/// A pivot: the row that is left, and by what the column that enters is divided there.
#[derive(Clone, Copy, Debug)]
pub(crate) struct Step {
    pub row: usize,
    pub pivot: Pivot,
    /// The reduced cost of the column that enters.
    pub gain: i64,
}

/// A weight that is not 0, and its row.
#[derive(Clone, Copy, Debug)]
pub(crate) struct Factor {
    pub row: usize,
    pub weight: Weight,
}

impl Factor {
    pub(crate) const NONE: Factor = Factor {
        row: 0,
        weight: Weight::ZERO,
    };
}

impl Inverse {
    /// The matrix with these entries from corner to corner, and 0 elsewhere.
    pub(crate) fn diagonal(alloc: Global, signs: &[Entry]) -> Result<Inverse, Memory>
        requires { length signs.now < 2 ^ 31 }
        ensures { IfOk result (λ m. m.size ≡ length signs.now) }
    {
        let size = signs.len();
        let mut entries = vec![in alloc; Entry::ZERO; size * size]?;
        put_diagonal(entries.as_mut_slice(), signs);
        Ok(Inverse { size, entries })
    }

    pub(crate) fn copy(&self) -> Result<Inverse, Memory>
        ensures { IfOk result (λ m. m.size ≡ self.now.size) }
    {
        let entries = Vec::from_slice(*self.entries.allocator(), self.entries.as_slice())?;
        Ok(Inverse {
            size: self.size,
            entries,
        })
    }

    /// Makes it the matrix with these entries from corner to corner.
    pub(crate) fn reset(&mut self, signs: &[Entry])
        ensures { self.new.size ≡ self.old.size }
    {
        put_diagonal(self.entries.as_mut_slice(), signs);
    }

    /// The matrix times a column.
    pub(crate) fn weigh(
        &self,
        column: &[Coefficient],
        weights: &mut [Weight],
    ) -> Result<(), Broken> {
        clear(weights);
        for coefficient in column {
            let Some(entries) = self.column(coefficient.row) else {
                return Err(Broken);
            };
            add_multiple(weights, entries, i64::from(coefficient.value))?;
        }
        Ok(())
    }

    /// What the basic variables gain by a unit more on the right side of the row, from 0.
    pub(crate) fn column(&self, row: u32) -> Option<&[Entry]>
        ensures some { IsSome result ↔ (row < self.now.size) }
        ensures size { IfSome result (λ entries. length entries.now ≡ self.now.size) }
    {
        let index = row as usize;
        if index < self.size {
            let start = index * self.size;
            Some(&self.entries.as_slice()[start..start + self.size])
        } else {
            None
        }
    }

    pub(crate) fn columns(&self) -> &[Entry]
        ensures { length result.now ≡ self.now.size * self.now.size }
    {
        self.entries.as_slice()
    }

    /// Turns the sign of a row, from 0.
    pub(crate) fn negate_row(&mut self, row: usize)
        ensures { self.new.size ≡ self.old.size }
    {
        negate_row(self.entries.as_mut_slice(), self.size, row);
    }

    /// Divides the row of the pivot, and clears the column that enters from all others. The prices follow.
    pub(crate) fn pivot(
        &mut self,
        step: Step,
        factors: &[Factor],
        prices: &mut [Price],
    ) -> Result<(), Broken>
        ensures { self.new.size ≡ self.old.size }
    {
        pivot_columns(
            self.entries.as_mut_slice(),
            self.size,
            step,
            factors,
            prices,
        )
    }
}

fn put_diagonal(entries: &mut [Entry], signs: &[Entry]) {
    let size = signs.len().max(1);
    for (index, column) in entries.chunks_exact_mut(size).enumerate() {
        put_one(column, index, signs);
    }
}

fn put_one(column: &mut [Entry], index: usize, signs: &[Entry]) {
    for entry in column.iter_mut() {
        *entry = Entry::ZERO;
    }
    if index < column.len() && index < signs.len() {
        column[index] = signs[index];
    }
}

fn clear(weights: &mut [Weight]) {
    for weight in weights.iter_mut() {
        *weight = Weight::ZERO;
    }
}

#[inline(never)]
fn add_multiple(weights: &mut [Weight], entries: &[Entry], factor: i64) -> Result<(), Broken> {
    for (weight, entry) in weights.iter_mut().zip(entries.iter()) {
        match weight.plus(*entry, factor) {
            Some(sum) => *weight = sum,
            None => return Err(Broken),
        }
    }
    Ok(())
}

fn negate_row(entries: &mut [Entry], size: usize, row: usize) {
    for column in entries.chunks_exact_mut(size.max(1)) {
        if row < column.len() {
            column[row] = column[row].negative();
        }
    }
}

fn pivot_columns(
    entries: &mut [Entry],
    size: usize,
    step: Step,
    factors: &[Factor],
    prices: &mut [Price],
) -> Result<(), Broken> {
    for (column, price) in entries.chunks_exact_mut(size.max(1)).zip(prices.iter_mut()) {
        pivot_column(column, step, factors, price)?;
    }
    Ok(())
}

fn pivot_column(
    column: &mut [Entry],
    step: Step,
    factors: &[Factor],
    price: &mut Price,
) -> Result<(), Broken> {
    if step.row >= column.len() || column[step.row].is_zero() {
        return Ok(());
    }
    let entry = column[step.row].over(step.pivot).ok_or(Broken)?;
    *price = price.plus(step.gain, entry).ok_or(Broken)?;
    match entry.slight() {
        Some(slight) => subtract_slight(column, factors, slight)?,
        None => subtract(column, factors, entry)?,
    }
    column[step.row] = entry;
    Ok(())
}

#[inline(never)]
fn subtract_slight(column: &mut [Entry], factors: &[Factor], by: Slight) -> Result<(), Broken> {
    for factor in factors {
        if factor.row < column.len() {
            match column[factor.row].less_slight(factor.weight, by) {
                Some(less) => column[factor.row] = less,
                None => return Err(Broken),
            }
        }
    }
    Ok(())
}

#[inline(never)]
fn subtract(column: &mut [Entry], factors: &[Factor], by: Entry) -> Result<(), Broken> {
    for factor in factors {
        if factor.row < column.len() {
            match column[factor.row].less(factor.weight, by) {
                Some(less) => column[factor.row] = less,
                None => return Err(Broken),
            }
        }
    }
    Ok(())
}

/// Gathers the weights that are not 0, and answers how many there are.
pub(crate) fn gather(weights: &[Weight], factors: &mut [Factor]) -> usize
    ensures { result ≤ length factors.old }
{
    let mut count = 0;
    for (row, weight) in weights.iter().enumerate() {
        if !weight.is_zero() && count < factors.len() {
            factors[count] = Factor {
                row,
                weight: *weight,
            };
            count += 1;
        }
    }
    count
}
