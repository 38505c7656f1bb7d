//! What a program tells of its solution, and its copies.

use super::{BasicName, Chosen, Relaxation};
use crate::rows::{MasterRow, RowName};
use arc_num::Memory;
use column_pool::{Awake, ColumnPool};
use simplex_basis::{Basis, BasisFault, Level, Variable};

impl Relaxation {
    /// The rows: those of items with a demand, by item, and then those of arcs, by arc.
    pub fn rows(&self) -> &[MasterRow] {
        self.rows.as_slice()
    }

    pub fn basis(&self) -> &Basis {
        &self.basis
    }

    /// The columns that are awake.
    pub fn awake(&self) -> &Awake {
        &self.awake
    }

    /// Gives a row another bound, of which the levels know nothing before `settle_levels`. A row that is not there is
    /// passed over.
    pub fn set_bound(&mut self, row: usize, bound: u32) {
        if row < self.rows.len() && row < self.basis.rows().len() {
            self.rows[row].bound = bound;
            self.basis.set_bound(row, bound);
        }
    }

    /// Computes the levels from the bounds, and answers whether each is within its range.
    pub fn settle_levels(&mut self) -> Result<bool, Memory> {
        match self.basis.compute_levels() {
            Ok(()) => Ok(true),
            Err(BasisFault::Broken) => Ok(false),
            Err(BasisFault::Memory) => Err(Memory),
        }
    }

    /// What the columns cost together, in units of 2^-40; none where a number leaves its range.
    pub fn value(&self) -> Option<i128> {
        self.basis.value().ok()
    }

    /// Whether no artificial column is above 0.
    pub fn is_feasible(&self) -> bool {
        self.basis.is_feasible()
    }

    /// Appends the columns that are taken, by row.
    pub fn push_solution(&self, out: &mut Vec<Chosen>) -> Result<(), Memory> {
        let standing = self.basis.basics().iter().zip(self.basis.levels().iter());
        for (basic, level) in standing {
            if let Variable::Column(number) = basic.variable {
                push_chosen(number as usize, *level, out)?;
            }
        }
        Ok(())
    }

    /// Appends the names of the basic variables, from which a box below can start. Artificial ones have no name.
    pub fn push_names(&self, out: &mut Vec<BasicName>) -> Result<(), Memory> {
        for basic in self.basis.basics() {
            match basic.variable {
                Variable::Column(number) => out.push(BasicName::Column(number as usize))?,
                Variable::Slack(row) => push_slack(self.rows.as_slice(), row, out)?,
                Variable::Artificial(_) => {}
            }
        }
        Ok(())
    }

    /// Appends the numbers of the columns that are awake, in the order in which they woke.
    pub fn push_awake(&self, out: &mut Vec<usize>) -> Result<(), Memory> {
        for place in 0..self.awake.len() {
            if let Some(number) = self.awake.number_at(place) {
                out.push(number)?;
            }
        }
        Ok(())
    }

    /// Whether the program is that of a dive: a copy.
    pub(crate) fn is_dive(&self) -> bool {
        self.is_dive
    }

    /// The same program once more, for a dive: its columns have no more copies of an item than its rows ask for. The pool is
    /// that of its columns; none where a number left its range.
    pub fn copy(&self, pool: &ColumnPool) -> Result<Option<Relaxation>, Memory> {
        let alloc = *self.rows.allocator();
        let basis = match self.basis.copy() {
            Ok(basis) => basis,
            Err(BasisFault::Broken) => return Ok(None),
            Err(BasisFault::Memory) => return Err(Memory),
        };
        let mut awake = Awake::new(alloc, self.splits.as_slice())?;
        for place in 0..self.awake.len() {
            if let Some(number) = self.awake.number_at(place) {
                let _fresh = awake.wake(pool, number)?;
            }
        }
        Ok(Some(Relaxation {
            rows: Vec::from_slice(alloc, self.rows.as_slice())?,
            splits: Vec::from_slice(alloc, self.splits.as_slice())?,
            basis,
            awake,
            inverted_at: self.inverted_at,
            mends: 0,
            most_cost: self.most_cost,
            is_dive: true,
            is_sharp: false,
        }))
    }
}

fn push_chosen(column: usize, level: Level, out: &mut Vec<Chosen>) -> Result<(), Memory> {
    if !level.is_settled() && !level.is_negative() {
        out.push(Chosen { column, level })?;
    }
    Ok(())
}

fn push_slack(rows: &[MasterRow], row: u32, out: &mut Vec<BasicName>) -> Result<(), Memory> {
    if let Some(found) = rows.get(row as usize) {
        out.push(BasicName::Slack(found.name))?;
    }
    Ok(())
}
