//! The linear program of one box over the columns that are awake.

use crate::rows::{MasterRow, RowName, splits_of};
use arc_num::Memory;
use column_pool::{Awake, ColumnPool, SplitRow};
use flow_graph::FlowGraph;
use gains::best_slack;
use naming::{column_basic, slack_basic};
use simplex_basis::{
    Aim, Basic, Basis, BasisFault, Broken, Coefficient, Columns, Level, Row, Variable,
};
use std::alloc::Global;

mod gains;
mod naming;
mod reading;
mod resting;

/// A basic variable by a name that holds in every box. Columns are named by their numbers in the pool.
#[derive(Clone, Copy, Debug, PartialEq, Eq)]
pub enum BasicName {
    Column(usize),
    Slack(RowName),
}

/// A column of a solution in fractions, and how often it is taken.
#[derive(Clone, Copy, Debug, PartialEq, Eq)]
pub struct Chosen {
    pub column: usize,
    pub level: Level,
}

/// After so many pivots the inverse is computed anew.
const MOST_PIVOTS: u32 = 100;

/// So many pivots are made at most before the graphs are asked again.
const MOST_STEPS: u32 = 20_000;

/// So often the inverse is computed anew because a number left its range.
const MOST_MENDS: u32 = 8;

/// The rows of a box or of a dive, a basis of them, and the columns that are awake.
#[derive(Drop)]
pub struct Relaxation {
    rows: Vec<MasterRow>,
    splits: Vec<SplitRow>,
    basis: Basis,
    awake: Awake,
    /// Pivots of the basis when its inverse was last computed anew.
    inverted_at: u32,
    /// How often the inverse was computed anew because a number left its range.
    mends: u32,
    /// The greatest cost of a type.
    most_cost: u32,
    /// Whether the bounds are those of a dive.
    is_dive: bool,
    /// Whether what gains little enters too.
    is_sharp: bool,
}

/// What one step of the simplex did.
#[derive(Clone, Copy, Debug, PartialEq, Eq)]
enum Step {
    Pivot,
    /// Nothing gains.
    Best,
    /// Nothing bounds what gains.
    Stuck,
}

impl Relaxation {
    /// The program with the basis of slacks.
    pub(crate) fn new(
        alloc: Global,
        graph: &FlowGraph,
        rows: Vec<MasterRow>,
        price_bits: u32,
        most_cost: u32,
    ) -> Result<Relaxation, BasisFault> {
        let splits = splits_of(alloc, graph, rows.as_slice())?;
        let seen: Vec<Row> = rows.as_slice().iter().map(|row| row.seen()).collect(alloc)?;
        let basis = Basis::new(alloc, seen.as_slice(), price_bits.min(simplex_basis::POINT))?;
        let awake = Awake::new(alloc, splits.as_slice())?;
        Ok(Relaxation {
            rows,
            splits,
            basis,
            awake,
            inverted_at: 0,
            mends: 0,
            most_cost,
            is_dive: false,
            is_sharp: false,
        })
    }

    /// Wakes a column of the pool, and answers whether it slept.
    pub(crate) fn wake(&mut self, pool: &ColumnPool, number: usize) -> Result<bool, Memory> {
        self.awake.wake(pool, number)
    }

    /// Lets the named variables enter the basis of slacks. Those without a row here are left out.
    pub(crate) fn start(
        &mut self,
        alloc: Global,
        pool: &ColumnPool,
        names: &[BasicName],
    ) -> Result<(), BasisFault> {
        let mut basics = Vec::new(alloc);
        for name in names {
            if let Some(basic) = self.basic_of(pool, *name)? {
                basics.push(basic)?;
            }
        }
        self.basis.rebuild(basics.as_slice(), &self.awake)?;
        self.inverted_at = self.basis.pivots();
        Ok(())
    }

    /// The variable with this name, awake, if there is one here.
    fn basic_of(
        &mut self,
        pool: &ColumnPool,
        name: BasicName,
    ) -> Result<Option<Basic>, BasisFault> {
        match name {
            BasicName::Column(number) => {
                let _fresh = self.awake.wake(pool, number)?;
                Ok(column_basic(pool, number))
            }
            BasicName::Slack(row) => Ok(slack_basic(self.rows.as_slice(), row)),
        }
    }

    /// Goes on from the basis to one that is best over the columns that are awake: for the least cost, or where no solution
    /// is found for the least sum of artificial columns.
    pub(crate) fn optimize(&mut self, pool: &ColumnPool) -> Result<(), BasisFault> {
        self.basis.exchange_negatives(&self.awake)?;
        for _ in 0..8u32 {
            self.aim()?;
            let aim = self.basis.aim();
            self.descend(pool)?;
            if self.has_negatives() {
                self.invert()?;
                self.basis.exchange_negatives(&self.awake)?;
            } else if aim == Aim::Cheapest || !self.basis.is_feasible() {
                return Ok(());
            }
        }
        Ok(())
    }

    /// Aims at the least cost where no artificial column is above 0, and at none of these else.
    fn aim(&mut self) -> Result<(), Broken> {
        let aim = if self.basis.is_feasible() {
            Aim::Cheapest
        } else {
            Aim::Feasible
        };
        self.basis.set_aim(aim)
    }

    /// Pivots until nothing gains.
    fn descend(&mut self, pool: &ColumnPool) -> Result<(), BasisFault> {
        for _ in 0..MOST_STEPS {
            if self.basis.aim() == Aim::Feasible && self.basis.is_feasible() {
                return Ok(());
            }
            match self.step(pool) {
                Ok(Step::Pivot) => self.refresh()?,
                Ok(Step::Stuck) if self.basis.pivots() > self.inverted_at => self.invert()?,
                Ok(Step::Best | Step::Stuck) => return Ok(()),
                Err(Broken) => self.mend()?,
            }
        }
        Ok(())
    }

    /// Computes the inverse anew where it is old.
    fn refresh(&mut self) -> Result<(), BasisFault> {
        if self.basis.pivots().saturating_sub(self.inverted_at) >= MOST_PIVOTS {
            self.invert()?;
        }
        Ok(())
    }

    /// Computes the inverse anew after a number left its range; not too often.
    fn mend(&mut self) -> Result<(), BasisFault> {
        if self.mends >= MOST_MENDS {
            return Err(BasisFault::Broken);
        }
        self.mends = self.mends.saturating_add(1);
        self.invert()
    }

    pub(crate) fn invert(&mut self) -> Result<(), BasisFault> {
        self.basis.invert(&self.awake)?;
        self.inverted_at = self.basis.pivots();
        Ok(())
    }

    /// Lets what gains most enter.
    fn step(&mut self, pool: &ColumnPool) -> Result<Step, Broken> {
        let unit = self.unit();
        let limit = self.tolerance().saturating_neg();
        let slack = best_slack(self.rows.as_slice(), &self.basis, limit);
        let limit = slack.map_or(limit, |gaining| gaining.reduced);
        let column = self.awake.cheapest(self.basis.prices(), unit, limit);
        let row = match (column, slack) {
            (Some(number), _) => self.enter_column(pool, number)?,
            (None, Some(gaining)) => self.enter_slack(gaining.row)?,
            (None, None) => return Ok(Step::Best),
        };
        Ok(row.map_or(Step::Stuck, |_| Step::Pivot))
    }

    fn enter_column(&mut self, pool: &ColumnPool, number: usize) -> Result<Option<usize>, Broken> {
        let Some(basic) = column_basic(pool, number) else {
            return Ok(None);
        };
        let Variable::Column(name) = basic.variable else {
            return Ok(None);
        };
        self.basis.enter(basic, self.awake.coefficients(name))
    }

    fn enter_slack(&mut self, row: u32) -> Result<Option<usize>, Broken> {
        let Some(found) = self.rows.get(row as usize) else {
            return Ok(None);
        };
        let value = found.seen().slack();
        let basic = Basic {
            variable: Variable::Slack(row),
            cost: 0,
        };
        let column = [Coefficient { row, value }];
        self.basis.enter(basic, column.as_slice())
    }

    /// What a unit of cost is in prices under the aim; 0 where columns cost nothing.
    pub(crate) fn unit(&self) -> i64 {
        match self.basis.aim() {
            Aim::Feasible => 0,
            Aim::Cheapest => self.basis.unit(),
        }
    }

    fn has_negatives(&self) -> bool {
        self.basis.levels().iter().any(|level| level.is_negative())
    }

    pub(crate) fn compute_prices(&mut self) -> Result<(), Broken> {
        self.basis.compute_prices()
    }
}
