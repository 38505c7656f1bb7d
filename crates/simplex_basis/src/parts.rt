//! Rows, columns, and what stands in a basis.

/// On which side of its bound a row lies.
#[derive(Clone, Copy, Debug, PartialEq, Eq)]
pub enum Sense {
    AtLeast,
    AtMost,
}

/// A row: the columns' coefficients in it, each as often as its column is taken, keep the bound.
#[derive(Clone, Copy, Debug, PartialEq, Eq)]
pub struct Row {
    pub sense: Sense,
    /// Below 2^31, or else no basis is made.
    pub bound: u32,
}

impl Row {
    /// The coefficient of the row's slack, which is at least 0: -1 where what passes the bound is taken away.
    pub fn slack(&self) -> i32 {
        match self.sense {
            Sense::AtLeast => -1,
            Sense::AtMost => 1,
        }
    }
}

/// What a column has in a row, which is numbered from 0.
#[derive(Clone, Copy, Debug, PartialEq, Eq)]
pub struct Coefficient {
    pub row: u32,
    pub value: i32,
}

/// A variable of the program.
#[derive(Clone, Copy, Debug, PartialEq, Eq)]
pub enum Variable {
    /// The column with this number, as the caller counts.
    Column(u32),
    /// The slack of this row, from 0.
    Slack(u32),
    /// The artificial column with this number, which no solution has.
    Artificial(u32),
}

/// A variable, and what one unit of it costs.
#[derive(Clone, Copy, Debug, PartialEq, Eq)]
pub struct Basic {
    pub variable: Variable,
    pub cost: u32,
}

/// What a basis is to make least.
#[derive(Clone, Copy, Debug, PartialEq, Eq)]
pub enum Aim {
    /// The units of artificial columns together.
    Feasible,
    /// The cost of all columns together.
    Cheapest,
}

impl Basic {
    pub fn is_artificial(&self) -> bool {
        matches!(self.variable, Variable::Artificial(_))
    }

    /// What one unit costs under this aim.
    pub fn cost_under(&self, aim: Aim) -> u32 {
        match (aim, self.variable) {
            (Aim::Feasible, Variable::Artificial(_)) => 1,
            (Aim::Feasible, _) => 0,
            (Aim::Cheapest, _) => self.cost,
        }
    }
}

/// Where the coefficients of columns are found.
pub trait Columns {
    /// The coefficients of the column with this number, at most one in each row.
    fn coefficients(&self, number: u32) -> &[Coefficient];
}
