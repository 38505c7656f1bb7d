//! What a column has.

use simplex_basis::Coefficient;

/// How often a bin has a form of an item.
#[derive(Clone, Copy, Debug, PartialEq, Eq)]
pub struct Content {
    pub item: u32,
    pub form: u32,
    pub copies: u32,
}

/// What one bin that is filled so costs, what it has in the rows of the master, and what is in it.
#[derive(Debug, Drop)]
pub struct Column {
    pub cost: u32,
    pub coefficients: Vec<Coefficient>,
    pub contents: Vec<Content>,
}
