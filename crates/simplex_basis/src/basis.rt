//! A basis of the primal simplex.

ghost use Rattle.std.specs.Prelude.{◌≡◌, ◌^◌, ◌<◌, ◌≤◌, IfOk, length};
ghost use Rattle.simplex_basis.specs.Standing.{SameFrame};

use crate::entries::{Entry, Weight};
use crate::faults::{BasisFault, Broken};
use crate::inverse::{Factor, Inverse};
use crate::levels::Level;
use crate::parts::{Aim, Basic, Coefficient, Row, Sense, Variable};
use crate::prices::Price;
use crate::products::POINT;
use crate::sums;
use arc_num::Listed;
use std::alloc::Global;
use std::marker::Model;

mod copying;
mod entering;
mod exchanging;
mod rebuilding;

/// Rows, the variable that is basic in each, and the numbers that go with them: the inverse of the matrix of the basic
/// variables' columns, their levels and the rows' prices. The numbers are rounded, and no proof rests on them.
#[derive(Debug, Drop)]
pub struct Basis {
    rows: Vec<Row>,
    inverse: Inverse,
    levels: Vec<Level>,
    prices: Vec<Price>,
    basics: Vec<Basic>,
    artificials: Vec<Listed<Coefficient>>,
    /// Of the column that enters.
    weights: Vec<Weight>,
    /// The weights that are not 0.
    factors: Vec<Factor>,
    aim: Aim,
    /// Bits behind the point of prices under the aim of least cost.
    price_bits: u32,
    /// Pivots since the inverse was computed anew.
    pivots: u32,
}

impl Model for Basis {
    ghost use Rattle.std.specs.Prelude.{vec_len};
    ghost use Rattle.simplex_basis.specs.Standing.{Standing};
    ghost use Rattle.simplex_basis.specs.inner.Shapes.{IsShaped};

    ghost Value = { Standing };

    ghost view = { λ b. record { rows = b.rows.items; basics = b.basics.items; aim = b.aim } };

    ghost invariant = { λ b. IsShaped (vec_len b.rows) b.inverse.size (vec_len b.levels) (vec_len b.prices) (vec_len b.basics) (vec_len b.weights) b.price_bits };
}

impl Basis {
    ghost use Rattle.std.specs.Prelude.{◌≡◌, ◌<◌, ◌≤◌, IfOk, IfSome, IsSome, IsTrue, ◌↔◌, length, slice_index_or, slice_set};
    ghost use Rattle.simplex_basis.specs.Standing.{SameFrame};

    /// The basis of slacks, with levels of either sign and prices of 0. Prices have so many bits behind the point.
    /// Broken where a bound is 2^31 or more.
    pub fn new(alloc: Global, rows: &[Row], price_bits: u32) -> Result<Basis, BasisFault>
        requires { price_bits ≤ POINT }
        ensures rows { IfOk result (λ b. b.rows ≡ rows.now) }
        ensures size { IfOk result (λ b. length b.basics ≡ length rows.now) }
    {
        let size = rows.len();
        if size >= MOST_ROWS {
            return Err(BasisFault::Memory);
        }
        let signs = signs_of(alloc, rows)?;
        let mut basis = Basis {
            rows: Vec::from_slice(alloc, rows)?,
            inverse: Inverse::diagonal(alloc, signs.as_slice())?,
            levels: vec![in alloc; Level::ZERO; size]?,
            prices: vec![in alloc; Price::ZERO; size]?,
            basics: slacks_of(alloc, rows)?,
            artificials: Vec::new(alloc),
            weights: vec![in alloc; Weight::ZERO; size]?,
            factors: vec![in alloc; Factor::NONE; size]?,
            aim: Aim::Cheapest,
            price_bits,
            pivots: 0,
        };
        basis.compute_levels()?;
        Ok(basis)
    }

    /// The rows, in order.
    pub fn rows(&self) -> &[Row]
        ensures { result.now ≡ self.now.rows }
    {
        self.rows.as_slice()
    }

    /// What is basic in each row.
    pub fn basics(&self) -> &[Basic]
        ensures { result.now ≡ self.now.basics }
    {
        self.basics.as_slice()
    }

    pub fn aim(&self) -> Aim
        ensures { result ≡ self.now.aim }
    {
        self.aim
    }

    /// The values of the basic variables, a row each.
    pub fn levels(&self) -> &[Level]
        ensures { length result.now ≡ length self.now.basics }
    {
        self.levels.as_slice()
    }

    /// The prices of the rows, in units of which one unit of cost has as many as `unit` says.
    pub fn prices(&self) -> &[Price]
        ensures { length result.now ≡ length self.now.basics }
    {
        self.prices.as_slice()
    }

    /// How much of price one unit of cost is.
    pub fn unit(&self) -> i64 {
        1 << (POINT - self.spare_bits())
    }

    /// Bits that prices do not keep.
    fn spare_bits(&self) -> u32
        ensures { result ≤ 40 }
    {
        match self.aim {
            Aim::Feasible => 0,
            Aim::Cheapest => POINT - self.price_bits,
        }
    }

    /// Pivots since the inverse was computed anew: after a hundred or so it should be again.
    pub fn pivots(&self) -> u32 {
        self.pivots
    }

    /// By what the basic variables change with one unit more on the right side of the row, from 0.
    pub fn column_of_inverse(&self, row: u32) -> Option<&[Entry]>
        ensures some { IsSome result ↔ (row < length self.now.basics) }
        ensures size { IfSome result (λ entries. length entries.now ≡ length self.now.basics) }
    {
        self.inverse.column(row)
    }

    /// Gives the row another bound. The levels are as before, until they are computed.
    pub fn set_bound(&mut self, row: usize, bound: u32)
        requires { row < length self.old.rows }
        ensures { (d : Row) → self.new ≡ record self.old { rows = slice_set self.old.rows row (record (slice_index_or self.old.rows row d) { bound = bound }) } }
    {
        self.rows[row].bound = bound;
    }

    /// Computes the levels from the inverse and the bounds.
    pub fn compute_levels(&mut self) -> Result<(), BasisFault>
        ensures { self.new ≡ self.old }
    {
        let alloc = *self.levels.allocator();
        sums::compute_levels(
            alloc,
            &self.inverse,
            self.rows.as_slice(),
            self.levels.as_mut_slice(),
        )
    }

    /// Computes the prices from the inverse and the costs.
    pub fn compute_prices(&mut self) -> Result<(), Broken>
        ensures { self.new ≡ self.old }
    {
        let spare = self.spare_bits();
        sums::compute_prices(
            &self.inverse,
            self.basics.as_slice(),
            self.aim,
            spare,
            self.prices.as_mut_slice(),
        )
    }

    /// Aims at something else, for which the prices are computed.
    pub fn set_aim(&mut self, aim: Aim) -> Result<(), Broken>
        ensures { self.new ≡ record self.old { aim = aim } }
    {
        self.aim = aim;
        self.compute_prices()
    }

    /// What the basic variables cost together under the aim, in units of 2^-40.
    pub fn value(&self) -> Result<i128, Broken> {
        sums::value_of(self.levels.as_slice(), self.basics.as_slice(), self.aim)
    }

    /// The cost of a column less what its coefficients are worth, in units of price.
    pub fn reduced_cost(&self, column: &[Coefficient], cost: u32) -> Result<Price, Broken> {
        sums::reduced_cost(column, self.prices.as_slice(), cost, self.unit())
    }
}

/// Rows of a basis: fewer than this, so that the entries of the inverse can be counted.
const MOST_ROWS: usize = 1 << 31;

fn signs_of(alloc: Global, rows: &[Row]) -> Result<Vec<Entry>, BasisFault>
    ensures { IfOk result (λ v. length v.items ≡ length rows.now) }
{
    let signs = rows.iter().map(sign_of).collect(alloc)?;
    Ok(signs)
}

fn sign_of(row: &Row) -> Entry {
    match row.sense {
        Sense::AtLeast => Entry::ONE.negative(),
        Sense::AtMost => Entry::ONE,
    }
}

fn slacks_of(alloc: Global, rows: &[Row]) -> Result<Vec<Basic>, BasisFault>
    requires { length rows.now < 2 ^ 31 }
    ensures { IfOk result (λ v. length v.items ≡ length rows.now) }
{
    let mut basics = Vec::new(alloc);
    for row in 0..rows.len() as u32 {
        basics.push(slack_of(row))?;
    }
    Ok(basics)
}

fn slack_of(row: u32) -> Basic {
    Basic {
        variable: Variable::Slack(row),
        cost: 0,
    }
}
