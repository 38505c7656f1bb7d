//! What may enter the basis.

use super::Relaxation;
use crate::rows::MasterRow;
use simplex_basis::{Aim, Basis, Sense};

/// What gains: a variable with its cost, and how much a unit of it costs less than the rows are worth, as a number below 0.
#[derive(Clone, Copy, Debug, PartialEq, Eq)]
pub(super) struct Gaining {
    pub row: u32,
    pub reduced: i64,
}

impl Relaxation {
    /// What gains no more than this does not enter.
    pub(super) fn tolerance(&self) -> i64 {
        match self.basis.aim() {
            Aim::Feasible => simplex_basis::ONE >> 20,
            Aim::Cheapest => {
                let most = i64::from(self.most_cost).saturating_mul(self.basis.unit());
                let bits = if self.is_sharp { 32 } else { 24 };
                (most >> bits).max(1)
            }
        }
    }

    /// From now on what gains little enters too. Whether it did not before.
    pub(crate) fn sharpen(&mut self) -> bool {
        let before = self.is_sharp;
        self.is_sharp = true;
        !before
    }

    pub(crate) fn is_sharp(&self) -> bool {
        self.is_sharp
    }
}

/// The slack that gains most, if one gains more than the limit says.
pub(super) fn best_slack(rows: &[MasterRow], basis: &Basis, limit: i64) -> Option<Gaining> {
    let mut best = None;
    let mut least = limit;
    let mut row = 0u32;
    for (seen, price) in rows.iter().zip(basis.prices().iter()) {
        let reduced = match seen.seen().sense {
            Sense::AtLeast => price.value(),
            Sense::AtMost => price.value().saturating_neg(),
        };
        if reduced < least {
            least = reduced;
            best = Some(Gaining { row, reduced });
        }
        row = row.saturating_add(1);
    }
    best
}
