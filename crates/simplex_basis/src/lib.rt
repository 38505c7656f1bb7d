//! A primal simplex on a dense inverse in fixed point.
#![tactic(auto)]

mod basis;
mod entries;
mod faults;
mod inverse;
mod levels;
mod parts;
mod prices;
mod products;
mod ratios;
mod sums;

pub use basis::Basis;
pub use entries::{Entry, Weight};
pub use faults::{BasisFault, Broken};
pub use levels::Level;
pub use parts::{Aim, Basic, Coefficient, Columns, Row, Sense, Variable};
pub use prices::Price;
pub use products::{ONE, POINT};
