//! Why a step of the simplex is not made.

use arc_num::Memory;
use std::alloc::{AllocError, AllocFailed};
use thiserror::Error;

/// A number left its range, or a column has a coefficient in a row that is not there. The numbers of a basis after it
/// are old and new ones mixed, until it is inverted anew.
#[derive(Clone, Copy, Debug, PartialEq, Eq, Error)]
#[error("a number left its range")]
pub struct Broken;

/// Why a basis is not made.
#[derive(Clone, Copy, Debug, PartialEq, Eq, Error)]
pub enum BasisFault {
    #[error("a number left its range")]
    Broken,
    #[error("out of memory")]
    Memory,
}

impl From<Broken> for BasisFault {
    ghost use Rattle.std.specs.Prelude.{◌≡◌};
    ghost use Rattle.simplex_basis.specs.declared.faults.BasisFault.TheVariants as fault;

    ghost from_gives = { λ _ e. e ≡ fault.Broken };

    fn from(_e: Broken) -> BasisFault {
        BasisFault::Broken
    }
}

impl From<Memory> for BasisFault {
    ghost use Rattle.std.specs.Prelude.{◌≡◌};
    ghost use Rattle.simplex_basis.specs.declared.faults.BasisFault.TheVariants as fault;

    ghost from_gives = { λ _ e. e ≡ fault.Memory };

    fn from(_e: Memory) -> BasisFault {
        BasisFault::Memory
    }
}

impl From<AllocError> for BasisFault {
    ghost use Rattle.std.specs.Prelude.{◌≡◌};
    ghost use Rattle.simplex_basis.specs.declared.faults.BasisFault.TheVariants as fault;

    ghost from_gives = { λ _ e. e ≡ fault.Memory };

    fn from(_e: AllocError) -> BasisFault {
        BasisFault::Memory
    }
}

impl<T: Drop> From<AllocFailed<T>> for BasisFault {
    ghost use Rattle.std.specs.Prelude.{◌≡◌};
    ghost use Rattle.simplex_basis.specs.declared.faults.BasisFault.TheVariants as fault;

    ghost from_gives = { λ _ e. e ≡ fault.Memory };

    fn from(_e: AllocFailed<T>) -> BasisFault {
        BasisFault::Memory
    }
}
