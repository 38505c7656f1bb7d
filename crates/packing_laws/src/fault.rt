use std::alloc::{AllocError, AllocFailed};
use thiserror::Error;

/// Why a text is not an instance: the first bad place, by the number of its token from 1, with its first cause.
#[derive(Clone, Copy, Debug, PartialEq, Eq, Error)]
pub enum ReadFault {
    /// There is no token at this place.
    #[error("token {index}: missing")]
    Short { index: u64 },
    /// The token is not of digits alone.
    #[error("token {index}: not a number")]
    NotNumber { index: u64 },
    /// The number is outside the limits of its place.
    #[error("token {index}: out of range")]
    Range { index: u64 },
    /// With this number of forms there are more than 8,000 in all.
    #[error("token {index}: too many forms")]
    Total { index: u64 },
    /// The last number of a weight vector that is 0 in every dimension.
    #[error("token {index}: item {item} form {form} has no weight")]
    ZeroWeight { index: u64, item: u32, form: u32 },
    /// All places are filled, and one more token follows.
    #[error("token {index}: one token too many")]
    Extra { index: u64 },
    /// Want of memory.
    #[error("out of memory")]
    Memory,
}

impl From<AllocError> for ReadFault {
    ghost use Rattle.std.specs.Prelude.{◌≡◌};
    ghost use Rattle.packing_laws.specs.declared.fault.ReadFault.TheVariants.{Memory};

    ghost from_gives = { λ _ e. e ≡ Memory };

    fn from(_e: AllocError) -> ReadFault {
        ReadFault::Memory
    }
}

impl<T: Drop> From<AllocFailed<T>> for ReadFault {
    ghost use Rattle.std.specs.Prelude.{◌≡◌};
    ghost use Rattle.packing_laws.specs.declared.fault.ReadFault.TheVariants.{Memory};

    ghost from_gives = { λ _ e. e ≡ Memory };

    fn from(_e: AllocFailed<T>) -> ReadFault {
        ReadFault::Memory
    }
}
