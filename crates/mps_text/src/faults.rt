//! What is wrong with a text that means no program.

use arc_num::Memory;
use std::fmt::Debug;
use thiserror::Error;

/// What a line is at fault with. A line has the first of its causes in this order.
#[derive(Clone, Copy, Debug, PartialEq, Eq, Error)]
pub enum MpsCause {
    /// A heading that is unknown, missing, out of order or not alone, a line outside the sections, or no objective.
    #[error("no line of this section")]
    Section,
    #[error("wrong number of fields")]
    Fields,
    #[error("no such kind here")]
    Kind,
    #[error("bad name")]
    Name,
    /// A column outside the marks of whole numbers.
    #[error("not a column of whole numbers")]
    Real,
    #[error("no such row")]
    Row,
    #[error("no such column")]
    Column,
    #[error("bad value")]
    Value,
    #[error("given twice")]
    Twice,
    /// A column whose bounds are missing or bar each value.
    #[error("bad bounds")]
    Bound,
}

/// Why a text was not read.
#[derive(Clone, Copy, Debug, PartialEq, Eq, Error)]
pub enum MpsFault {
    /// The first line at fault, from 1, and its first cause.
    #[error("line {line}: {cause}")]
    Bad { line: u64, cause: MpsCause },
    #[error("out of memory")]
    Memory,
}

impl From<Memory> for MpsFault {
    ghost use Rattle.std.specs.Prelude.{◌≡◌};
    ghost use Rattle.mps_text.specs.declared.faults.MpsFault.TheVariants as fault;

    ghost from_gives = { λ _ e. e ≡ fault.Memory };

    fn from(_e: Memory) -> MpsFault {
        MpsFault::Memory
    }
}
