//! What is wrong with a text that means no values.

use arc_num::Memory;
use std::fmt::Debug;
use thiserror::Error;

/// Why a text was not read: the first line at fault, from 1, with its first cause in this order, or want of memory.
#[derive(Clone, Copy, Debug, PartialEq, Eq, Error)]
pub enum SolutionFault {
    #[error("line {line}: wrong number of fields")]
    Fields { line: u64 },
    #[error("line {line}: no such column")]
    NoColumn { line: u64 },
    #[error("line {line}: bad value")]
    Value { line: u64 },
    #[error("line {line}: column given twice")]
    Twice { line: u64 },
    #[error("out of memory")]
    Memory,
}

impl From<Memory> for SolutionFault {
    ghost use Rattle.std.specs.Prelude.{◌≡◌};
    ghost use Rattle.solution_text.specs.declared.faults.SolutionFault.TheVariants as fault;

    ghost from_gives = { λ _ e. e ≡ fault.Memory };

    fn from(_e: Memory) -> SolutionFault {
        SolutionFault::Memory
    }
}
