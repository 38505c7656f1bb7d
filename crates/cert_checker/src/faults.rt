use arc_num::Memory;
use cert_laws::Cause;
use thiserror::Error;

/// Why a certificate is not accepted: its first line that is refused, by its number from 1, and the first rule that this line
/// breaks.
#[derive(Clone, Copy, Debug, PartialEq, Eq, Error)]
pub enum CheckFault {
    /// No line that may stand at its place.
    #[error("line {line}: bad text")]
    Text { line: u64 },
    /// It stands behind the end, or is a place of the tree where no box is open.
    #[error("line {line}: past the end")]
    Extra { line: u64 },
    /// The end while boxes are open; or the lines stop before the end, and the number is that of the line that is not there.
    #[error("line {line}: places left")]
    Unfinished { line: u64 },
    /// A priced item does not exist.
    #[error("line {line}: no such item")]
    NoItem { line: u64 },
    /// An arc does not exist.
    #[error("line {line}: no such arc")]
    NoArc { line: u64 },
    /// The split leaves no number of the arc's range on one side.
    #[error("line {line}: not a split")]
    NotSplit { line: u64 },
    /// The need is no flow in fractions that costs less than the goal.
    #[error("line {line}: not needed")]
    NotNeeded { line: u64 },
    /// There is no such step.
    #[error("line {line}: not a step")]
    NotStep { line: u64 },
    /// The gain of a type, by its number from 1, is above its cost.
    #[error("line {line}: type {t} gains too much")]
    Gain { line: u64, t: u32 },
    /// The box is not closed.
    #[error("line {line}: does not close")]
    Weak { line: u64 },
    /// Want of memory.
    #[error("out of memory")]
    Memory,
}

impl From<Memory> for CheckFault {
    ghost use Rattle.std.specs.Prelude.{◌≡◌};
    ghost use Rattle.cert_checker.specs.declared.faults.CheckFault.TheVariants as fault;

    ghost from_gives = { λ _ f. f ≡ fault.Memory };

    fn from(_memory: Memory) -> CheckFault {
        CheckFault::Memory
    }
}
