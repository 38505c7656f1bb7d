//! Why a line was not read.

use arc_num::Memory;

/// Why a line was not read.
#[derive(Clone, Copy, Debug, PartialEq, Eq)]
pub(crate) enum LineFault {
    /// It is no spelling for its place and version.
    Bad,
    Memory,
}

impl From<Memory> for LineFault {
    ghost use Rattle.std.specs.Prelude.{◌≡◌};
    ghost use Rattle.cert_text.specs.declared.faults.LineFault.TheVariants as fault;

    ghost from_gives = { λ _ e. e ≡ fault.Memory };

    fn from(_e: Memory) -> LineFault {
        LineFault::Memory
    }
}
