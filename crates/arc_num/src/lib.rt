//! Limits, tokens, numbers, and what every crate writes lists and texts with.
#![tactic(auto)]

use std::alloc::{AllocError, AllocFailed};
use thiserror::Error;

mod decimals;
mod gates;
mod listed;
mod words;

pub use decimals::{decimals_read_back, is_digits, number, push_bytes, push_number, push_signed};
pub use gates::{Gate, NoGate};
pub use listed::Listed;
pub use words::{Token, Tokens, tokens_are_the_longest_runs};

/// Dimensions of an instance, at most; at least 1. Dimensions and caps together are at most as many.
pub const MAX_DIMS: u32 = 32;
/// Types of an instance, at most; at least 1.
pub const MAX_TYPES: u32 = 64;
/// Items of an instance, at most.
pub const MAX_ITEMS: u32 = 1_000;
/// Forms of an item, at most; at least 1.
pub const MAX_FORMS: u32 = 64;
/// Forms of all items together, at most.
pub const MAX_ALL_FORMS: u32 = 8_000;
/// A weight, a capacity, a cost or the limit of a type, at most.
pub const MAX_VALUE: u32 = 2_147_483_647;
/// The demand of an item, at most.
pub const MAX_DEMAND: u32 = 1_000_000;
/// The cap of an item, at most; at least 1.
pub const MAX_CAP: u32 = 1_000_000;
/// The units of all items together, at most: `MAX_ITEMS` times `MAX_DEMAND`.
pub const MAX_UNITS: u32 = 1_000_000_000;
/// A number of an exported model, at most in size, and the bound that a certificate claims: 2^62.
pub const MAX_PRICE: u64 = 4_611_686_018_427_387_904;
/// Arcs of the main graphs of all types together, at most.
pub const MAX_ARCS: u32 = 1_000_000;
/// Numbered arcs of all types together, at most, bin arcs included: `MAX_ARCS` and `MAX_TYPES` together.
pub const MAX_NUMBERED: u32 = 1_000_064;
/// Splits that a search may be granted, at most.
pub const MAX_SPLITS: u32 = 20_000;
/// Bytes of an instance's text, at most.
pub const MAX_INSTANCE: usize = 67_108_864;
/// Bytes of a certificate's text, at most.
pub const MAX_CERT: u64 = 1_099_511_627_776;
/// Bytes of a certificate's line, at most, its line feed aside.
pub const MAX_LINE: usize = 33_554_432;
/// Lines of a certificate that are checked side by side, at most.
pub const MAX_BATCH: usize = 256;
/// Threads that work at once, at most; at least 1.
pub const MAX_WORKERS: u32 = 64;

/// The answer for want of memory.
#[derive(Clone, Copy, Debug, PartialEq, Eq, Error)]
#[error("out of memory")]
pub struct Memory;

impl From<AllocError> for Memory {
    ghost use Rattle.std.specs.Prelude.{◌≡◌};
    ghost use Rattle.arc_num.specs.declared.Memory.{Memory};

    ghost from_gives = { λ _ e. e ≡ record {} };

    fn from(_e: AllocError) -> Memory {
        Memory
    }
}

impl<T: Drop> From<AllocFailed<T>> for Memory {
    ghost use Rattle.std.specs.Prelude.{◌≡◌};
    ghost use Rattle.arc_num.specs.declared.Memory.{Memory};

    ghost from_gives = { λ _ e. e ≡ record {} };

    fn from(_e: AllocFailed<T>) -> Memory {
        Memory
    }
}

#[cfg(test)]
mod tests;
