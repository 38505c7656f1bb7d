//! The outside as two traits: a shelf of named bytes, and a sink for bytes. Beside the real ones stand some in
//! memory, of which one kind fails at chosen calls and the other never.
#![tactic(auto)]

mod calls;
mod memory;
mod sinks;
mod stores;
mod streams;
mod sure;
mod system;
#[cfg(test)]
mod tests;

pub use memory::MemShelf;
pub use sinks::{MemSink, SureSink};
use std::marker::Model;
pub use streams::{ErrSink, OutSink};
pub use sure::SureShelf;
pub use system::FileShelf;
use thiserror::Error;

/// Why a call of the outside was refused.
#[derive(Clone, Copy, Debug, PartialEq, Eq, Error)]
pub enum IoFault {
    /// The outside failed. A count of faults rose.
    #[error("input or output failed")]
    Failed,
    /// No memory was left.
    #[error("out of memory")]
    Memory,
}

/// A name and the bytes under it.
#[derive(Debug, Drop)]
pub struct NamedBytes {
    pub name: String,
    pub bytes: Vec<u8>,
}

impl Model for NamedBytes {
    ghost use Rattle.std.specs.Prelude.{string_bytes};
    ghost use Rattle.arc_io.specs.Entries.{Entry};

    ghost Value = { Entry };

    ghost view = { λ e. record { name = string_bytes e.name; bytes = e.bytes.items } };
}

/// Gives the bytes of names, and takes bytes under names.
pub trait Shelf {
    ghost use Rattle.std.specs.Prelude.{◌≡◌, ◌≢◌, ◌<◌, ◌≤◌, ℕ, Bool, true, false, List, [], Some, OnOk, OnErr, IfOk, IfSome, IsSome, length};
    ghost use Rattle.arc_io.specs.Faults.{CountsFault};
    ghost use Rattle.arc_io.specs.Bytes.{Told, Files, Appends, Takes, Starts, Asks};

    /// The bytes of a name. No call changes them.
    ghost held: { Self → Files };

    /// What the started name has still to give.
    ghost left: { Self → Told };

    /// What was put under a name since it was created.
    ghost written: { Self → Files };

    /// The name of the last create that answered Ok; the empty name before.
    ghost created: { Self → Told };

    /// The name of the last start or create, but for those that found no memory; the empty name before.
    ghost asked: { Self → Told };

    /// Whether a name is created and not closed.
    ghost writing: { Self → Bool };

    /// How many reads failed.
    ghost read_faults: { Self → ℕ };

    /// How many writes failed.
    ghost write_faults: { Self → ℕ };

    /// Begins to read a name, from its first byte.
    fn start(&mut self, name: &str) -> Result<(), IoFault>
        ensures reads { CountsFault result (read_faults self.old) (read_faults self.new) }
        ensures writes { write_faults self.new ≡ write_faults self.old }
        ensures held { held self.new ≡ held self.old }
        ensures left { Starts result (held self.old name.now) (left self.old) (left self.new) }
        ensures asked { Asks result name.now (asked self.old) (asked self.new) }
        ensures written { written self.new ≡ written self.old }
        ensures created { created self.new ≡ created self.old }
        ensures writing { writing self.new ≡ writing self.old };

    /// Reads more of the started name into the front of the buffer, and answers how many bytes. 0 is the end.
    fn more(&mut self, into: &mut [u8]) -> Result<usize, IoFault>
        requires { 0 < length into.old }
        ensures count { IfOk result (λ n. n ≤ length into.new) }
        ensures left { Takes result into.new (left self.old) (left self.new) }
        ensures reads { CountsFault result (read_faults self.old) (read_faults self.new) }
        ensures writes { write_faults self.new ≡ write_faults self.old }
        ensures held { held self.new ≡ held self.old }
        ensures asked { asked self.new ≡ asked self.old }
        ensures written { written self.new ≡ written self.old }
        ensures created { created self.new ≡ created self.old }
        ensures writing { writing self.new ≡ writing self.old };

    /// Begins to write a name, with no bytes.
    fn create(&mut self, name: &str) -> Result<(), IoFault>
        ensures writes { CountsFault result (write_faults self.old) (write_faults self.new) }
        ensures reads { read_faults self.new ≡ read_faults self.old }
        ensures held { held self.new ≡ held self.old }
        ensures left { left self.new ≡ left self.old }
        ensures asked { Asks result name.now (asked self.old) (asked self.new) }
        ensures empty { OnOk result (IfSome (written self.old name.now) (λ _. written self.new name.now ≡ Some [])) }
        ensures others { OnOk result ((other : List ℕ) → other ≢ name.now → written self.new other ≡ written self.old other) }
        ensures created { OnOk result (IfSome (created self.old) (λ _. created self.new ≡ Some name.now)) }
        ensures writing { OnOk result (writing self.new ≡ true) }
        ensures refused { OnErr result (writing self.new ≡ false) }
        ensures same { OnErr result (written self.new ≡ written self.old) }
        ensures same_created { OnErr result (created self.new ≡ created self.old) };

    /// Writes bytes to the end of the created name.
    fn put(&mut self, bytes: &[u8]) -> Result<(), IoFault>
        requires { writing self.old ≡ true }
        ensures writes { CountsFault result (write_faults self.old) (write_faults self.new) }
        ensures reads { read_faults self.new ≡ read_faults self.old }
        ensures held { held self.new ≡ held self.old }
        ensures left { left self.new ≡ left self.old }
        ensures asked { asked self.new ≡ asked self.old }
        ensures appends { IfSome (created self.old) (λ name. Appends result bytes.now (written self.old name) (written self.new name)) }
        ensures others { (other : List ℕ) → created self.old ≢ Some other → written self.new other ≡ written self.old other }
        ensures created { created self.new ≡ created self.old }
        ensures writing { writing self.new ≡ true };

    /// Ends the writing.
    fn close(&mut self) -> Result<(), IoFault>
        requires { writing self.old ≡ true }
        ensures writes { CountsFault result (write_faults self.old) (write_faults self.new) }
        ensures reads { read_faults self.new ≡ read_faults self.old }
        ensures held { held self.new ≡ held self.old }
        ensures left { left self.new ≡ left self.old }
        ensures asked { asked self.new ≡ asked self.old }
        ensures written { written self.new ≡ written self.old }
        ensures created { created self.new ≡ created self.old }
        ensures writing { writing self.new ≡ false };

    /// Where what was written is told, the created name is told too.
    ghost created_told: { (s : Self) (name : List ℕ) → IsSome (written s name) → IsSome (created s) };
}

/// Takes bytes, one after another.
pub trait Sink {
    ghost use Rattle.std.specs.Prelude.{ℕ};
    ghost use Rattle.arc_io.specs.Faults.{CountsCall, CountsFault, CountsMemory};
    ghost use Rattle.arc_io.specs.Bytes.{Told, Appends};

    /// All that was put.
    ghost taken: { Self → Told };

    /// How many puts there were, up to 2^64-1.
    ghost puts: { Self → ℕ };

    /// How many puts failed.
    ghost faults: { Self → ℕ };

    /// How many puts found no memory, up to 2^64-1.
    ghost starved: { Self → ℕ };

    /// Writes bytes to the end.
    fn put(&mut self, bytes: &[u8]) -> Result<(), IoFault>
        ensures puts { CountsCall (puts self.old) (puts self.new) }
        ensures starved { CountsMemory result (starved self.old) (starved self.new) }
        ensures faults { CountsFault result (faults self.old) (faults self.new) }
        ensures appends { Appends result bytes.now (taken self.old) (taken self.new) };
}
