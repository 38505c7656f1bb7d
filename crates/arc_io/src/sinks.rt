//! Two sinks in memory: one of which chosen calls fail, and one that never fails.
ghost use Rattle.std.specs.Prelude.{◌≡◌, OnOk, OnErr, ◌++◌};
ghost use Rattle.arc_io.specs.Faults.{CountsMemory, NeverFails};
ghost use Rattle.arc_io.specs.Stores.{new_mem_sink, new_sure_sink};

use crate::calls::{Calls, counted_fault, next_count};
use crate::{IoFault, Sink};
use std::alloc::Global;
use std::marker::Model;

/// Appends all of the bytes, or counts a want of memory.
fn append(taken: &mut Vec<u8>, bytes: &[u8], starved: &mut u64) -> Result<(), IoFault>
    ensures sure { NeverFails result }
    ensures ok { OnOk result (taken.new.items ≡ taken.old.items ++ bytes.now) }
    ensures err { OnErr result (taken.new.items ≡ taken.old.items) }
    ensures starved { CountsMemory result starved.old starved.new }
{
    match taken.extend_from_slice(bytes) {
        Ok(()) => Ok(()),
        Err(_) => Err(counted_fault(IoFault::Memory, starved)),
    }
}

/// A sink in memory. Its calls are counted from 1, and those whose numbers are listed fail.
#[derive(Debug, Drop)]
pub struct MemSink {
    taken: Vec<u8>,
    calls: Calls,
    faults: u64,
    starved: u64,
}

impl Model for MemSink {
    ghost use Rattle.arc_io.specs.Stores.{MemSinkValue};

    ghost Value = { MemSinkValue };

    ghost view = { λ s. record { taken = s.taken.items; calls = s.calls; faults = s.faults; starved = s.starved } };
}

impl MemSink {
    pub fn new(alloc: Global, failing: Vec<u64>) -> Self
        ensures { result ≡ new_mem_sink failing.items }
    {
        MemSink {
            taken: Vec::new(alloc),
            calls: Calls::new(failing),
            faults: 0,
            starved: 0,
        }
    }

    /// How many puts there were, up to 2^64-1.
    pub fn puts(&self) -> u64
        ensures { result ≡ self.now.calls.made }
    {
        self.calls.made()
    }

    /// How many puts failed, up to 2^64-1.
    pub fn faults(&self) -> u64
        ensures { result ≡ self.now.faults }
    {
        self.faults
    }

    /// How many puts found no memory, up to 2^64-1.
    pub fn starved(&self) -> u64
        ensures { result ≡ self.now.starved }
    {
        self.starved
    }

    /// All that was put.
    pub fn bytes(&self) -> &[u8]
        ensures { result.now ≡ self.now.taken }
    {
        self.taken.as_slice()
    }
}

impl Sink for MemSink {
    ghost use Rattle.std.specs.Prelude.{◌≡◌, Some, OnOk, OnErr, ◌++◌};
    ghost use Rattle.arc_io.specs.Calls.{IsListed, next_call};
    ghost use Rattle.arc_io.specs.Faults.{CountsFault, CountsMemory, FailsWhere, counted};

    ghost taken = { λ s. Some s.taken };

    ghost puts = { λ s. s.calls.made };

    ghost faults = { λ s. s.faults };

    ghost starved = { λ s. s.starved };

    /// Fails exactly where its number is listed. Appends all of the bytes, or none.
    fn put(&mut self, bytes: &[u8]) -> Result<(), IoFault>
        ensures fails { FailsWhere result (IsListed self.old.calls) }
        ensures ok { OnOk result (self.new.taken ≡ self.old.taken ++ bytes.now) }
        ensures err { OnErr result (self.new.taken ≡ self.old.taken) }
        ensures calls { self.new.calls ≡ next_call self.old.calls }
        ensures faults { CountsFault result self.old.faults self.new.faults }
        ensures counted { self.new.faults ≡ counted result self.old.faults }
        ensures starved { CountsMemory result self.old.starved self.new.starved }
    {
        if self.calls.count() {
            return Err(counted_fault(IoFault::Failed, &mut self.faults));
        }
        append(&mut self.taken, bytes, &mut self.starved)
    }
}

/// A sink in memory that never fails.
#[derive(Debug, Drop)]
pub struct SureSink {
    taken: Vec<u8>,
    puts: u64,
    starved: u64,
}

impl Model for SureSink {
    ghost use Rattle.arc_io.specs.Stores.{SureSinkValue};

    ghost Value = { SureSinkValue };

    ghost view = { λ s. record { taken = s.taken.items; puts = s.puts; starved = s.starved } };
}

impl SureSink {
    pub fn new(alloc: Global) -> Self
        ensures { result ≡ new_sure_sink }
    {
        SureSink {
            taken: Vec::new(alloc),
            puts: 0,
            starved: 0,
        }
    }

    /// How many puts there were, up to 2^64-1.
    pub fn puts(&self) -> u64
        ensures { result ≡ self.now.puts }
    {
        self.puts
    }

    /// Always 0.
    pub fn faults(&self) -> u64
        ensures { result ≡ 0 }
    {
        0
    }

    /// How many puts found no memory, up to 2^64-1.
    pub fn starved(&self) -> u64
        ensures { result ≡ self.now.starved }
    {
        self.starved
    }

    /// All that was put.
    pub fn bytes(&self) -> &[u8]
        ensures { result.now ≡ self.now.taken }
    {
        self.taken.as_slice()
    }
}

impl Sink for SureSink {
    ghost use Rattle.std.specs.Prelude.{◌≡◌, Some, OnOk, OnErr, ◌++◌};
    ghost use Rattle.arc_io.specs.Faults.{CountsCall, CountsMemory, NeverFails};

    ghost taken = { λ s. Some s.taken };

    ghost puts = { λ s. s.puts };

    ghost faults = { λ s. 0 };

    ghost starved = { λ s. s.starved };

    /// Never fails. Appends all of the bytes, or none.
    fn put(&mut self, bytes: &[u8]) -> Result<(), IoFault>
        ensures sure { NeverFails result }
        ensures ok { OnOk result (self.new.taken ≡ self.old.taken ++ bytes.now) }
        ensures err { OnErr result (self.new.taken ≡ self.old.taken) }
        ensures puts { CountsCall self.old.puts self.new.puts }
        ensures starved { CountsMemory result self.old.starved self.new.starved }
    {
        self.puts = next_count(self.puts);
        append(&mut self.taken, bytes, &mut self.starved)
    }
}
