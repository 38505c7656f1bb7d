//! The real streams. Nothing is told of their bytes.
ghost use Rattle.std.specs.Prelude.{◌≡◌, MatchResult};
ghost use Rattle.arc_io.specs.Faults.{CountsCall, CountsFault, CountsMemory};
ghost use Rattle.arc_io.specs.inner.System.{fault_of_kind};
ghost use Rattle.std.specs.IoError.{error_kind};

use crate::calls::next_count;
use crate::system::count_fault;
use crate::{IoFault, Sink};
use std::alloc::Global;
use std::io;
use std::io::{Print, Write};

/// The counts of a stream.
#[derive(Drop)]
struct StreamCounts {
    puts: u64,
    faults: u64,
    starved: u64,
}

impl StreamCounts {
    fn new() -> Self
        ensures puts { result.puts ≡ 0 }
        ensures faults { result.faults ≡ 0 }
        ensures starved { result.starved ≡ 0 }
    {
        StreamCounts {
            puts: 0,
            faults: 0,
            starved: 0,
        }
    }

    /// Counts a put by what came of it, and turns an error into a fault.
    fn count(&mut self, outcome: io::Result<()>) -> Result<(), IoFault>
        ensures puts { CountsCall self.old.puts self.new.puts }
        ensures faults { CountsFault result self.old.faults self.new.faults }
        ensures starved { CountsMemory result self.old.starved self.new.starved }
        ensures value { MatchResult outcome (λ value. result ≡ Ok value) (λ error. result ≡ Err (fault_of_kind (error_kind error))) }
    {
        self.puts = next_count(self.puts);
        let answer = count_fault(outcome, &mut self.faults);
        if answer == Err(IoFault::Memory) {
            self.starved = next_count(self.starved);
        }
        answer
    }
}

/// Standard output. A put is with the system when it answers.
#[derive(Drop)]
pub struct OutSink {
    rt: HostRuntime,
    counts: StreamCounts,
}

impl OutSink {
    pub fn new(rt: &HostRuntime, _alloc: Global) -> Self
        ensures puts { ⟦<OutSink as Sink>⟧.puts result ≡ 0 }
        ensures faults { ⟦<OutSink as Sink>⟧.faults result ≡ 0 }
        ensures starved { ⟦<OutSink as Sink>⟧.starved result ≡ 0 }
    {
        OutSink {
            rt: *rt,
            counts: StreamCounts::new(),
        }
    }
}

impl Sink for OutSink {
    ghost use Rattle.std.specs.Prelude.{None};

    ghost taken = { λ s. None };

    ghost puts = { λ s. s.counts.puts };

    ghost faults = { λ s. s.counts.faults };

    ghost starved = { λ s. s.counts.starved };

    fn put(&mut self, bytes: &[u8]) -> Result<(), IoFault> {
        self.counts.count(self.rt.stdout().write_all(bytes))
    }
}

/// Standard error. A put is with the system when it answers.
#[derive(Drop)]
pub struct ErrSink {
    rt: HostRuntime,
    counts: StreamCounts,
}

impl ErrSink {
    pub fn new(rt: &HostRuntime, _alloc: Global) -> Self
        ensures puts { ⟦<ErrSink as Sink>⟧.puts result ≡ 0 }
        ensures faults { ⟦<ErrSink as Sink>⟧.faults result ≡ 0 }
        ensures starved { ⟦<ErrSink as Sink>⟧.starved result ≡ 0 }
    {
        ErrSink {
            rt: *rt,
            counts: StreamCounts::new(),
        }
    }
}

impl Sink for ErrSink {
    ghost use Rattle.std.specs.Prelude.{None};

    ghost taken = { λ s. None };

    ghost puts = { λ s. s.counts.puts };

    ghost faults = { λ s. s.counts.faults };

    ghost starved = { λ s. s.counts.starved };

    fn put(&mut self, bytes: &[u8]) -> Result<(), IoFault> {
        self.counts.count(self.rt.stderr().write_all(bytes))
    }
}

#[cfg(test)]
mod tests {
    use super::*;
    use std::test::Fail;

    #[test]
    fn out_sink_takes(rt: HostRuntime) -> Result<(), Fail> {
        let mut sink = OutSink::new(&rt, rt.alloc());
        sink.put(b"to standard output\n")?;
        assert_eq!(rt; sink.counts.puts, 1);
        assert_eq!(rt; sink.counts.faults, 0);
        Ok(())
    }

    #[test]
    fn err_sink_takes(rt: HostRuntime) -> Result<(), Fail> {
        let mut sink = ErrSink::new(&rt, rt.alloc());
        sink.put(b"to standard error\n")?;
        assert_eq!(rt; sink.counts.puts, 1);
        assert_eq!(rt; sink.counts.faults, 0);
        Ok(())
    }
}
