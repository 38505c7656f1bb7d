//! Counts of calls and of faults, which stop at 2^64-1.
ghost use Rattle.std.specs.Prelude.{◌≡◌, ◌↔◌, IsTrue};
ghost use Rattle.arc_io.specs.Faults.{Rose, raised};
ghost use Rattle.arc_io.specs.Calls.{IsListed, new_calls, next_call};

use crate::IoFault;
use std::marker::Model;

/// One more, up to 2^64-1.
pub fn next_count(count: u64) -> u64
    ensures { result ≡ raised count }
{
    count.saturating_add(1)
}

/// Counts a fault of one kind, and gives it.
pub fn counted_fault(fault: IoFault, count: &mut u64) -> IoFault
    ensures fault { result ≡ fault }
    ensures counted { count.new ≡ raised count.old }
    ensures rose { Rose count.old count.new }
{
    *count = next_count(*count);
    fault
}

/// Counts calls from 1, and knows which of them are to fail.
#[derive(Debug, Drop)]
pub struct Calls {
    failing: Vec<u64>,
    made: u64,
}

impl Model for Calls {
    ghost use Rattle.arc_io.specs.Calls.{CallsValue};

    ghost Value = { CallsValue };

    ghost view = { λ c. record { failing = c.failing.items; made = c.made } };
}

impl Calls {
    pub fn new(failing: Vec<u64>) -> Self
        ensures { result ≡ new_calls failing.items }
    {
        Calls { failing, made: 0 }
    }

    /// How many calls were made, up to 2^64-1.
    pub fn made(&self) -> u64
        ensures { result ≡ self.now.made }
    {
        self.made
    }

    /// Counts a call, and tells whether it is to fail.
    pub fn count(&mut self) -> bool
        ensures listed { IsTrue result ↔ IsListed self.old }
        ensures after { self.new ≡ next_call self.old }
    {
        self.made = next_count(self.made);
        self.failing.as_slice().contains(&self.made)
    }
}
