//! A shelf in memory, of which chosen calls fail.
ghost use Rattle.std.specs.Prelude.{◌≡◌, ◌<◌};
ghost use Rattle.std.specs.Option.{option_copied};
ghost use Rattle.arc_io.specs.Entries.{entry_of};
ghost use Rattle.arc_io.specs.Stores.{new_mem_shelf};

use crate::calls::{Calls, counted_fault};
use crate::stores::Store;
use crate::{IoFault, NamedBytes, Shelf};
use std::alloc::Global;
use std::marker::Model;

/// A shelf in memory. Its calls are counted from 1, and those whose numbers are listed fail. All meanings are told.
#[derive(Debug, Drop)]
pub struct MemShelf {
    store: Store,
    calls: Calls,
    read_faults: u64,
    write_faults: u64,
}

impl Model for MemShelf {
    ghost use Rattle.arc_io.specs.Stores.{MemShelfValue};

    ghost Value = { MemShelfValue };

    ghost view = { λ s. record { store = s.store; calls = s.calls; read_faults = s.read_faults; write_faults = s.write_faults } };
}

impl MemShelf {
    /// A shelf that holds these bytes. Each read gives as many bytes as are left and fit.
    pub fn new(alloc: Global, files: Vec<NamedBytes>, failing: Vec<u64>) -> Self
        ensures { result ≡ new_mem_shelf files.items failing.items usize.MAX }
    {
        MemShelf::with_pieces(alloc, files, failing, usize::MAX)
    }

    /// The same shelf, of which a read gives at most `most` bytes.
    pub fn with_pieces(
        alloc: Global,
        files: Vec<NamedBytes>,
        failing: Vec<u64>,
        most: usize,
    ) -> Self
        requires { 0 < most }
        ensures { result ≡ new_mem_shelf files.items failing.items most }
    {
        MemShelf {
            store: Store::new(alloc, files, most),
            calls: Calls::new(failing),
            read_faults: 0,
            write_faults: 0,
        }
    }

    /// How many calls of `start` and `more` failed, up to 2^64-1.
    pub fn read_faults(&self) -> u64
        ensures { result ≡ self.now.read_faults }
    {
        self.read_faults
    }

    /// How many calls of `create`, `put` and `close` failed, up to 2^64-1.
    pub fn write_faults(&self) -> u64
        ensures { result ≡ self.now.write_faults }
    {
        self.write_faults
    }

    /// What was put under a name since it was last created; `None` where it was not created.
    pub fn written_of(&self, name: &str) -> Option<&[u8]>
        ensures { option_copied result ≡ entry_of self.now.store.written name.now }
    {
        self.store.written_of(name)
    }
}

impl Shelf for MemShelf {
    ghost use Rattle.std.specs.Prelude.{◌≡◌, ◌≢◌, ◌<◌, ◌⊎◌, true, Some, None, IfOk, [], length, take, min, refl};
    ghost use Rattle.arc_io.specs.Bytes.{Appends};
    ghost use Rattle.arc_io.specs.Calls.{IsListed, next_call};
    ghost use Rattle.arc_io.specs.Faults.{CountsFault, FailsWhere, counted};
    ghost use Rattle.arc_io.specs.Stores.{after_start, after_more, after_create, after_put, after_close};
    ghost use Rattle.arc_io.specs.Entries.{entry_of, bytes_of, first_name};

    ghost held = { λ s name. Some (bytes_of s.store.held name) };

    ghost left = { λ s. Some s.store.left };

    ghost written = { λ s name. Some (bytes_of s.store.written name) };

    ghost created = { λ s. Some (first_name s.store.written) };

    ghost asked = { λ s. Some s.store.asked };

    ghost writing = { λ s. s.store.writing };

    ghost read_faults = { λ s. s.read_faults };

    ghost write_faults = { λ s. s.write_faults };

    ghost created_told = { λ s name told. refl };

    /// Fails where its number is listed, and where the name is not held.
    fn start(&mut self, name: &str) -> Result<(), IoFault>
        ensures fails { FailsWhere result (IsListed self.old.calls ⊎ (entry_of self.old.store.held name.now ≡ None)) }
        ensures store { self.new.store ≡ after_start result name.now self.old.store }
        ensures calls { self.new.calls ≡ next_call self.old.calls }
        ensures reads { CountsFault result self.old.read_faults self.new.read_faults }
        ensures counted { self.new.read_faults ≡ counted result self.old.read_faults }
        ensures writes { self.new.write_faults ≡ self.old.write_faults }
    {
        let is_listed = self.calls.count();
        let Ok(is_held) = self.store.start(name) else {
            return Err(IoFault::Memory);
        };
        if is_listed || !is_held {
            self.store.end_reading();
            return Err(counted_fault(IoFault::Failed, &mut self.read_faults));
        }
        Ok(())
    }

    /// Fails exactly where its number is listed, and gives as many bytes as are left and fit, up to the shelf's most.
    fn more(&mut self, into: &mut [u8]) -> Result<usize, IoFault>
        requires { 0 < length into.old }
        ensures fails { FailsWhere result (IsListed self.old.calls) }
        ensures never_memory { result ≢ Err IoFault.Memory }
        ensures count { IfOk result (λ n. n ≡ min (min self.old.store.most (length self.old.store.left)) (length into.old)) }
        ensures bytes { IfOk result (λ n. take n into.new ≡ take n self.old.store.left) }
        ensures end { IfOk result (λ n. n ≡ 0 → self.old.store.left ≡ []) }
        ensures store { self.new.store ≡ after_more result self.old.store }
        ensures calls { self.new.calls ≡ next_call self.old.calls }
        ensures reads { CountsFault result self.old.read_faults self.new.read_faults }
        ensures counted { self.new.read_faults ≡ counted result self.old.read_faults }
        ensures writes { self.new.write_faults ≡ self.old.write_faults }
    {
        if self.calls.count() {
            return Err(counted_fault(IoFault::Failed, &mut self.read_faults));
        }
        Ok(self.store.more(into))
    }

    /// Fails exactly where its number is listed.
    fn create(&mut self, name: &str) -> Result<(), IoFault>
        ensures fails { FailsWhere result (IsListed self.old.calls) }
        ensures store { self.new.store ≡ after_create result name.now self.old.store }
        ensures calls { self.new.calls ≡ next_call self.old.calls }
        ensures reads { self.new.read_faults ≡ self.old.read_faults }
        ensures writes { CountsFault result self.old.write_faults self.new.write_faults }
        ensures counted { self.new.write_faults ≡ counted result self.old.write_faults }
    {
        let is_listed = self.calls.count();
        if is_listed {
            self.store.close();
            if self.store.ask(name).is_err() {
                return Err(IoFault::Memory);
            }
            return Err(counted_fault(IoFault::Failed, &mut self.write_faults));
        }
        match self.store.create(name) {
            Ok(()) => Ok(()),
            Err(_) => Err(IoFault::Memory),
        }
    }

    /// Fails exactly where its number is listed. Appends all of the bytes, or none.
    fn put(&mut self, bytes: &[u8]) -> Result<(), IoFault>
        requires { self.old.store.writing ≡ true }
        ensures fails { FailsWhere result (IsListed self.old.calls) }
        ensures store { self.new.store ≡ after_put result bytes.now self.old.store }
        ensures appends { let name = first_name self.old.store.written in Appends result bytes.now (Some (bytes_of self.old.store.written name)) (Some (bytes_of self.new.store.written name)) }
        ensures calls { self.new.calls ≡ next_call self.old.calls }
        ensures reads { self.new.read_faults ≡ self.old.read_faults }
        ensures writes { CountsFault result self.old.write_faults self.new.write_faults }
        ensures counted { self.new.write_faults ≡ counted result self.old.write_faults }
    {
        if self.calls.count() {
            return Err(counted_fault(IoFault::Failed, &mut self.write_faults));
        }
        match self.store.put(bytes) {
            Ok(()) => Ok(()),
            Err(_) => Err(IoFault::Memory),
        }
    }

    /// Fails exactly where its number is listed.
    fn close(&mut self) -> Result<(), IoFault>
        requires { self.old.store.writing ≡ true }
        ensures fails { FailsWhere result (IsListed self.old.calls) }
        ensures never_memory { result ≢ Err IoFault.Memory }
        ensures store { self.new.store ≡ after_close self.old.store }
        ensures calls { self.new.calls ≡ next_call self.old.calls }
        ensures reads { self.new.read_faults ≡ self.old.read_faults }
        ensures writes { CountsFault result self.old.write_faults self.new.write_faults }
        ensures counted { self.new.write_faults ≡ counted result self.old.write_faults }
    {
        self.store.close();
        if self.calls.count() {
            return Err(counted_fault(IoFault::Failed, &mut self.write_faults));
        }
        Ok(())
    }
}
