//! A shelf in memory that never fails.
ghost use Rattle.std.specs.Prelude.{◌≡◌};
ghost use Rattle.std.specs.Option.{option_copied};
ghost use Rattle.arc_io.specs.Entries.{entry_of};
ghost use Rattle.arc_io.specs.Stores.{new_store};

use crate::stores::Store;
use crate::{IoFault, NamedBytes, Shelf};
use std::alloc::Global;
use std::marker::Model;

/// A shelf in memory that never fails. A name that is not held reads as empty. All meanings are told.
#[derive(Debug, Drop)]
pub struct SureShelf {
    store: Store,
}

impl Model for SureShelf {
    ghost use Rattle.arc_io.specs.Stores.{StoreValue};

    ghost Value = { StoreValue };

    ghost view = { λ s. s.store };
}

impl SureShelf {
    pub fn new(alloc: Global, files: Vec<NamedBytes>) -> Self
        ensures { result ≡ new_store files.items usize.MAX }
    {
        SureShelf {
            store: Store::new(alloc, files, usize::MAX),
        }
    }

    /// Always 0.
    pub fn read_faults(&self) -> u64
        ensures { result ≡ 0 }
    {
        0
    }

    /// Always 0.
    pub fn write_faults(&self) -> u64
        ensures { result ≡ 0 }
    {
        0
    }

    /// What was put under a name since it was last created; `None` where it was not created.
    pub fn written_of(&self, name: &str) -> Option<&[u8]>
        ensures { option_copied result ≡ entry_of self.now.written name.now }
    {
        self.store.written_of(name)
    }
}

impl Shelf for SureShelf {
    ghost use Rattle.std.specs.Prelude.{◌≡◌, ◌<◌, true, Some, IfOk, IsOk, [], length, take, min, refl};
    ghost use Rattle.arc_io.specs.Bytes.{Appends};
    ghost use Rattle.arc_io.specs.Entries.{bytes_of, first_name};
    ghost use Rattle.arc_io.specs.Faults.{NeverFails};
    ghost use Rattle.arc_io.specs.Stores.{after_start, after_more, after_create, after_put, after_close};

    ghost held = { λ s name. Some (bytes_of s.held name) };

    ghost left = { λ s. Some s.left };

    ghost written = { λ s name. Some (bytes_of s.written name) };

    ghost created = { λ s. Some (first_name s.written) };

    ghost asked = { λ s. Some s.asked };

    ghost writing = { λ s. s.writing };

    ghost read_faults = { λ s. 0 };

    ghost write_faults = { λ s. 0 };

    ghost created_told = { λ s name told. refl };

    /// Never fails.
    fn start(&mut self, name: &str) -> Result<(), IoFault>
        ensures sure { NeverFails result }
        ensures store { self.new ≡ after_start result name.now self.old }
    {
        match self.store.start(name) {
            Ok(_) => Ok(()),
            Err(_) => Err(IoFault::Memory),
        }
    }

    /// Always answers a number, and gives as many bytes as are left and fit.
    fn more(&mut self, into: &mut [u8]) -> Result<usize, IoFault>
        requires { 0 < length into.old }
        ensures sure { IsOk result }
        ensures count { IfOk result (λ n. n ≡ min (min self.old.most (length self.old.left)) (length into.old)) }
        ensures bytes { IfOk result (λ n. take n into.new ≡ take n self.old.left) }
        ensures end { IfOk result (λ n. n ≡ 0 → self.old.left ≡ []) }
        ensures store { self.new ≡ after_more result self.old }
    {
        Ok(self.store.more(into))
    }

    /// Never fails.
    fn create(&mut self, name: &str) -> Result<(), IoFault>
        ensures sure { NeverFails result }
        ensures store { self.new ≡ after_create result name.now self.old }
    {
        match self.store.create(name) {
            Ok(()) => Ok(()),
            Err(_) => Err(IoFault::Memory),
        }
    }

    /// Never fails. Appends all of the bytes, or none.
    fn put(&mut self, bytes: &[u8]) -> Result<(), IoFault>
        requires { self.old.writing ≡ true }
        ensures sure { NeverFails result }
        ensures store { self.new ≡ after_put result bytes.now self.old }
        ensures appends { let name = first_name self.old.written in Appends result bytes.now (Some (bytes_of self.old.written name)) (Some (bytes_of self.new.written name)) }
    {
        match self.store.put(bytes) {
            Ok(()) => Ok(()),
            Err(_) => Err(IoFault::Memory),
        }
    }

    /// Always answers Ok.
    fn close(&mut self) -> Result<(), IoFault>
        requires { self.old.writing ≡ true }
        ensures sure { IsOk result }
        ensures store { self.new ≡ after_close self.old }
    {
        self.store.close();
        Ok(())
    }
}
