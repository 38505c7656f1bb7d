//! Named bytes in memory, which are read piece by piece and written.
ghost use Rattle.std.specs.Prelude.{◌≡◌, ◌<◌, ◌↔◌, true, false, [], ◌∷◌, ◌++◌, IsTrue, IsSome, OnOk, OnErr, IfOk, IfSome, IfNone, length, take, drop, min};
ghost use Rattle.std.specs.Option.{option_copied};
ghost use Rattle.arc_io.specs.Entries.{entry_of, bytes_of, first_name, appended};
ghost use Rattle.arc_io.specs.inner.Readers.{bytes_at};
ghost use Rattle.arc_io.specs.Stores.{new_store};

use crate::NamedBytes;
use std::alloc::{AllocError, Global};
use std::marker::Model;

/// The place of the first entry of a name.
pub fn place_of(entries: &[NamedBytes], name: &str) -> Option<usize>
    ensures found { IfSome result (λ i. entry_of entries.now name.now ≡ Some (bytes_at entries.now i)) }
    ensures within { IfSome result (λ i. i < length entries.now) }
    ensures none { IfNone result (entry_of entries.now name.now ≡ None) }
{
    'entries: for (i, entry) in entries.iter().enumerate() {
        if entry.name.as_str() == name {
            return Some(i);
        }
    }
    None
}

/// The bytes of the entry at a place.
pub fn bytes_in(entries: &[NamedBytes], place: usize) -> &[u8]
    requires { place < length entries.now }
    ensures { result.now ≡ bytes_at entries.now place }
{
    let entry = &entries[place];
    entry.bytes.as_slice()
}

/// Copies as many bytes to the front of the buffer as it has room for, and answers how many.
pub fn copy_front(from: &[u8], into: &mut [u8]) -> usize
    ensures count { result ≡ min (length from.now) (length into.old) }
    ensures bytes { take result into.new ≡ take result from.now }
{
    let count = from.len().min(into.len());
    into[..count].copy_from_slice(&from[..count]);
    count
}

/// Entries that are held, one of which is read, and entries that are written.
#[derive(Debug, Drop)]
pub struct Store {
    alloc: Global,
    held: Vec<NamedBytes>,
    reading: Option<usize>,
    given: usize,
    most: usize,
    written: Vec<NamedBytes>,
    writing: bool,
    asked: String,
}

impl Model for Store {
    ghost use Rattle.std.specs.Prelude.{◌≡◌, ◌<◌, ◌≤◌, true, length, string_bytes};
    ghost use Rattle.arc_io.specs.inner.Readers.{left_at, IsReader};
    ghost use Rattle.arc_io.specs.Stores.{StoreValue};

    ghost Value = { StoreValue };

    ghost view = { λ s. record { held = s.held.items; left = left_at s.held.items s.reading s.given; most = s.most; written = s.written.items; writing = s.writing; asked = string_bytes s.asked } };

    ghost invariant = { λ s. record { at : IsReader s.held.items s.reading s.given; some : 0 < s.most; begun : s.writing ≡ true → 0 < length s.written.items } };
}

impl Store {
    pub fn new(alloc: Global, held: Vec<NamedBytes>, most: usize) -> Self
        requires { 0 < most }
        ensures { result ≡ new_store held.items most }
    {
        Store {
            alloc,
            held,
            reading: None,
            given: 0,
            most,
            written: Vec::new(alloc),
            writing: false,
            asked: String::new(alloc),
        }
    }

    /// Keeps the name as the one asked for last.
    pub fn ask(&mut self, name: &str) -> Result<(), AllocError>
        ensures ok { OnOk result (self.new ≡ record self.old { asked = name.now }) }
        ensures err { OnErr result (self.new ≡ self.old) }
    {
        let asked = String::from_str(self.alloc, name)?;
        self.asked = asked;
        Ok(())
    }

    /// Leaves nothing to read.
    pub fn end_reading(&mut self)
        ensures { self.new ≡ record self.old { left = [] } }
    {
        self.reading = None;
    }

    /// Begins to read a name, and answers whether it is held.
    pub fn start(&mut self, name: &str) -> Result<bool, AllocError>
        ensures held { IfOk result (λ b. IsTrue b ↔ IsSome (entry_of self.old.held name.now)) }
        ensures ok { OnOk result (self.new ≡ record self.old { left = bytes_of self.old.held name.now; asked = name.now }) }
        ensures err { OnErr result (self.new ≡ record self.old { left = [] }) }
    {
        self.end_reading();
        self.ask(name)?;
        self.reading = place_of(self.held.as_slice(), name);
        self.given = 0;
        Ok(self.reading.is_some())
    }

    /// Reads into the front of the buffer, and answers how many bytes.
    pub fn more(&mut self, into: &mut [u8]) -> usize
        ensures count { result ≡ min (min self.old.most (length self.old.left)) (length into.old) }
        ensures bytes { take result into.new ≡ take result self.old.left }
        ensures end { 0 < length into.old → result ≡ 0 → self.old.left ≡ [] }
        ensures after { self.new ≡ record self.old { left = drop result self.old.left } }
    {
        let Some(place) = self.reading else {
            return 0;
        };
        let left = &bytes_in(self.held.as_slice(), place)[self.given..];
        let room = left.len().min(self.most);
        let count = copy_front(&left[..room], into);
        self.given += count;
        count
    }

    /// Begins to write a name.
    pub fn create(&mut self, name: &str) -> Result<(), AllocError>
        ensures ok { OnOk result (self.new ≡ record self.old { written = record { name = name.now; bytes = [] } ∷ self.old.written; writing = true; asked = name.now }) }
        ensures err { OnErr result (self.new ≡ record self.old { writing = false }) }
    {
        self.close();
        let asked = String::from_str(self.alloc, name)?;
        let entry = NamedBytes {
            name: String::from_str(self.alloc, name)?,
            bytes: Vec::new(self.alloc),
        };
        self.written.insert(0, entry)?;
        self.writing = true;
        self.asked = asked;
        Ok(())
    }

    /// Appends bytes to the created name, all of them or none.
    pub fn put(&mut self, bytes: &[u8]) -> Result<(), AllocError>
        requires { self.old.writing ≡ true }
        ensures ok { OnOk result (self.new ≡ record self.old { written = appended bytes.now self.old.written }) }
        ensures grows { OnOk result (let name = first_name self.old.written in bytes_of self.new.written name ≡ bytes_of self.old.written name ++ bytes.now) }
        ensures err { OnErr result (self.new ≡ self.old) }
    {
        let entry = &mut self.written[0];
        entry.bytes.extend_from_slice(bytes)?;
        Ok(())
    }

    /// Ends the writing.
    pub fn close(&mut self)
        ensures { self.new ≡ record self.old { writing = false } }
    {
        self.writing = false;
    }

    /// The bytes that were put under a name since it was last created.
    pub fn written_of(&self, name: &str) -> Option<&[u8]>
        ensures { option_copied result ≡ entry_of self.now.written name.now }
    {
        let entries = self.written.as_slice();
        let place = place_of(entries, name)?;
        Some(bytes_in(entries, place))
    }
}
