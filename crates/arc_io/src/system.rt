//! The real files. Nothing is told of their bytes.
ghost use Rattle.std.specs.Prelude.{◌≡◌, ◌≤◌, IfOk, MatchResult, length};
ghost use Rattle.arc_io.specs.Faults.{CountsFault, counted};
ghost use Rattle.arc_io.specs.inner.System.{fault_of_kind};
ghost use Rattle.std.specs.IoError.{error_kind};

use crate::calls::counted_fault;
use crate::{IoFault, Shelf};
use std::alloc::Global;
use std::fs::File;
use std::io::{ErrorKind, Read, Write};
use std::{fs, io};

fn fault_of(error: &io::Error) -> IoFault
    ensures { result ≡ fault_of_kind (error_kind error.now) }
{
    match error.kind() {
        ErrorKind::OutOfMemory => IoFault::Memory,
        _ => IoFault::Failed,
    }
}

/// Turns an error into a fault, and counts it where it is no want of memory.
pub fn count_fault<T>(outcome: io::Result<T>, count: &mut u64) -> Result<T, IoFault>
    ensures faults { CountsFault result count.old count.new }
    ensures value { MatchResult outcome (λ value. result ≡ Ok value) (λ error. result ≡ Err (fault_of_kind (error_kind error))) }
    ensures counted { count.new ≡ counted result count.old }
{
    match outcome {
        Ok(value) => Ok(value),
        Err(error) => match fault_of(&error) {
            IoFault::Failed => Err(counted_fault(IoFault::Failed, count)),
            IoFault::Memory => Err(IoFault::Memory),
        },
    }
}

/// What is read.
#[derive(Drop)]
enum Reader {
    Nothing,
    Input,
    Open(File),
}

impl Reader {
    fn open(rt: &HostRuntime, name: &str) -> io::Result<Self> {
        if name == "-" {
            return Ok(Reader::Input);
        }
        let file = fs::open(rt, name)?;
        Ok(Reader::Open(file))
    }

    fn read(&mut self, rt: &HostRuntime, into: &mut [u8]) -> io::Result<usize>
        ensures { IfOk result (λ n. n ≤ length into.new) }
    {
        match self {
            Reader::Nothing => Ok(0),
            Reader::Input => rt.stdin().read(into),
            Reader::Open(file) => file.read(into),
        }
    }
}

/// The files of the system. The name `-` is standard input for `start`. A put is with the system when it answers.
#[derive(Drop)]
pub struct FileShelf {
    rt: HostRuntime,
    reader: Reader,
    writer: Option<File>,
    read_faults: u64,
    write_faults: u64,
}

impl FileShelf {
    ghost use Rattle.std.specs.Prelude.{◌≡◌, false};

    pub fn new(rt: &HostRuntime, _alloc: Global) -> Self
        ensures reads { ⟦<FileShelf as Shelf>⟧.read_faults result ≡ 0 }
        ensures writes { ⟦<FileShelf as Shelf>⟧.write_faults result ≡ 0 }
        ensures writing { ⟦<FileShelf as Shelf>⟧.writing result ≡ false }
    {
        FileShelf {
            rt: *rt,
            reader: Reader::Nothing,
            writer: None,
            read_faults: 0,
            write_faults: 0,
        }
    }
}

impl Shelf for FileShelf {
    ghost use Rattle.std.specs.Prelude.{Some, None, is_some};

    ghost held = { λ s name. None };

    ghost left = { λ s. None };

    ghost written = { λ s name. None };

    ghost created = { λ s. None };

    ghost asked = { λ s. None };

    ghost writing = { λ s. is_some s.writer };

    ghost read_faults = { λ s. s.read_faults };

    ghost write_faults = { λ s. s.write_faults };

    ghost created_told = { λ s name told. told };

    fn start(&mut self, name: &str) -> Result<(), IoFault> {
        self.reader = Reader::Nothing;
        let opened = Reader::open(&self.rt, name);
        match count_fault(opened, &mut self.read_faults) {
            Ok(reader) => {
                self.reader = reader;
                Ok(())
            }
            Err(fault) => Err(fault),
        }
    }

    fn more(&mut self, into: &mut [u8]) -> Result<usize, IoFault> {
        let read = self.reader.read(&self.rt, into);
        count_fault(read, &mut self.read_faults)
    }

    fn create(&mut self, name: &str) -> Result<(), IoFault> {
        self.writer = None;
        let created = fs::create(&self.rt, name);
        match count_fault(created, &mut self.write_faults) {
            Ok(file) => {
                self.writer = Some(file);
                Ok(())
            }
            Err(fault) => Err(fault),
        }
    }

    fn put(&mut self, bytes: &[u8]) -> Result<(), IoFault> {
        match &mut self.writer {
            Some(file) => count_fault(file.write_all(bytes), &mut self.write_faults),
            None => unreachable!(),
        }
    }

    fn close(&mut self) -> Result<(), IoFault> {
        self.writer = None;
        Ok(())
    }
}

#[cfg(test)]
mod tests {
    use super::*;
    use std::process;
    use std::test::Fail;

    fn write_twice(shelf: &mut FileShelf, name: &str) -> Result<(), IoFault> {
        shelf.create(name)?;
        shelf.put(b"ab")?;
        let put = shelf.put(b"c");
        let closed = shelf.close();
        put?;
        closed
    }

    #[test]
    fn file_shelf_writes_and_reads(rt: HostRuntime) -> Result<(), Fail> {
        let id = process::id(rt.process());
        let name = format!(in rt.alloc(); "/tmp/arc_io_test_{id}")?;
        let mut shelf = FileShelf::new(&rt, rt.alloc());
        write_twice(&mut shelf, name.as_str())?;
        shelf.start(name.as_str())?;
        let mut buffer = [0u8; 8];
        let count = shelf.more(&mut buffer)?;
        fs::remove_file(&rt, name.as_str())?;
        assert_eq!(rt; &buffer[..count], b"abc".as_slice());
        assert_eq!(rt; shelf.more(&mut buffer)?, 0);
        Ok(())
    }

    #[test]
    fn file_shelf_counts_refusals(rt: HostRuntime) {
        let mut shelf = FileShelf::new(&rt, rt.alloc());
        assert_eq!(rt; shelf.start("/tmp/no/such/file"), Err(IoFault::Failed));
        assert_eq!(rt; shelf.create("/tmp/no/such/file"), Err(IoFault::Failed));
        assert_eq!(rt; shelf.read_faults, 1);
        assert_eq!(rt; shelf.write_faults, 1);
    }
}
