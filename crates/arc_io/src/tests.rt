//! The rows that the shelves and sinks in memory are known by.
use crate::{IoFault, MemShelf, MemSink, NamedBytes, Shelf, Sink, SureShelf, SureSink};
use std::alloc::{AllocError, Global};
use std::test::Fail;

fn named(alloc: Global, name: &str, bytes: &[u8]) -> Result<NamedBytes, AllocError> {
    let name = String::from_str(alloc, name)?;
    let bytes = Vec::from_slice(alloc, bytes)?;
    Ok(NamedBytes { name, bytes })
}

/// A list with two entries of one name.
fn two_files(alloc: Global) -> Result<Vec<NamedBytes>, AllocError> {
    let first = named(alloc, "held", b"1 10 0")?;
    let second = named(alloc, "held", b"second")?;
    Ok(vec![in alloc; first, second]?)
}

/// Reads a name in pieces of at most 4 bytes, and answers how many reads gave something.
fn read_pieces<H: Shelf>(shelf: &mut H, name: &str, out: &mut Vec<u8>) -> Result<usize, IoFault> {
    shelf.start(name)?;
    let mut buffer = [0u8; 4];
    for pieces in 0..100 {
        let count = shelf.more(&mut buffer)?;
        if count == 0 {
            return Ok(pieces);
        }
        if out.extend_from_slice(&buffer[..count]).is_err() {
            return Err(IoFault::Memory);
        }
    }
    Err(IoFault::Failed)
}

/// Creates a name, puts bytes and closes.
fn write<H: Shelf>(shelf: &mut H, name: &str, bytes: &[u8]) -> Result<(), IoFault> {
    shelf.create(name)?;
    let put = shelf.put(bytes);
    let closed = shelf.close();
    put?;
    closed
}

fn put<K: Sink>(sink: &mut K, bytes: &[u8]) -> Result<(), IoFault> {
    sink.put(bytes)
}

#[test]
fn mem_shelf_reads(rt: HostRuntime) -> Result<(), Fail> {
    let failing = vec![in rt.alloc(); 6]?;
    let mut shelf = MemShelf::new(rt.alloc(), two_files(rt.alloc())?, failing);
    let mut out = Vec::new(rt.alloc());
    assert_eq!(rt; read_pieces(&mut shelf, "held", &mut out), Ok(2));
    assert_eq!(rt; out.as_slice(), b"1 10 0".as_slice());
    assert_eq!(rt;
        read_pieces(&mut shelf, "none", &mut out),
        Err(IoFault::Failed)
    );
    assert_eq!(rt;
        read_pieces(&mut shelf, "held", &mut out),
        Err(IoFault::Failed)
    );
    assert_eq!(rt; shelf.read_faults(), 2);
    Ok(())
}

#[test]
fn mem_shelf_reads_single_bytes(rt: HostRuntime) -> Result<(), Fail> {
    let failing = Vec::new(rt.alloc());
    let mut shelf = MemShelf::with_pieces(rt.alloc(), two_files(rt.alloc())?, failing, 1);
    let mut out = Vec::new(rt.alloc());
    assert_eq!(rt; read_pieces(&mut shelf, "held", &mut out), Ok(6));
    assert_eq!(rt; out.as_slice(), b"1 10 0".as_slice());
    Ok(())
}

#[test]
fn mem_shelf_writes(rt: HostRuntime) -> Result<(), Fail> {
    let failing = vec![in rt.alloc(); 5]?;
    let mut shelf = MemShelf::new(rt.alloc(), Vec::new(rt.alloc()), failing);
    assert_eq!(rt; write(&mut shelf, "out", b"ab"), Ok(()));
    assert_eq!(rt; write(&mut shelf, "cut", b"cd"), Err(IoFault::Failed));
    assert_eq!(rt; shelf.write_faults(), 1);
    assert_eq!(rt;
        shelf.written_of("out").unwrap_or(b"none"),
        b"ab".as_slice()
    );
    assert_eq!(rt; shelf.written_of("cut").unwrap_or(b"none"), b"".as_slice());
    assert!(rt; shelf.written_of("none").is_none());
    Ok(())
}

#[test]
fn mem_sink_fails_at_first(rt: HostRuntime) -> Result<(), Fail> {
    let mut sink = MemSink::new(rt.alloc(), vec![in rt.alloc(); 1]?);
    assert_eq!(rt; put(&mut sink, b"ab"), Err(IoFault::Failed));
    assert_eq!(rt; sink.bytes().len(), 0);
    assert_eq!(rt; sink.faults(), 1);
    assert_eq!(rt; put(&mut sink, b"ab"), Ok(()));
    assert_eq!(rt; sink.bytes(), b"ab".as_slice());
    assert_eq!(rt; sink.puts(), 2);
    assert_eq!(rt; sink.starved(), 0);
    Ok(())
}

#[test]
fn sure_shelf_reads_and_writes(rt: HostRuntime) -> Result<(), Fail> {
    let mut shelf = SureShelf::new(rt.alloc(), two_files(rt.alloc())?);
    let mut out = Vec::new(rt.alloc());
    assert_eq!(rt; read_pieces(&mut shelf, "none", &mut out), Ok(0));
    assert_eq!(rt; read_pieces(&mut shelf, "held", &mut out), Ok(2));
    assert_eq!(rt; write(&mut shelf, "out", b"ab"), Ok(()));
    assert_eq!(rt;
        shelf.written_of("out").unwrap_or(b"none"),
        b"ab".as_slice()
    );
    assert_eq!(rt; shelf.read_faults() + shelf.write_faults(), 0);
    Ok(())
}

#[test]
fn sure_sink_takes(rt: HostRuntime) {
    let mut sink = SureSink::new(rt.alloc());
    assert_eq!(rt; put(&mut sink, b"ab"), Ok(()));
    assert_eq!(rt; sink.bytes(), b"ab".as_slice());
    assert_eq!(rt; sink.puts(), 1);
    assert_eq!(rt; sink.faults() + sink.starved(), 0);
}
