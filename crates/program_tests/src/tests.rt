//! Examples that the commands are known by. Each says its status, so a run that only gives up is refused by them.
mod bounds;
mod certificates;
mod examples;
mod hostile;
mod outside;
mod searches;
mod solutions;
mod sure;

use arc_io::{MemShelf, MemSink, NamedBytes};
use arc_program::{Status, run};
use std::alloc::{AllocError, Global};
use std::thread::Threads;

/// What a run left, and whether there is a certificate of what its search found out.
#[derive(Debug, Drop)]
struct Outcome {
    status: Status,
    shelf: MemShelf,
    out: MemSink,
    err: MemSink,
    made: bool,
}

impl Outcome {
    fn is(&self, status: Status, out: &str, err: &str) -> bool {
        self.status == status
            && self.out.bytes() == out.as_bytes()
            && self.err.bytes() == err.as_bytes()
    }
}

/// Words that stand apart by one blank each. The empty text has no word.
fn split_words(alloc: Global, words: &str) -> Result<Vec<String>, AllocError> {
    let mut list = Vec::new(alloc);
    if words.is_empty() {
        return Ok(list);
    }
    for word in words.split(' ') {
        list.push(String::from_str(alloc, word)?)?;
    }
    Ok(list)
}

/// A shelf that holds these bytes under this name and gives at most so many at once, of which so many calls fail from the
/// first on.
fn shelf_of(
    alloc: Global,
    name: &str,
    bytes: Vec<u8>,
    failing: u64,
    most: usize,
) -> Result<MemShelf, AllocError> {
    let name = String::from_str(alloc, name)?;
    let files = vec![in alloc; NamedBytes { name, bytes }]?;
    let failing = vec![in alloc; failing]?;
    Ok(MemShelf::with_pieces(alloc, files, failing, most.max(1)))
}

/// A run over a shelf, with these sinks.
fn run_with<R: Threads + Sync>(
    rt: &R,
    alloc: Global,
    words: &str,
    mut shelf: MemShelf,
    mut out: MemSink,
    mut err: MemSink,
) -> Result<Outcome, AllocError> {
    let words = split_words(alloc, words)?;
    let mut made = None;
    let status = run(
        rt,
        alloc,
        words.as_slice(),
        &mut shelf,
        &mut out,
        &mut err,
        &mut made,
    );
    Ok(Outcome {
        status,
        shelf,
        out,
        err,
        made: made.is_some(),
    })
}

/// A run over one text under this name, of which at most so many bytes are read at once. The sinks take all.
fn run_over<R: Threads + Sync>(
    rt: &R,
    alloc: Global,
    words: &str,
    name: &str,
    text: &[u8],
    most: usize,
) -> Result<Outcome, AllocError> {
    let shelf = shelf_of(alloc, name, Vec::from_slice(alloc, text)?, 0, most)?;
    let out = MemSink::new(alloc, Vec::new(alloc));
    let err = MemSink::new(alloc, Vec::new(alloc));
    run_with(rt, alloc, words, shelf, out, err)
}

/// A run over this text, where the calls of these numbers of the shelf, of `out` and of `err` fail.
fn run_failing<R: Threads + Sync>(
    rt: &R,
    alloc: Global,
    words: &str,
    text: &str,
    failing: (u64, u64, u64),
) -> Result<Outcome, AllocError> {
    let text = Vec::from_slice(alloc, text.as_bytes())?;
    run_with(
        rt,
        alloc,
        words,
        shelf_of(alloc, "a", text, failing.0, usize::MAX)?,
        MemSink::new(alloc, vec![in alloc; failing.1]?),
        MemSink::new(alloc, vec![in alloc; failing.2]?),
    )
}

/// Whether a run over this text ends so, read at once and byte by byte.
fn ends_so<R: Threads + Sync>(
    rt: &R,
    alloc: Global,
    words: &str,
    name: &str,
    text: &str,
    status: Status,
    out: &str,
    err: &str,
) -> Result<bool, AllocError> {
    let at_once = run_over(rt, alloc, words, name, text.as_bytes(), usize::MAX)?;
    let by_bytes = run_over(rt, alloc, words, name, text.as_bytes(), 1)?;
    Ok(at_once.is(status, out, err) && by_bytes.is(status, out, err))
}
