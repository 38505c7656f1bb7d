//! Each call of the outside fails once, at each place.

use crate::tests::solutions::texts;
use crate::tests::{Outcome, run_with};
use arc_io::{MemShelf, MemSink};
use arc_program::Status;
use std::alloc::{AllocError, Global};
use std::test::Fail;
use std::thread::Threads;

/// A solution of the model of the instance.
const FLOW: &str = "Z1 2\nF2 2\nF5 2\n";

/// A certificate that is accepted.
const STEP: &str = "vpack-certificate 3\nclaim bound 6 goal 6\nstep 1 0\nend\n";

const UNWRITTEN: &str = "vpack: cannot write output\n";

/// The last of the shelf's calls that reads the instance, the last that reads the second text, and the last that writes the
/// certificate.
type Last = (u64, u64, u64);

/// A run over the instance `a` and this second text `s`, of which at most so many bytes are read at once, where the calls of
/// these numbers of the shelf, of `out` and of `err` fail. No call has the number 0.
fn run_failing<R: Threads + Sync>(
    rt: &R,
    alloc: Global,
    words: &str,
    second: &str,
    most: usize,
    failing: (u64, u64, u64),
) -> Result<Outcome, AllocError> {
    let files = texts(alloc, second)?;
    run_with(
        rt,
        alloc,
        words,
        MemShelf::with_pieces(alloc, files, vec![in alloc; failing.0]?, most.max(1)),
        MemSink::new(alloc, vec![in alloc; failing.1]?),
        MemSink::new(alloc, vec![in alloc; failing.2]?),
    )
}

/// How a run ends of which this call of the shelf fails, and what it says.
fn told_of(call: u64, last: Last) -> (Status, &'static str) {
    if call <= last.0 {
        (Status::ReadFault, "vpack: cannot read a\n")
    } else if call <= last.1 {
        (Status::ReadFault, "vpack: cannot read s\n")
    } else {
        (Status::WriteFault, "vpack: cannot write c\n")
    }
}

/// How many bytes the first so many lines have.
fn size_of_lines(text: &[u8], lines: u64) -> usize {
    let mut left = lines;
    for (place, byte) in text.iter().enumerate() {
        if left == 0 {
            return place;
        }
        if *byte == b'\n' {
            left -= 1;
        }
    }
    text.len()
}

impl Outcome {
    /// Whether the certificate was not created, or holds the beginning of the one that this run wrote.
    fn stored_part_of(&self, whole: &Outcome) -> bool {
        match (self.shelf.written_of("c"), whole.shelf.written_of("c")) {
            (None, _) => true,
            (Some(part), Some(text)) => self.status == Status::WriteFault && text.starts_with(part),
            (Some(_), None) => false,
        }
    }

    /// Whether the certificate is the one that this run wrote, or neither wrote one.
    fn stored_as(&self, whole: &Outcome) -> bool {
        match (self.shelf.written_of("c"), whole.shelf.written_of("c")) {
            (None, None) => true,
            (Some(text), Some(other)) => text == other,
            _ => false,
        }
    }

    /// Whether the report broke off at this put, behind whole lines of the report of that run.
    fn broke_off_at(&self, put: u64, whole: &Outcome) -> bool {
        let text = whole.out.bytes();
        let taken = self.out.bytes();
        self.status == Status::WriteFault
            && self.out.puts() == put
            && text.starts_with(taken)
            && taken.len() == size_of_lines(text, put.saturating_sub(1))
    }
}

/// Whether each call of the shelf that fails is told so, by this status and in this line, and no call comes behind the last.
fn shelf_faults_are_told<R: Threads + Sync>(
    rt: &R,
    alloc: Global,
    words: &str,
    second: &str,
    most: usize,
    last: Last,
) -> Result<bool, AllocError> {
    let calls = last.0.max(last.1).max(last.2);
    let beyond = calls.saturating_add(1);
    let whole = run_failing(rt, alloc, words, second, most, (beyond, 0, 1))?;
    for call in 1..beyond {
        let told = run_failing(rt, alloc, words, second, most, (call, 0, 0))?;
        let unheard = run_failing(rt, alloc, words, second, most, (call, 0, 1))?;
        let (status, said) = told_of(call, last);
        let so = told.is(status, "", said) && unheard.is(status, "", "");
        if !so || told.made || !told.stored_part_of(&whole) {
            return Ok(false);
        }
    }
    Ok(whole.status == Status::Done)
}

/// Whether each put of the report that fails ends the run, behind the lines before it.
fn out_faults_are_told<R: Threads + Sync>(
    rt: &R,
    alloc: Global,
    words: &str,
    second: &str,
) -> Result<bool, AllocError> {
    let whole = run_failing(rt, alloc, words, second, usize::MAX, (0, 0, 0))?;
    for put in 1..whole.out.puts().saturating_add(1) {
        let told = run_failing(rt, alloc, words, second, usize::MAX, (0, put, 0))?;
        let unheard = run_failing(rt, alloc, words, second, usize::MAX, (0, put, 1))?;
        let broken = told.broke_off_at(put, &whole) && unheard.broke_off_at(put, &whole);
        let said = told.err.bytes() == UNWRITTEN.as_bytes() && unheard.err.bytes().is_empty();
        if !broken || !said || told.made || !told.stored_as(&whole) {
            return Ok(false);
        }
    }
    Ok(whole.status == Status::Done)
}

#[test]
fn calls_of_the_shelf_fail_once(rt: HostRuntime) -> Result<(), Fail> {
    for (words, second, most, last) in [
        ("compile --mvp a", "", usize::MAX, (3, 0, 0)),
        ("solve --mvp a --cert c", "", usize::MAX, (3, 0, 11)),
        ("check --mvp a s", STEP, usize::MAX, (3, 6, 0)),
        ("export --mvp a", "", usize::MAX, (3, 0, 0)),
        ("extract --mvp a s", FLOW, usize::MAX, (3, 6, 0)),
        ("bound --mvp a --cert c", "", usize::MAX, (3, 0, 9)),
        ("make 1 1", "", usize::MAX, (0, 0, 0)),
        ("compile --mvp a", "", 1, (20, 0, 0)),
        ("solve --mvp a --cert c", "", 1, (20, 0, 28)),
        ("check --mvp a s", STEP, 1, (20, 76, 0)),
        ("export --mvp a", "", 1, (20, 0, 0)),
        ("export --joint --mvp a", "", 1, (20, 0, 0)),
        ("bound --mvp a --cert c", "", 1, (20, 0, 26)),
        ("extract --mvp a s", FLOW, 1, (20, 37, 0)),
    ] {
        let so = shelf_faults_are_told(&rt, rt.alloc(), words, second, most, last)?;
        assert!(rt; so, "{words} {most}");
    }
    Ok(())
}

#[test]
fn puts_of_the_report_fail_once(rt: HostRuntime) -> Result<(), Fail> {
    for (words, second) in [
        ("compile --mvp a", ""),
        ("solve --mvp a --cert c", ""),
        ("check --mvp a s", STEP),
        ("export --mvp a", ""),
        ("export --joint --mvp a", ""),
        ("extract --mvp a s", FLOW),
        ("bound --mvp a --cert c", ""),
        ("make 1 1", ""),
    ] {
        let so = out_faults_are_told(&rt, rt.alloc(), words, second)?;
        assert!(rt; so, "{words}");
    }
    Ok(())
}

#[test]
fn a_refusal_that_is_not_heard_has_its_status(rt: HostRuntime) -> Result<(), Fail> {
    for (words, second, status) in [
        ("solve", "", Status::Usage),
        ("solve a", "", Status::BadInstance),
        ("solve b", "", Status::ReadFault),
        ("check --mvp a s", "\n", Status::BadCertificate),
        ("extract --mvp a s", "Z1 2\n", Status::BadSolution),
    ] {
        let told = run_failing(&rt, rt.alloc(), words, second, usize::MAX, (0, 0, 0))?;
        let unheard = run_failing(&rt, rt.alloc(), words, second, usize::MAX, (0, 0, 1))?;
        assert_eq!(rt; told.status, status, "{words}");
        assert!(rt; !told.err.bytes().is_empty(), "{words}");
        assert!(rt; unheard.is(status, "", ""), "{words}");
    }
    Ok(())
}
