//! Runs over an outside that never fails.

use crate::tests::split_words;
use arc_io::{NamedBytes, SureShelf, SureSink};
use arc_program::{Status, run};
use std::alloc::{AllocError, Global};
use std::test::Fail;
use std::thread::Threads;

/// The text under this name.
fn named(alloc: Global, name: &str, text: &str) -> Result<NamedBytes, AllocError> {
    Ok(NamedBytes {
        name: String::from_str(alloc, name)?,
        bytes: Vec::from_slice(alloc, text.as_bytes())?,
    })
}

/// An instance `a`, a solution `s` of its model, and a certificate `d` that is accepted.
fn shelf(alloc: Global) -> Result<SureShelf, AllocError> {
    let instance = named(alloc, "a", "1 1 2 3 -1 1 1 3 1")?;
    let solution = named(alloc, "s", "Z1 2\nF2 2\nF5 2\n")?;
    let certificate = named(
        alloc,
        "d",
        "vpack-certificate 3\nclaim bound 6 goal 6\nstep 1 0\nend\n",
    )?;
    let files = vec![in alloc; instance, solution, certificate]?;
    Ok(SureShelf::new(alloc, files))
}

/// The status of a run, and whether it wrote a certificate `c`.
fn ended<R: Threads + Sync>(
    rt: &R,
    alloc: Global,
    words: &str,
) -> Result<(Status, bool), AllocError> {
    let words = split_words(alloc, words)?;
    let mut shelf = shelf(alloc)?;
    let mut out = SureSink::new(alloc);
    let mut err = SureSink::new(alloc);
    let mut made = None;
    let status = run(
        rt,
        alloc,
        words.as_slice(),
        &mut shelf,
        &mut out,
        &mut err,
        &mut made,
    );
    Ok((status, shelf.written_of("c").is_some()))
}

#[test]
fn no_call_is_told_to_fail(rt: HostRuntime) -> Result<(), Fail> {
    for (words, status, stored) in [
        ("compile --mvp a", Status::Done, false),
        ("solve --mvp a", Status::Done, false),
        ("solve --mvp a --nodes 0", Status::Bracketed, false),
        ("solve --mvp a --cert c", Status::Done, true),
        ("solve --mvp a --cert c --nodes 0", Status::Bracketed, true),
        ("check --mvp a d", Status::Done, false),
        ("check --mvp a s", Status::BadCertificate, false),
        ("check --mvp a b", Status::BadCertificate, false),
        ("export --mvp a", Status::Done, false),
        ("export --joint --mvp a", Status::Done, false),
        ("extract --mvp a s", Status::Done, false),
        ("extract --mvp a d", Status::BadSolution, false),
        ("extract --mvp a b", Status::BadSolution, false),
        ("bound --mvp a", Status::Done, false),
        ("bound --mvp a --cert c", Status::Done, true),
        ("make 1 1", Status::Done, false),
        ("solve b --cert c", Status::BadInstance, false),
        ("solve d", Status::BadInstance, false),
        ("make 1 0", Status::Usage, false),
        ("", Status::Usage, false),
    ] {
        let (came, wrote) = ended(&rt, rt.alloc(), words)?;
        assert_eq!(rt; came, status, "{words}");
        assert_eq!(rt; wrote, stored, "{words}");
    }
    Ok(())
}
