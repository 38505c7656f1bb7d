use crate::tests::{Outcome, run_with};
use arc_io::{MemShelf, MemSink, NamedBytes};
use arc_program::Status;
use std::alloc::{AllocError, Global};
use std::test::Fail;
use std::thread::Threads;

/// The instance `a`, which asks for three units that weigh 1 in bins of capacity 2 that cost 3, and a second text `s`.
pub fn texts(alloc: Global, solution: &str) -> Result<Vec<NamedBytes>, AllocError> {
    let instance = NamedBytes {
        name: String::from_str(alloc, "a")?,
        bytes: Vec::from_slice(alloc, b"1 1 2 3 -1 1 1 3 1")?,
    };
    let solution = NamedBytes {
        name: String::from_str(alloc, "s")?,
        bytes: Vec::from_slice(alloc, solution.as_bytes())?,
    };
    Ok(vec![in alloc; instance, solution]?)
}

/// A run over both texts, of which at most so many bytes are read at once.
fn run_over_solution<R: Threads + Sync>(
    rt: &R,
    alloc: Global,
    words: &str,
    solution: &str,
    most: usize,
) -> Result<Outcome, AllocError> {
    let files = texts(alloc, solution)?;
    run_with(
        rt,
        alloc,
        words,
        MemShelf::with_pieces(alloc, files, Vec::new(alloc), most.max(1)),
        MemSink::new(alloc, Vec::new(alloc)),
        MemSink::new(alloc, Vec::new(alloc)),
    )
}

#[test]
fn solutions_are_packings_or_refused(rt: HostRuntime) -> Result<(), Fail> {
    let words = "extract --mvp a s";
    let two = "packing 6\n1 type 1: 1.1*1\n1 type 1: 1.1*2\n";
    let three = "packing 9\n1 type 1: 1.1*1\n1 type 1: 1.1*2\n1 type 1:\n";
    for (words, solution, status, out, said) in [
        (words, "Z1 2\nF2 2.0\nF5 2\n", Status::Done, two, ""),
        (words, "Z1 3\nF2 2\nF3 1\nF5 2", Status::Done, three, ""),
        (
            words,
            "Z1 2\n",
            Status::BadSolution,
            "",
            "vpack: s: row N1_1 is violated\n",
        ),
        (
            words,
            "",
            Status::BadSolution,
            "",
            "vpack: s: row D1 is violated\n",
        ),
        (
            words,
            "Z1 4\nF2 4\nF5 4\n",
            Status::BadSolution,
            "",
            "vpack: s: bound of Z1 is violated\n",
        ),
        (
            words,
            "Z1\n",
            Status::BadSolution,
            "",
            "vpack: s: line 1: wrong number of fields\n",
        ),
        (
            words,
            "Z2 1\n",
            Status::BadSolution,
            "",
            "vpack: s: line 1: no such column\n",
        ),
        (
            words,
            "Z1 1.5\n",
            Status::BadSolution,
            "",
            "vpack: s: line 1: bad value\n",
        ),
        (
            words,
            "# values\nZ1 2\nZ1 2\n",
            Status::BadSolution,
            "",
            "vpack: s: line 3: column given twice\n",
        ),
        (
            "extract --mvp a b",
            "Z1 2\nF2 2\nF5 2\n",
            Status::ReadFault,
            "",
            "vpack: cannot read b\n",
        ),
    ] {
        let at_once = run_over_solution(&rt, rt.alloc(), words, solution, usize::MAX)?;
        let by_bytes = run_over_solution(&rt, rt.alloc(), words, solution, 1)?;
        let so = at_once.is(status, out, said) && by_bytes.is(status, out, said);
        assert!(rt; so, "{solution}");
    }
    Ok(())
}
