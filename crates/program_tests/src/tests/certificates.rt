use crate::tests::{Outcome, run_with};
use arc_io::{MemShelf, MemSink, NamedBytes};
use arc_program::Status;
use std::alloc::{AllocError, Global};
use std::test::Fail;
use std::thread::Threads;

/// The instance `a`, which asks for three units that weigh 1 in bins of capacity 2 that cost 3, and the certificate `c`.
fn texts(alloc: Global, certificate: &str) -> Result<Vec<NamedBytes>, AllocError> {
    let instance = NamedBytes {
        name: String::from_str(alloc, "a")?,
        bytes: Vec::from_slice(alloc, b"1 1 2 3 -1 1 1 3 1")?,
    };
    let certificate = NamedBytes {
        name: String::from_str(alloc, "c")?,
        bytes: Vec::from_slice(alloc, certificate.as_bytes())?,
    };
    Ok(vec![in alloc; instance, certificate]?)
}

/// A run of `check` over both texts, of which at most so many bytes are read at once, where the calls of these numbers of the
/// shelf, of `out` and of `err` fail.
fn run_over<R: Threads + Sync>(
    rt: &R,
    alloc: Global,
    certificate: &str,
    most: usize,
    shelf: u64,
    out: u64,
    err: u64,
) -> Result<Outcome, AllocError> {
    let files = texts(alloc, certificate)?;
    run_with(
        rt,
        alloc,
        "check --mvp a c --workers 2",
        MemShelf::with_pieces(alloc, files, vec![in alloc; shelf]?, most.max(1)),
        MemSink::new(alloc, vec![in alloc; out]?),
        MemSink::new(alloc, vec![in alloc; err]?),
    )
}

/// Whether a certificate is refused in this line, read at once and byte by byte.
pub fn refused_so<R: Threads + Sync>(
    rt: &R,
    alloc: Global,
    certificate: &str,
    said: &str,
) -> Result<bool, AllocError> {
    let at_once = run_over(rt, alloc, certificate, usize::MAX, 0, 0, 0)?;
    let by_bytes = run_over(rt, alloc, certificate, 1, 0, 0, 0)?;
    let refused = Status::BadCertificate;
    Ok(at_once.is(refused, "", said) && by_bytes.is(refused, "", said))
}

#[test]
fn certificates_are_accepted_or_refused(rt: HostRuntime) -> Result<(), Fail> {
    for (certificate, status, out, said) in [
        (
            "vpack-certificate 1\nclaim bound 6\nsplit 1 1\nleaf 0 1 1 1 1 1 -2\nleaf 1 0 1 1 3\nend\n",
            Status::Done,
            "accepted bound 6\n",
            "",
        ),
        (
            "vpack-certificate 1\nclaim bound 7\nsplit 1 1\nleaf 0 1 1 1 1 1 -2\nleaf 1 0 1 1 3\nend\n",
            Status::BadCertificate,
            "",
            "vpack: c: line 5: does not close\n",
        ),
        (
            "vpack-certificate 1\nclaim bound 6\nsplit 1 1\nleaf 0 1 1 1 1 1 -1\nleaf 1 0 1 1 4\nend\n",
            Status::BadCertificate,
            "",
            "vpack: c: line 4: type 1 gains too much\n",
        ),
        (
            "vpack-certificate 1\nclaim bound 6\nsplit 1 3\n",
            Status::BadCertificate,
            "",
            "vpack: c: line 3: not a split\n",
        ),
        (
            "vpack-certificate 2\nclaim bound 5 goal 5\nneed 1 1 2 3 1 3 2 3 5 3\n",
            Status::BadCertificate,
            "",
            "vpack: c: line 3: not needed\n",
        ),
        (
            "vpack-certificate 3\nclaim bound 6 goal 6\nstep 1 2\n",
            Status::BadCertificate,
            "",
            "vpack: c: line 3: not a step\n",
        ),
        (
            "vpack-certificate 3\nclaim bound 6 goal 6\nstep 1 0\nend\n\n",
            Status::BadCertificate,
            "",
            "vpack: c: line 5: past the end\n",
        ),
        (
            "",
            Status::BadCertificate,
            "",
            "vpack: c: line 1: places left\n",
        ),
        (
            "vpack-certificate 1\nclaim bound 6\nleaf 1 0 0",
            Status::BadCertificate,
            "",
            "vpack: c: line 3: bad text\n",
        ),
    ] {
        let at_once = run_over(&rt, rt.alloc(), certificate, usize::MAX, 0, 0, 0)?;
        let by_bytes = run_over(&rt, rt.alloc(), certificate, 1, 0, 0, 0)?;
        let so = at_once.is(status, out, said) && by_bytes.is(status, out, said);
        assert!(rt; so, "{certificate}");
    }
    Ok(())
}

#[test]
fn reads_of_a_certificate_that_fail_are_told(rt: HostRuntime) -> Result<(), Fail> {
    let step = "vpack-certificate 3\nclaim bound 6 goal 6\nstep 1 0\nend\n";
    let unread = "vpack: cannot read c\n";
    for (certificate, shelf, out, err, status, told, said) in [
        (step, 4, 9, 9, Status::ReadFault, "", unread),
        (step, 5, 9, 9, Status::ReadFault, "", unread),
        (step, 6, 9, 9, Status::ReadFault, "", unread),
        (step, 7, 9, 9, Status::Done, "accepted bound 6\n", ""),
        (
            step,
            9,
            1,
            9,
            Status::WriteFault,
            "",
            "vpack: cannot write output\n",
        ),
        (
            "vpack-certificate 1\nclaim bound 6\nsplit 1 3\n",
            6,
            9,
            9,
            Status::BadCertificate,
            "",
            "vpack: c: line 3: not a split\n",
        ),
    ] {
        let outcome = run_over(&rt, rt.alloc(), certificate, usize::MAX, shelf, out, err)?;
        assert!(rt; outcome.is(status, told, said), "{shelf} {out} {err}");
    }
    Ok(())
}
