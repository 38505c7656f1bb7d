use crate::tests::{Outcome, ends_so, run_failing};
use arc_program::Status;
use std::test::Fail;

/// Three units that weigh 6, in bins of capacity 10.
const SIXES: &str = "1 10 1 6 3";

/// Two units that weigh 6, in one bin of cost 1 or in bins of cost 5.
const TWO_TYPES: &str = "1 2 10 1 1 10 5 -1 1 1 2 6";

/// Units that fit nowhere, whose material bound passes what a certificate can claim.
const HOMELESS: &str = "1 1 1 2147483647 -1 1 1 1000000 2147483647";

/// Two types of bins, and no items.
const NOTHING: &str = "1 2 10 1 1 10 5 -1 0";

const CUTTING_LIST: &str = "1 5600 13 1380 22 1520 25 1560 12 1710 14 1820 18 1880 18 \
     1930 20 2000 10 2050 12 2100 14 2140 16 2150 18 2200 20";

#[test]
fn bounds_are_printed(rt: HostRuntime) -> Result<(), Fail> {
    let done = Status::Done;
    let bad = Status::BadInstance;
    for (words, text, status, out, said) in [
        ("bound a", SIXES, done, "bound 3 step 1 5\n", ""),
        (
            "bound --mvp a",
            "1 1 2 3 -1 1 1 3 1",
            done,
            "bound 6 step 1 0\n",
            "",
        ),
        ("bound a", CUTTING_LIST, done, "bound 73 step 1 0\n", ""),
        ("bound a --mvp", TWO_TYPES, done, "bound 2 material\n", ""),
        (
            "bound a --mvp",
            HOMELESS,
            done,
            "bound 4611686018427387904 material\n",
            "",
        ),
        ("bound a", "1 10 0", done, "bound 0 step 1 0\n", ""),
        ("bound a --mvp", NOTHING, done, "bound 0 material\n", ""),
        ("bound a", "1 10", bad, "", "vpack: a: token 3: missing\n"),
        (
            "bound b",
            SIXES,
            Status::ReadFault,
            "",
            "vpack: cannot read b\n",
        ),
        (
            "bound a --cert -",
            SIXES,
            Status::Usage,
            "",
            "vpack: word 4: bad value\n",
        ),
    ] {
        let so = ends_so(&rt, rt.alloc(), words, "a", text, status, out, said)?;
        assert!(rt; so, "{words} {text}");
    }
    Ok(())
}

impl Outcome {
    /// Whether this is written under the name `c`, or the name was not created.
    fn wrote(&self, text: Option<&str>) -> bool {
        match (self.shelf.written_of("c"), text) {
            (Some(bytes), Some(text)) => bytes == text.as_bytes(),
            (None, None) => true,
            _ => false,
        }
    }
}

#[test]
fn certificates_are_written(rt: HostRuntime) -> Result<(), Fail> {
    for (words, text, certificate) in [
        (
            "bound a --cert c",
            SIXES,
            Some("vpack-certificate 3\nclaim bound 3 goal 3\nstep 1 5\nend\n"),
        ),
        (
            "bound a --cert=c --mvp",
            TWO_TYPES,
            Some("vpack-certificate 3\nclaim bound 2 goal 2\nleaf 10 1 1 6 0\nend\n"),
        ),
        (
            "bound --mvp --cert c -- a",
            HOMELESS,
            Some(
                "vpack-certificate 3\n\
                 claim bound 4611686018427387904 goal 4611686018427387904\n\
                 leaf 1 1 1 4611686014132420609 0\nend\n",
            ),
        ),
        (
            "bound a --mvp --cert c",
            NOTHING,
            Some("vpack-certificate 3\nclaim bound 0 goal 0\nleaf 1 0 0\nend\n"),
        ),
        ("bound a", SIXES, None),
    ] {
        let outcome = run_failing(&rt, rt.alloc(), words, text, (99, 99, 99))?;
        assert_eq!(rt; outcome.status, Status::Done, "{words}");
        assert!(rt; outcome.wrote(certificate), "{words}");
    }
    Ok(())
}

#[test]
fn writes_that_fail_are_told(rt: HostRuntime) -> Result<(), Fail> {
    let head = "vpack-certificate 3\n";
    let claim = "vpack-certificate 3\nclaim bound 3 goal 3\n";
    let tree = "vpack-certificate 3\nclaim bound 3 goal 3\nstep 1 5\n";
    let whole = "vpack-certificate 3\nclaim bound 3 goal 3\nstep 1 5\nend\n";
    let report = "bound 3 step 1 5\n";
    let unstored = "vpack: cannot write c\n";
    let unwritten = "vpack: cannot write output\n";
    let failed = Status::WriteFault;
    for (shelf, out, status, told, said, written) in [
        (4, 9, failed, "", unstored, None),
        (5, 9, failed, "", unstored, Some("")),
        (6, 9, failed, "", unstored, Some(head)),
        (7, 9, failed, "", unstored, Some(claim)),
        (8, 9, failed, "", unstored, Some(tree)),
        (9, 9, failed, "", unstored, Some(whole)),
        (10, 9, Status::Done, report, "", Some(whole)),
        (10, 1, failed, "", unwritten, Some(whole)),
    ] {
        let outcome = run_failing(&rt, rt.alloc(), "bound a --cert c", SIXES, (shelf, out, 9))?;
        assert!(rt; outcome.is(status, told, said), "{shelf} {out}");
        assert!(rt; outcome.wrote(written), "{shelf} {out}");
    }
    Ok(())
}
