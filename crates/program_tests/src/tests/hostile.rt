//! Texts that try the limits of instances and of certificates.

use crate::tests::certificates::refused_so;
use crate::tests::{ends_so, run_over};
use arc_program::Status;
use std::test::Fail;

#[test]
fn texts_at_the_limits_are_told(rt: HostRuntime) -> Result<(), Fail> {
    let done = Status::Done;
    let bad = Status::BadInstance;
    let nothing = "optimal 0\nsplits 0 plain 0\n";
    let no_number_2 = "vpack: a: token 2: not a number\n";
    let range_1 = "vpack: a: token 1: out of range\n";
    let range_2 = "vpack: a: token 2: out of range\n";
    let range_3 = "vpack: a: token 3: out of range\n";
    let range_7 = "vpack: a: token 7: out of range\n";
    for (words, text, status, out, said) in [
        ("solve a", "0 10 0", bad, "", range_1),
        ("solve a", "9", bad, "", "vpack: a: token 2: missing\n"),
        ("solve a", "33", bad, "", range_1),
        ("solve a", "1 2147483647 0", done, nothing, ""),
        ("solve a", "1 2147483648 0", bad, "", range_2),
        (
            "solve a",
            "1 99999999999999999999999999999999999999999 0",
            bad,
            "",
            range_2,
        ),
        (
            "solve a",
            "+1 10 0",
            bad,
            "",
            "vpack: a: token 1: not a number\n",
        ),
        ("solve a", "1 1e1 0", bad, "", no_number_2),
        ("solve a", "1 10 1001", bad, "", range_3),
        ("solve a", "0001 010 00", done, nothing, ""),
        ("solve --mvp a", "1 0", bad, "", range_2),
        (
            "solve --mvp a",
            "1 1 5 -1",
            bad,
            "",
            "vpack: a: token 4: not a number\n",
        ),
        ("solve --mvp a", "1 1 5 1 -1 1 0 1", bad, "", range_7),
        ("solve --mvp a", "1 1 5 1 -1 1 65", bad, "", range_7),
        (
            "solve a",
            "1 10 1 6 3 caps",
            bad,
            "",
            "vpack: a: token 7: missing\n",
        ),
        ("solve a", "1 10 1 6 3 caps 2", bad, "", range_7),
    ] {
        let so = ends_so(&rt, rt.alloc(), words, "a", text, status, out, said)?;
        assert!(rt; so, "{words} {text}");
    }
    Ok(())
}

#[test]
fn bytes_that_are_no_text_are_told(rt: HostRuntime) -> Result<(), Fail> {
    let outcome = run_over(&rt, rt.alloc(), "solve a", "a", &[255], usize::MAX)?;
    let said = "vpack: a: token 1: not a number\n";
    assert!(rt; outcome.is(Status::BadInstance, "", said));
    Ok(())
}

#[test]
fn certificates_at_the_limits_are_told(rt: HostRuntime) -> Result<(), Fail> {
    for (certificate, said) in [
        (
            "vpack-certificate 1\nclaim bound 4611686018427387905\n",
            "vpack: c: line 2: bad text\n",
        ),
        (
            "vpack-certificate 1\nclaim bound 6\nleaf 4611686018427387905 0 0\n",
            "vpack: c: line 3: bad text\n",
        ),
        (
            "vpack-certificate 1\nclaim bound 6\nleaf 1 1 1 4611686018427387904 0\n",
            "vpack: c: line 3: type 1 gains too much\n",
        ),
        (
            "vpack-certificate 1\nclaim bound 6\nleaf 1 1 1 0 0\n",
            "vpack: c: line 3: bad text\n",
        ),
        (
            "vpack-certificate 1\nclaim bound 6\nleaf 1 2 2 1 1 1 0\n",
            "vpack: c: line 3: bad text\n",
        ),
        (
            "vpack-certificate 1\nclaim bound 6\nleaf 1 0 1 6 1\n",
            "vpack: c: line 3: no such arc\n",
        ),
        (
            "vpack-certificate 1\nclaim bound 6\nleaf 0 0 0\n",
            "vpack: c: line 3: does not close\n",
        ),
        (
            "vpack-certificate 1\nclaim empty\nleaf 1 0 0\n",
            "vpack: c: line 3: does not close\n",
        ),
        (
            "vpack-certificate 1\nclaim bound 6\nsplit 4294967295 0\n",
            "vpack: c: line 3: no such arc\n",
        ),
        (
            "vpack-certificate 1\nclaim bound 6\nsplit 4294967296 0\n",
            "vpack: c: line 3: bad text\n",
        ),
        (
            "vpack-certificate 1\nclaim bound 6\nsplit 1 0\nsplit 1 0\n",
            "vpack: c: line 4: not a split\n",
        ),
    ] {
        let so = refused_so(&rt, rt.alloc(), certificate, said)?;
        assert!(rt; so, "{certificate}");
    }
    Ok(())
}
