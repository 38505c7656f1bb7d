//! Certificates that come in pieces, for three units of an item of which a bin holds two.

ghost use Rattle.std.specs.Prelude.{◌<◌};

use crate::{Judge, Verdict, verdicts_are_exact, verdicts_are_so};
use cert_laws::Cause;
use cert_text::Claim;
use flow_model::{examples_come_out, graph_of_two, three_of_one};
use std::alloc::Global;
use std::test::Fail;
use std::thread::Threads;

const HEAD: &str = "vpack-certificate 1\nclaim bound 6\n";

fn faulty(line: u64, cause: Cause) -> Verdict {
    Verdict::Faulty { line, cause }
}

/// The verdict on a text that comes in pieces of this size.
fn verdict_of<R: Threads + Sync>(
    rt: &R,
    alloc: Global,
    parts: [&str; 2],
    size: usize,
) -> Result<Verdict, Fail>
    requires { 0 < size }
{
    let instance = three_of_one(alloc)?.ok_or("no instance")?;
    let graph = graph_of_two(alloc)?;
    examples_come_out();
    let mut judge = Judge::new(alloc, &instance, &graph, 2)?;
    for part in parts {
        for piece in part.as_bytes().chunks(size) {
            judge.feed(rt, piece)?;
        }
    }
    Ok(judge.finish(rt)?)
}

#[test]
fn verdicts_do_not_depend_on_the_pieces(rt: HostRuntime) -> Result<(), Fail> {
    let alloc = rt.alloc();
    for (text, verdict) in [
        (
            "split 1 1\nleaf 0 1 1 1 1 1 -2\nleaf 1 0 1 1 3\nend\n",
            Verdict::Shown(Claim::Bound(6)),
        ),
        (
            "split 1 1\nleaf 0 1 1 1 1 1 -2\nleaf 1 0 1 1 3\n",
            faulty(6, Cause::Unfinished),
        ),
        (
            "split 1 1\nleaf 0 1 1 1 1 1 -2\nleaf 1 0 1 1 3\nend\n\n",
            faulty(7, Cause::Extra),
        ),
        (
            "split 1 1\nleaf 0 1 1 1 1 1 -2\nleaf 1 0 1 1 3\nend",
            faulty(6, Cause::Text),
        ),
        (
            "split 1 1\nleaf 0 1 1 1 1 1 -2\nleaf 1 0 1 1 03\nend\n",
            faulty(5, Cause::Text),
        ),
        (
            "split 1 1\nleaf 0 1 1 1 1 1 -1\nleaf 1 0 1 1 4\nend\n",
            faulty(4, Cause::Gain { t: 1 }),
        ),
        ("split 1 1\nend\n", faulty(4, Cause::Unfinished)),
        ("split 1 3\n", faulty(3, Cause::NotSplit)),
        ("split 4294967295 0\n", faulty(3, Cause::NoArc)),
        ("split 4294967296 0\n", faulty(3, Cause::Text)),
        (
            "leaf 1 1 1 4611686018427387904 0\n",
            faulty(3, Cause::Gain { t: 1 }),
        ),
        ("leaf 1 0 0", faulty(3, Cause::Text)),
        ("", faulty(3, Cause::Unfinished)),
    ] {
        assert_eq!(rt; verdict_of(&rt, alloc, [HEAD, text], 1)?, verdict);
        assert_eq!(rt; verdict_of(&rt, alloc, [HEAD, text], 1_000)?, verdict);
    }
    Ok(())
}

#[test]
fn a_refused_line_decides_before_a_later_fault(rt: HostRuntime) -> Result<(), Fail> {
    let alloc = rt.alloc();
    for text in [
        "leaf 0 0 0\nleaf\n",
        "leaf 0 0 0\nend\nmore",
        "leaf 0 0 0\nleaf 1",
    ] {
        assert_eq!(rt;
            verdict_of(&rt, alloc, [HEAD, text], 1)?,
            faulty(3, Cause::Weak)
        );
        assert_eq!(rt;
            verdict_of(&rt, alloc, [HEAD, text], 50)?,
            faulty(3, Cause::Weak)
        );
    }
    Ok(())
}

#[test]
fn texts_without_a_whole_head(rt: HostRuntime) -> Result<(), Fail> {
    let alloc = rt.alloc();
    for (head, rest, verdict) in [
        ("", "", faulty(1, Cause::Unfinished)),
        ("vpack", "", faulty(1, Cause::Text)),
        ("vpack-certificate 4\n", "", faulty(1, Cause::Text)),
        (
            "vpack-certificate 1\n",
            "claim bound 4611686018427387905\n",
            faulty(2, Cause::Text),
        ),
        (
            "vpack-certificate 1\nclaim empty\n",
            "leaf 1 0 0\n",
            faulty(3, Cause::Weak),
        ),
    ] {
        assert_eq!(rt; verdict_of(&rt, alloc, [head, rest], 7)?, verdict);
    }
    Ok(())
}

#[test]
fn what_is_known_before_the_end(rt: HostRuntime) -> Result<(), Fail> {
    let alloc = rt.alloc();
    let instance = three_of_one(alloc)?.ok_or("no instance")?;
    let graph = graph_of_two(alloc)?;
    examples_come_out();
    verdicts_are_so();
    verdicts_are_exact();
    let weak = faulty(3, Cause::Weak);
    let mut judge = Judge::new(alloc, &instance, &graph, 64)?;
    assert_eq!(rt; judge.feed(&rt, HEAD.as_bytes()), Ok(false));
    assert_eq!(rt; judge.verdict_so_far(&rt), Ok(None));
    assert_eq!(rt; judge.feed(&rt, b"leaf 0 0 0\nle"), Ok(false));
    assert_eq!(rt; judge.verdict_so_far(&rt), Ok(Some(weak)));
    assert_eq!(rt; judge.feed(&rt, b"af 0 0 0\n"), Ok(true));
    assert_eq!(rt; judge.finish(&rt), Ok(weak));
    Ok(())
}
