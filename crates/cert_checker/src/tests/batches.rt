//! Lines that are taken together, and leaves that are judged side by side.

use crate::tests::{SHOWN, Tree, of_version_1};
use crate::{CheckFault, Checker, check, check_gated};
use arc_num::{Gate, Memory};
use cert_text::{CertLine, Claim};
use flow_model::{examples_come_out, graph_of_two, three_of_one};
use std::alloc::Global;
use std::sync::atomic::{AtomicBool, Ordering};
use std::test::Fail;

#[test]
fn first_faulty_leaf_for_any_number_of_workers(rt: HostRuntime) -> Result<(), Fail> {
    let alloc = rt.alloc();
    let instance = three_of_one(alloc)?.ok_or("no instance")?;
    let graph = graph_of_two(alloc)?;
    examples_come_out();
    for (price, line) in [(-1, 4), (-2, 5)] {
        let tree = Tree {
            price,
            last_price: 4,
            ..SHOWN
        };
        let certificate = of_version_1(alloc, 6, &tree)?;
        let answer = Err(CheckFault::Gain { line, t: 1 });
        for workers in 1..65 {
            assert_eq!(rt;
                check(&rt, alloc, &instance, &graph, &certificate, workers),
                answer
            );
        }
    }
    Ok(())
}

/// A gate that holds the first leaf back until the second has come, for at most so many turns.
#[derive(Drop)]
struct Meeting {
    second_came: AtomicBool,
    met: AtomicBool,
}

const TURNS: u64 = 500_000_000;

impl Gate for Meeting {
    fn pass(&self, piece: u32) {
        if piece == 2 {
            self.second_came.store(true, Ordering::SeqCst);
        } else if piece == 1 {
            for _ in 0..TURNS {
                if self.second_came.load(Ordering::SeqCst) {
                    self.met.store(true, Ordering::SeqCst);
                    return;
                }
            }
        }
    }
}

#[test]
fn two_leaves_at_once(rt: HostRuntime) -> Result<(), Fail> {
    let alloc = rt.alloc();
    let instance = three_of_one(alloc)?.ok_or("no instance")?;
    let graph = graph_of_two(alloc)?;
    examples_come_out();
    let certificate = of_version_1(alloc, 6, &SHOWN)?;
    let gate = Meeting {
        second_came: AtomicBool::new(false),
        met: AtomicBool::new(false),
    };
    assert_eq!(rt;
        check_gated(&rt, alloc, &instance, &graph, &certificate, 2, &gate),
        Ok(Claim::Bound(6))
    );
    assert!(rt; gate.met.load(Ordering::SeqCst));
    Ok(())
}

/// A certificate of version 1, line by line.
fn lines_of(alloc: Global, bound: u64, tree: &Tree) -> Result<Vec<CertLine>, Memory> {
    let certificate = of_version_1(alloc, bound, tree)?;
    let head = CertLine::Head { version: 1 };
    let claim = CertLine::Claim {
        claim: certificate.claim,
        goal: certificate.goal,
    };
    let mut lines = Vec::new(alloc);
    lines.push(head)?;
    lines.push(claim)?;
    for place in certificate.lines.as_slice() {
        lines.push(CertLine::Tree(place.clone()?))?;
    }
    lines.push(CertLine::End)?;
    Ok(lines)
}

#[test]
fn lines_taken_together(rt: HostRuntime) -> Result<(), Fail> {
    let alloc = rt.alloc();
    let instance = three_of_one(alloc)?.ok_or("no instance")?;
    let graph = graph_of_two(alloc)?;
    examples_come_out();
    for (bound, answer) in [
        (6, Ok(Claim::Bound(6))),
        (7, Err(CheckFault::Weak { line: 5 })),
    ] {
        let lines = lines_of(alloc, bound, &SHOWN)?;
        for workers in 1..65 {
            let mut checker = Checker::new(alloc, &instance, &graph)?;
            let stepped = checker.step_batch(&rt, lines.as_slice(), workers);
            assert_eq!(rt; stepped.is_ok(), answer.is_ok());
            assert_eq!(rt; checker.finish(), answer);
        }
    }
    Ok(())
}
