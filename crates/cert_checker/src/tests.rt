//! Certificates that are worked by hand, for three units of an item of which a bin holds two.

use crate::{CheckFault, check};
use arc_num::{Listed, Memory};
use cert_text::{ArcPart, ArcPrice, Certificate, Claim, ItemPrice, Need, Prices, TreeLine};
use flow_model::{examples_come_out, graph_of_two, three_of_one};
use std::alloc::Global;
use std::test::Fail;

mod batches;
mod singles;

/// What the trees below differ in.
#[derive(Clone, Copy)]
struct Tree {
    arc: u32,
    k: u32,
    item: u32,
    price: i64,
    last_price: i64,
    last_leaves: u32,
}

const SHOWN: Tree = Tree {
    arc: 1,
    k: 1,
    item: 1,
    price: -2,
    last_price: 3,
    last_leaves: 1,
};

/// Prices without a measure that close the box of at most one bin.
fn first_leaf(alloc: Global, tree: &Tree) -> Result<TreeLine, Memory> {
    let item = ItemPrice {
        item: tree.item,
        price: 1,
    };
    let arc = ArcPrice {
        arc: 1,
        price: tree.price,
    };
    Ok(TreeLine::Leaf(Prices {
        scale: 0,
        items: Listed::new(vec![in alloc; item]?),
        arcs: Listed::new(vec![in alloc; arc]?),
    }))
}

/// A price of a bin: 3 shows that two cost 6.
fn last_leaf(alloc: Global, tree: &Tree) -> Result<TreeLine, Memory> {
    let arc = ArcPrice {
        arc: 1,
        price: tree.last_price,
    };
    Ok(TreeLine::Leaf(Prices {
        scale: 1,
        items: Listed::empty(alloc),
        arcs: Listed::new(vec![in alloc; arc]?),
    }))
}

/// A first place of the tree, and then the leaves.
fn leaves(alloc: Global, first: TreeLine, tree: &Tree) -> Result<Listed<TreeLine>, Memory> {
    let mut lines = Listed::empty(alloc);
    lines.push(first)?;
    lines.push(first_leaf(alloc, tree)?)?;
    for _ in 0..tree.last_leaves {
        lines.push(last_leaf(alloc, tree)?)?;
    }
    Ok(lines)
}

fn of_version_1(alloc: Global, bound: u64, tree: &Tree) -> Result<Certificate, Memory> {
    let split = TreeLine::Split {
        arc: tree.arc,
        k: tree.k,
    };
    Ok(Certificate {
        version: 1,
        claim: Claim::Bound(bound),
        goal: None,
        lines: leaves(alloc, split, tree)?,
    })
}

/// A split that needs one and a half bins, under a goal that is the bound.
fn of_version_2(alloc: Global, bound: u64) -> Result<Certificate, Memory> {
    let bins = ArcPart { arc: 1, value: 3 };
    let first = ArcPart { arc: 2, value: 3 };
    let second = ArcPart { arc: 5, value: 3 };
    let split = TreeLine::Needed {
        arc: 1,
        k: 1,
        need: Need {
            scale: 2,
            parts: Listed::new(Vec::from_slice(alloc, &[bins, first, second])?),
        },
    };
    Ok(Certificate {
        version: 2,
        claim: Claim::Bound(bound),
        goal: Some(bound),
        lines: leaves(alloc, split, &SHOWN)?,
    })
}

#[test]
fn trees_of_two_leaves(rt: HostRuntime) -> Result<(), Fail> {
    let alloc = rt.alloc();
    let instance = three_of_one(alloc)?.ok_or("no instance")?;
    let graph = graph_of_two(alloc)?;
    examples_come_out();
    for (bound, tree, answer) in [
        (6, SHOWN, Ok(Claim::Bound(6))),
        (7, SHOWN, Err(CheckFault::Weak { line: 5 })),
        (
            6,
            Tree { price: -1, ..SHOWN },
            Err(CheckFault::Gain { line: 4, t: 1 }),
        ),
        (
            6,
            Tree { k: 3, ..SHOWN },
            Err(CheckFault::NotSplit { line: 3 }),
        ),
        (
            6,
            Tree { item: 2, ..SHOWN },
            Err(CheckFault::NoItem { line: 4 }),
        ),
        (
            6,
            Tree { arc: 6, ..SHOWN },
            Err(CheckFault::NoArc { line: 3 }),
        ),
        (
            6,
            Tree {
                last_leaves: 0,
                ..SHOWN
            },
            Err(CheckFault::Unfinished { line: 5 }),
        ),
        (
            6,
            Tree {
                last_leaves: 2,
                ..SHOWN
            },
            Err(CheckFault::Extra { line: 6 }),
        ),
    ] {
        let certificate = of_version_1(alloc, bound, &tree)?;
        assert_eq!(rt;
            check(&rt, alloc, &instance, &graph, &certificate, 1),
            answer
        );
    }
    Ok(())
}

#[test]
fn splits_that_are_needed(rt: HostRuntime) -> Result<(), Fail> {
    let alloc = rt.alloc();
    let instance = three_of_one(alloc)?.ok_or("no instance")?;
    let graph = graph_of_two(alloc)?;
    examples_come_out();
    for (bound, answer) in [
        (6, Ok(Claim::Bound(6))),
        (5, Err(CheckFault::NotNeeded { line: 3 })),
    ] {
        let certificate = of_version_2(alloc, bound)?;
        assert_eq!(rt;
            check(&rt, alloc, &instance, &graph, &certificate, 1),
            answer
        );
    }
    Ok(())
}
