ghost use Rattle.std.specs.Prelude.{◌≡◌, ◌+◌, ◌≤◌, All, IsTrue};
ghost use Rattle.weight_vec.specs.Weight.{AtMost, IsZero};
ghost use Rattle.level_graph.specs.Levels.{IsPieceList};

use crate::build_main;
use arc_num::MAX_ALL_FORMS;
use label_graph::{Graph, GraphFault, Piece};
use level_graph::levels;
use main_compress::compress_main;
use std::alloc::Global;
use std::process::Abort;
use std::test::Fail;
use weight_vec::Weights;

// Are these pieces numbered by item in their order, with copies, and each of a weight that fits?
fn are_pieces<const N: usize>(pieces: &[Piece<N>], cap: &Weights<N>) -> bool
    requires small { N ≤ 32 }
    ensures { IsTrue result → IsPieceList pieces.now cap.now }
{
    if pieces.len() > MAX_ALL_FORMS as usize {
        return false;
    }
    for index in 0..pieces.len() {
        if !is_piece(index, &pieces[index], cap) {
            return false;
        }
    }
    true
}

fn is_piece<const N: usize>(index: usize, piece: &Piece<N>, cap: &Weights<N>) -> bool
    requires small { N ≤ 32 }
    ensures { IsTrue result → ((piece.now.item ≡ index + 1) × (1 ≤ piece.now.copies) × (IsZero piece.now.weight → ⊥) × AtMost piece.now.weight cap.now) }
{
    piece.item > 0
        && piece.item as usize - 1 == index
        && piece.copies > 0
        && !piece.weight.is_zero()
        && piece.weight.fits(cap)
}

fn padded<const N: usize>(part: &[u32]) -> Weights<N>
    requires small { N ≤ 32 }
{
    match Weights::pad_from(part) {
        Some(weights) => weights,
        None => Weights::zero(),
    }
}

fn all_fit<const N: usize>(labels: &[Weights<N>], cap: &Weights<N>) -> bool
    requires small { N ≤ 32 }
    ensures { IsTrue result → All (λ l. AtMost l cap.now) labels.now }
{
    for index in 0..labels.len() {
        if !labels[index].fits(cap) {
            return false;
        }
    }
    true
}

// The graph from lifted states is the one from the level graph, and is refused where that one is.
fn is_main<const N: usize>(
    rt: &impl Abort,
    alloc: Global,
    pieces: &[Piece<N>],
    cap: &Weights<N>,
) -> Result<(usize, usize), Fail>
    requires small { N ≤ 32 }
{
    assert!(rt; are_pieces(pieces, cap));
    let level: Graph<N> = levels(alloc, pieces, cap)?;
    assert!(rt; all_fit(level.labels(), cap));
    let plain = compress_main(alloc, &level, cap, u32::MAX)?;
    let lifted = build_main(alloc, pieces, cap, u32::MAX)?;
    assert!(rt; lifted.labels() == plain.labels());
    assert!(rt; lifted.arcs() == plain.arcs());
    assert!(rt; lifted.pieces() == plain.pieces());
    let count = plain.arcs().len();
    if count > 0 && count <= u32::MAX as usize {
        let room = count as u32;
        assert!(rt; build_main(alloc, pieces, cap, room).is_ok());
        match build_main(alloc, pieces, cap, room - 1) {
            Err(fault) => assert_eq!(rt; fault, GraphFault::TooManyArcs),
            Ok(_) => return Err("there is no room for all arcs".into()),
        }
    }
    Ok((plain.labels().len(), count))
}

// The same for a row of a capacity and of weights with their copies, with the nodes and arcs that it has.
fn has_main<const N: usize>(
    rt: &impl Abort,
    alloc: Global,
    cap: &[u32],
    forms: &[(&[u32], u32)],
    wanted: (usize, usize),
) -> Result<(), Fail>
    requires small { N ≤ 32 }
{
    let cap: Weights<N> = padded(cap);
    let mut pieces = Vec::new(alloc);
    let mut item: u32 = 0;
    for (weight, copies) in forms {
        item = item.checked_add(1).ok_or("many forms")?;
        pieces.push(Piece {
            item,
            form: 1,
            weight: padded(weight),
            copies: *copies,
        })?;
    }
    let counts = is_main(rt, alloc, pieces.as_slice(), &cap)?;
    assert_eq!(rt; counts, wanted);
    Ok(())
}

#[test]
fn rows_have_their_main_graphs(rt: HostRuntime) -> Result<(), Fail> {
    let one: [(&[u32], &[(&[u32], u32)], (usize, usize)); 6] = [
        (&[9], &[(&[4], 1), (&[3], 3), (&[2], 1)], (6, 11)),
        (&[2], &[(&[1], 3)], (3, 4)),
        (&[10], &[(&[6], 1), (&[5], 1)], (3, 4)),
        (&[10], &[(&[6], 2)], (2, 2)),
        (&[7], &[(&[7], 1), (&[2], 9), (&[1], 1)], (5, 9)),
        (&[10], &[], (1, 0)),
    ];
    for (cap, forms, wanted) in one {
        has_main::<1>(&rt, rt.alloc(), cap, forms, wanted)?;
    }
    let two: [(&[u32], &[(&[u32], u32)], (usize, usize)); 2] = [
        (&[5, 5], &[(&[3, 2], 2), (&[2, 3], 2)], (3, 4)),
        (&[3, 3], &[(&[3, 0], 2), (&[0, 3], 2)], (3, 4)),
    ];
    for (cap, forms, wanted) in two {
        has_main::<2>(&rt, rt.alloc(), cap, forms, wanted)?;
    }
    Ok(())
}

#[test]
fn cutting_list_of_thirteen_widths(rt: HostRuntime) -> Result<(), Fail> {
    let widths: [(u32, u32); 13] = [
        (2200, 20),
        (2150, 18),
        (2140, 16),
        (2100, 14),
        (2050, 12),
        (2000, 10),
        (1930, 20),
        (1880, 18),
        (1820, 18),
        (1710, 14),
        (1560, 12),
        (1520, 25),
        (1380, 22),
    ];
    let mut pieces = Vec::new(rt.alloc());
    let mut item: u32 = 0;
    for (width, copies) in widths {
        item = item.checked_add(1).ok_or("many widths")?;
        pieces.push(Piece {
            item,
            form: 1,
            weight: padded(&[width]),
            copies,
        })?;
    }
    let cap: Weights<1> = padded(&[5600]);
    let counts = is_main(&rt, rt.alloc(), pieces.as_slice(), &cap)?;
    assert_eq!(rt; counts, (25, 81));
    Ok(())
}

// The next number of a row without a pattern.
fn next_number(number: u32) -> u32 {
    number.wrapping_mul(1_664_525).wrapping_add(1_013_904_223)
}

// A row of pieces without a pattern, and the number behind the last one that it took.
fn some_pieces<const N: usize>(alloc: Global, from: u32) -> Result<(Vec<Piece<N>>, u32), Fail>
    requires small { N ≤ 32 }
{
    let mut pieces = Vec::new(alloc);
    let mut number = from;
    for item in 1..5u32 {
        let mut parts = [0; N];
        for d in 0..N {
            number = next_number(number);
            parts[d] = number / 65_536 % 6 + u32::from(d == 0);
        }
        pieces.push(Piece {
            item,
            form: 1,
            weight: padded(&parts),
            copies: number / 4_096 % 3 + 1,
        })?;
    }
    Ok((pieces, number))
}

// So many rows of pieces without a pattern have the main graphs of their level graphs.
fn small_lists<const N: usize>(rt: &impl Abort, alloc: Global, count: u32) -> Result<(), Fail>
    requires small { N ≤ 32 }
{
    let cap: Weights<N> = padded(&[12; N]);
    let mut number: u32 = 17;
    for _ in 0..count {
        let (pieces, next) = some_pieces::<N>(alloc, number)?;
        number = next;
        is_main(rt, alloc, pieces.as_slice(), &cap)?;
    }
    Ok(())
}

#[test]
fn small_lists_without_a_pattern(rt: HostRuntime) -> Result<(), Fail> {
    small_lists::<1>(&rt, rt.alloc(), 67)?;
    small_lists::<2>(&rt, rt.alloc(), 67)?;
    small_lists::<3>(&rt, rt.alloc(), 67)
}
