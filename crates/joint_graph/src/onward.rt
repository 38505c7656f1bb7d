//! The heaviest ways on to a target.

ghost use Rattle.std.specs.Prelude.{◌≡◌, ◌≤◌, ℕ, List, Some, None, length, slice_index_or, IfOk};
ghost use Rattle.weight_vec.specs.Weight.{IsInRange, plus};
ghost use Rattle.label_graph.specs.Graph.{IsKnown, mark_weight};
ghost use Rattle.joint_graph.specs.Joints.{IsType};
ghost use Rattle.joint_graph.specs.inner.Passes.{AreWaysOn, relax};

use crate::graph::Joint;
use arc_num::Memory;
use label_graph::{Mark, Piece};
use std::alloc::Global;
use weight_vec::Weights;

/// For each node the greatest weights of its ways on to the target of a type, if there are any, in one pass from the
/// last arc to the first.
pub fn ways_on<const N: usize>(
    alloc: Global,
    graph: &Joint<N>,
    t: usize,
) -> Result<Vec<Option<Weights<N>>>, Memory>
    requires small { N ≤ 32 }
    requires in_range { IsType graph.now.caps t }
    ensures { IfOk result (λ ways. AreWaysOn graph.now t ways.items) }
{
    graph.known();
    let arcs = graph.arcs();
    let inner = graph.inner() as usize;
    let mut ways = no_ways(alloc, inner + graph.caps().len())?;
    ways[inner + t - 1] = Some(Weights::zero());
    for index in (0..arcs.len()).rev() {
        let arc = &arcs[index];
        let tail = arc.tail as usize - 1;
        let head = arc.head as usize - 1;
        let behind = ways[head];
        let here = ways[tail];
        ways[tail] = relaxed(graph.pieces(), arc.mark, here, behind);
    }
    Ok(ways)
}

// A list of so many nodes without a way.
fn no_ways<const N: usize>(alloc: Global, count: usize) -> Result<Vec<Option<Weights<N>>>, Memory>
    requires small { N ≤ 32 }
    ensures sized { IfOk result (λ ways. length ways.items ≡ count) }
    ensures empty { IfOk result (λ ways. (k : ℕ) → slice_index_or ways.items k None ≡ None) }
{
    let mut ways = Vec::with_capacity(alloc, count)?;
    for _index in 0..count {
        ways.push(None)?;
    }
    Ok(ways)
}

// The heavier of the way from here and the way over an arc with this mark, if there are any.
fn relaxed<const N: usize>(
    pieces: &[Piece<N>],
    mark: Mark,
    here: Option<Weights<N>>,
    behind: Option<Weights<N>>,
) -> Option<Weights<N>>
    requires small { N ≤ 32 }
    requires known { IsKnown pieces.now mark }
    requires range { (b : List ℕ) → behind ≡ Some b → IsInRange (plus b (mark_weight pieces.now mark)) }
    ensures { result ≡ relax (mark_weight pieces.now mark) here.entry behind.entry }
{
    let Some(behind) = behind else {
        return here;
    };
    let way = carried(pieces, mark, &behind);
    match here {
        None => Some(way),
        Some(here) => Some(here.high(&way)),
    }
}

// The weight with what an arc with this mark carries.
pub fn carried<const N: usize>(pieces: &[Piece<N>], mark: Mark, weight: &Weights<N>) -> Weights<N>
    requires small { N ≤ 32 }
    requires known { IsKnown pieces.now mark }
    requires range { IsInRange (plus weight.now (mark_weight pieces.now mark)) }
    ensures { result ≡ plus weight.now (mark_weight pieces.now mark) }
{
    match mark {
        Mark::Loss => *weight,
        Mark::Piece(number) => weight.plus(&pieces[number as usize - 1].weight),
    }
}
