//! The heaviest ways from the source.

ghost use Rattle.std.specs.Prelude.{◌≤◌, IfOk};
ghost use Rattle.joint_graph.specs.Merged.{IsJointFinal};
ghost use Rattle.joint_graph.specs.inner.Passes.{AreWaysTo};

use crate::graph::Joint;
use crate::merging::image;
use crate::onward::carried;
use crate::ranks::rank_all;
use arc_num::Memory;
use std::alloc::Global;
use weight_vec::Weights;

/// The joint final graph of a joint graph.
pub fn joint_final<const N: usize>(alloc: Global, graph: &Joint<N>) -> Result<Joint<N>, Memory>
    requires small { N ≤ 32 }
    ensures { IfOk result (IsJointFinal graph.now) }
{
    graph.known();
    let weights = ways_to(alloc, graph)?;
    let inner = graph.inner() as usize;
    let ranked = rank_all(alloc, &weights.as_slice()[..inner])?;
    image(alloc, graph, &ranked)
}

// For each node the greatest weights of the ways from the source, in one pass from the first arc to the last.
fn ways_to<const N: usize>(alloc: Global, graph: &Joint<N>) -> Result<Vec<Weights<N>>, Memory>
    requires small { N ≤ 32 }
    ensures { IfOk result (λ weights. AreWaysTo graph.now weights.items) }
{
    graph.known();
    let inner = graph.inner() as usize;
    let mut weights = vec![in alloc; Weights::zero(); inner + graph.caps().len()]?;
    for arc in graph.arcs() {
        let tail = arc.tail as usize - 1;
        let head = arc.head as usize - 1;
        let brought = carried(graph.pieces(), arc.mark, &weights[tail]);
        let here = weights[head];
        weights[head] = here.high(&brought);
    }
    Ok(weights)
}
