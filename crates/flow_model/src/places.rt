//! Where the nodes of the types stand, all in one row.

ghost use Rattle.std.specs.Prelude.{◌≡◌, ◌+◌, ◌-◌, ◌<◌, ◌≤◌, ◌^◌, IfOk, length, sum_by, slice_index};
ghost use Rattle.packing_laws.specs.Instances.{IsAmong};
ghost use Rattle.flow_graph.specs.Arcs.{flow_type};
ghost use Rattle.flow_model.specs.Tallies.{AreStarts};

use arc_num::{MAX_NUMBERED, Memory};
use flow_graph::FlowGraph;
use std::alloc::Global;

/// How many nodes no type has, the first, the first two, and so on up to all types.
pub(crate) fn node_starts(alloc: Global, graph: &FlowGraph) -> Result<Vec<u32>, Memory>
    requires { sum_by (λ x. x.nodes) graph.now ≤ MAX_NUMBERED }
    ensures { IfOk result (λ starts. AreStarts graph.now starts.items) }
{
    let count = graph.type_count();
    let mut starts = Vec::with_capacity(alloc, count as usize + 1)?;
    let mut nodes = 0;
    starts.push(nodes)?;
    for t in 0..count {
        nodes += node_count(graph, t + 1);
        starts.push(nodes)?;
    }
    Ok(starts)
}

/// The place of a node of a type, from 1.
pub(crate) fn node_place(starts: &[u32], t: u32, node: u32) -> u32
    requires low { 1 ≤ t }
    requires high { t ≤ length starts.now }
    requires small { slice_index starts.now (t - 1) + node < 2 ^ 32 }
    ensures { result ≡ slice_index starts.now (t - 1) + node }
{
    starts[t as usize - 1] + node
}

/// How many nodes a type has.
pub(crate) fn node_count(graph: &FlowGraph, t: u32) -> u32
    requires { IsAmong t (length graph.now) }
    ensures { result ≡ (flow_type graph.now t).nodes }
{
    match graph.node_count(t) {
        Some(nodes) => nodes,
        None => 0,
    }
}
