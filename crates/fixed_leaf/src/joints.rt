//! The arcs of a graph between the nodes of all types in one row.

ghost use Rattle.std.specs.Prelude.{◌≡◌, ℕ, ◌+◌, ◌<◌, ◌≤◌, ◌^◌, All, IfOk, length, false, sum_by, slice_index_or};
ghost use Rattle.packing_laws.specs.Instances.{IsAmong};
ghost use Rattle.flow_graph.specs.Arcs.{numbered, flow_type};
ghost use Rattle.flow_graph.specs.Faithful.{GraphOf};
ghost use Rattle.flow_model.specs.Tallies.{AreStarts};
ghost use Rattle.flow_model.specs.inner.Sums.{IsPlaced, IsTypeIn, head_in, tail_in};
ghost use Rattle.fixed_leaf.specs.inner.Nets.{AreJoints, IsJointAt, IsNetOf, Reaches};

use arc_num::{Listed, MAX_NUMBERED, Memory};
use flow_graph::{ArcKind, FlowGraph, nodes_are_few};
use packing_laws::Instance;
use std::alloc::Global;

/// An arc from one node to another, by their places from 0.
#[derive(Clone, Copy, Debug, PartialEq, Eq)]
pub(crate) struct Joint {
    pub tail: usize,
    pub head: usize,
    /// It is the first arc, bin arcs aside, that ends in its head.
    pub tree: bool,
}

/// All arcs, by number, and how many nodes they join.
#[derive(Debug, Drop)]
pub(crate) struct Net {
    pub nodes: usize,
    pub joints: Listed<Joint>,
}

/// The arcs of a graph.
pub(crate) fn net_of(alloc: Global, instance: &Instance, graph: &FlowGraph) -> Result<Net, Memory>
    requires { GraphOf instance.now graph.now }
    ensures { IfOk result (IsNetOf graph.now) }
{
    instance.known();
    graph.known();
    nodes_are_few();
    let starts = node_starts(alloc, graph)?;
    let nodes = starts[graph.type_count() as usize] as usize;
    let mut reached = vec![in alloc; false; nodes]?;
    let joints = joints_of(alloc, graph, starts.as_slice(), reached.as_mut_slice())?;
    Ok(Net { nodes, joints })
}

// How many nodes no type has, the first, the first two, and so on up to all types.
fn node_starts(alloc: Global, graph: &FlowGraph) -> Result<Vec<u32>, Memory>
    requires { sum_by (λ x. x.nodes) graph.now ≤ MAX_NUMBERED }
    ensures { IfOk result (λ starts. AreStarts graph.now starts.items) }
{
    let mut starts = Vec::new(alloc);
    let mut nodes = 0;
    starts.push(nodes)?;
    for t in 0..graph.type_count() {
        nodes += node_count(graph, t + 1);
        starts.push(nodes)?;
    }
    Ok(starts)
}

// How many nodes a type has.
fn node_count(graph: &FlowGraph, t: u32) -> u32
    requires { IsAmong t (length graph.now) }
    ensures { result ≡ (flow_type graph.now t).nodes }
{
    match graph.node_count(t) {
        Some(nodes) => nodes,
        None => unreachable!(),
    }
}

// All arcs in order, where no node is reached before.
fn joints_of(
    alloc: Global,
    graph: &FlowGraph,
    starts: &[u32],
    reached: &mut [bool],
) -> Result<Listed<Joint>, Memory>
    requires starts { AreStarts graph.now starts.now }
    requires placed { All (IsPlaced (length reached.old) starts.now) (numbered graph.now) }
    requires few { length reached.old < 2 ^ 32 }
    requires none { (p : ℕ) → slice_index_or reached.old p false ≡ false }
    ensures { IfOk result (AreJoints graph.now) }
{
    graph.known();
    let mut joints = Listed::empty(alloc);
    for kind in graph.row() {
        joints.push(next_joint(starts, kind, reached))?;
    }
    Ok(joints)
}

// An arc, where the nodes are told that an arc before it reaches, bin arcs aside. It reaches its head.
fn next_joint(starts: &[u32], kind: &ArcKind, reached: &mut [bool]) -> Joint
    requires placed { IsPlaced (length reached.old) starts.now kind.now }
    requires few { length reached.old < 2 ^ 32 }
    ensures joint { IsJointAt starts.now kind.now reached.old result }
    ensures reached { Reaches starts.now kind.now reached.old reached.new }
{
    let (tail, head) = ends(starts, kind);
    if let ArcKind::Bin { .. } = *kind {
        return Joint {
            tail,
            head,
            tree: false,
        };
    }
    let tree = !reached[head];
    reached[head] = true;
    Joint { tail, head, tree }
}

// The places of the nodes that an arc goes out of and comes into.
fn ends(starts: &[u32], kind: &ArcKind) -> (usize, usize)
    requires of_type { IsTypeIn starts.now kind.now }
    requires tail { 1 ≤ tail_in starts.now kind.now }
    requires head { 1 ≤ head_in starts.now kind.now }
    ensures tail { result.0 + 1 ≡ tail_in starts.now kind.now }
    ensures head { result.1 + 1 ≡ head_in starts.now kind.now }
{
    match *kind {
        ArcKind::Bin { t } => (
            starts[t as usize] as usize - 1,
            starts[t as usize - 1] as usize,
        ),
        ArcKind::Loss { t, tail, head } | ArcKind::Piece { t, tail, head, .. } => {
            let start = starts[t as usize - 1] as usize;
            (start + tail as usize - 1, start + head as usize - 1)
        }
    }
}
