//! Walks from the source of a type to its target over arcs on which something is left.

ghost use Rattle.std.specs.Prelude.{◌≡◌, ℕ, ◌-◌, ◌≤◌, ◌<◌, IfOk, List, All, length, slice_index};
ghost use Rattle.packing_laws.specs.Instances.{IsAmong};
ghost use Rattle.flow_graph.specs.Arcs.{flow_type, numbered, first_arc};
ghost use Rattle.pattern_extract.specs.Runs.{AreConserved, IsRun};
ghost use Rattle.pattern_extract.specs.inner.Walks.{AreCursors, IsUsedUp, IsWayOn, circuit_of, goes_on, head_of};

use crate::runs::PathRun;
use arc_num::{Listed, Memory};
use flow_graph::{ArcKind, FlowGraph, TypeArc};
use std::alloc::Global;

/// A run over the first way on from each node, as often as there is something left on all of its arcs.
pub(crate) fn walk(
    alloc: Global,
    graph: &FlowGraph,
    t: u32,
    left: &[u64],
    cursors: &mut [usize],
) -> Result<PathRun, Memory>
    requires of_type { IsAmong t (length graph.now) }
    requires size { length left.now ≡ length (numbered graph.now) }
    requires nodes { length cursors.old ≡ (flow_type graph.now t).nodes }
    requires conserved { AreConserved graph.now left.now }
    requires some { 0 < slice_index left.now (first_arc graph.now t - 1) }
    requires cursors { AreCursors graph.now t left.now cursors.old }
    ensures run { IfOk result (λ run. IsRun graph.now run) }
    ensures of_type { IfOk result (λ run. run.t ≡ t) }
    ensures left { IfOk result (λ run. All (λ a. run.times ≤ slice_index left.now (a - 1)) (circuit_of graph.now run)) }
    ensures used { IfOk result (λ run. IsUsedUp left.now run.times (circuit_of graph.now run)) }
    ensures cursors { AreCursors graph.now t left.now cursors.new }
{
    graph.known();
    let nodes = target(graph, t);
    let row = graph.row();
    let mut arcs = Vec::new(alloc);
    let mut times = left[bin_arc(graph, t) as usize - 1];
    let mut node = 1;
    while node != nodes {
        let place = advance(graph, t, node, left, cursors);
        arcs.push(place as u32 + 1)?;
        times = times.min(left[place]);
        node = head(&row[place]);
    }
    Ok(PathRun {
        t,
        times,
        arcs: Listed::new(arcs),
    })
}

/// For each node of a type, the place of the first arc that goes on from it; 0 for the target.
pub(crate) fn first_places(alloc: Global, graph: &FlowGraph, t: u32) -> Result<Vec<usize>, Memory>
    requires { IsAmong t (length graph.now) }
    ensures nodes { IfOk result (λ places. length places.items ≡ (flow_type graph.now t).nodes) }
    ensures first { IfOk result (λ places. (left : List ℕ) → AreCursors graph.now t left places.items) }
{
    graph.known();
    let arcs = type_arcs(graph, t);
    let first = bin_arc(graph, t) as usize;
    let mut places = zeros(alloc, target(graph, t) as usize)?;
    for at in (0..arcs.len()).rev() {
        places[arcs[at].tail as usize - 1] = first + at;
    }
    Ok(places)
}

/// So many zeros.
fn zeros(alloc: Global, count: usize) -> Result<Vec<usize>, Memory>
    ensures { IfOk result (λ v. length v.items ≡ count) }
{
    Ok(vec![in alloc; 0; count]?)
}

/// The arcs of a type but for its bin arc.
fn type_arcs(graph: &FlowGraph, t: u32) -> &[TypeArc]
    requires { IsAmong t (length graph.now) }
    ensures { result.now ≡ (flow_type graph.now t).arcs }
{
    match graph.type_arcs(t) {
        Some(arcs) => arcs,
        None => unreachable!(),
    }
}

/// The last node of a type.
pub(crate) fn target(graph: &FlowGraph, t: u32) -> u32
    requires { IsAmong t (length graph.now) }
    ensures { result ≡ (flow_type graph.now t).nodes }
{
    match graph.node_count(t) {
        Some(nodes) => nodes,
        None => unreachable!(),
    }
}

/// The number of the bin arc of a type.
pub(crate) fn bin_arc(graph: &FlowGraph, t: u32) -> u32
    requires { IsAmong t (length graph.now) }
    ensures { result ≡ first_arc graph.now t }
{
    match graph.arcs_of(t) {
        Some((first, _)) => first,
        None => unreachable!(),
    }
}

/// The place of the first way on from a node, which is kept for the node.
fn advance(graph: &FlowGraph, t: u32, node: u32, left: &[u64], cursors: &mut [usize]) -> usize
    requires size { length left.now ≡ length (numbered graph.now) }
    requires node { IsAmong node (length cursors.old) }
    requires some { (k : ℕ) × IsWayOn (numbered graph.now) left.now t node k }
    requires cursors { AreCursors graph.now t left.now cursors.old }
    ensures way { IsWayOn (numbered graph.now) left.now t node result }
    ensures cursors { AreCursors graph.now t left.now cursors.new }
{
    let from = cursors[node as usize - 1];
    let place = next_way(graph.row(), t, node, left, from);
    cursors[node as usize - 1] = place;
    place
}

/// The place of the first way on from a node that stands not before the given one.
fn next_way(row: &[ArcKind], t: u32, node: u32, left: &[u64], from: usize) -> usize
    requires size { length left.now ≡ length row.now }
    requires some { (k : ℕ) × (from ≤ k) × IsWayOn row.now left.now t node k }
    ensures way { IsWayOn row.now left.now t node result }
    ensures first { (k : ℕ) → from ≤ k → IsWayOn row.now left.now t node k → result ≤ k }
{
    for place in from..row.len() {
        if left[place] > 0 && is_on(&row[place], t, node) {
            return place;
        }
    }
    unreachable!()
}

/// Whether an arc goes on from a node.
fn is_on(kind: &ArcKind, t: u32, node: u32) -> bool
    ensures { result ≡ goes_on t node kind.now }
{
    match *kind {
        ArcKind::Bin { .. } => false,
        ArcKind::Loss { t: s, tail, .. } | ArcKind::Piece { t: s, tail, .. } => {
            s == t && tail == node
        }
    }
}

/// Where an arc ends.
fn head(kind: &ArcKind) -> u32
    ensures { result ≡ head_of kind.now }
{
    match *kind {
        ArcKind::Bin { .. } => 1,
        ArcKind::Loss { head, .. } | ArcKind::Piece { head, .. } => head,
    }
}
