//! Walks from the source to a target over arcs on which something is left.

ghost use Rattle.std.specs.Prelude.{◌≡◌, ℕ, ◌≤◌, ◌<◌, ◌^◌, IfOk, List, length, slice_index};
ghost use Rattle.packing_laws.specs.Instances.{IsAmong};
ghost use Rattle.joint_arcs.specs.Joined.{head_of, numbered};
ghost use Rattle.joint_extract.specs.inner.Circuits.{AreConserved, AreCursors, HasBins, HaveLeft, IsCircuit, IsWayOn, start_of};

use crate::circuits::Circuit;
use arc_num::{Listed, Memory};
use flow_graph::ArcKind;
use joint_arcs::JointArcs;
use packing_laws::{Bin, Counts};
use pattern_extract::put_unit;
use std::alloc::Global;

/// A circuit over the first way on from each node, as often as there is something left on all of its arcs. Its type is that of
/// the target to which the walk comes.
pub(crate) fn walk_round(
    alloc: Global,
    graph: &JointArcs,
    left: &[u64],
    cursors: &mut [usize],
) -> Result<Circuit, Memory>
    requires size { length left.now ≡ length (numbered graph.now) }
    requires small { (k : ℕ) → slice_index left.now k < 2 ^ 32 }
    requires nodes { length cursors.old ≡ graph.now.inner }
    requires conserved { AreConserved graph.now left.now }
    requires some { HasBins graph.now left.now }
    requires cursors { AreCursors graph.now left.now cursors.old }
    ensures circuit { IfOk result (λ circuit. IsCircuit graph.now circuit.bin circuit.arcs) }
    ensures left { IfOk result (λ circuit. HaveLeft left.now circuit.bin.times circuit.arcs) }
    ensures cursors { AreCursors graph.now left.now cursors.new }
{
    graph.known();
    let inner = graph.inner_count();
    let row = graph.row();
    let mut arcs = Vec::new(alloc);
    let mut counts = Vec::new(alloc);
    let mut times = u64::MAX;
    let mut node = 1;
    while node <= inner {
        let place = advance(graph, node, left, cursors);
        arcs.push(place as u32 + 1)?;
        put_unit(&mut counts, &row[place])?;
        times = times.min(left[place]);
        node = head(&row[place]);
    }
    let t = node - inner;
    arcs.push(t)?;
    times = times.min(left[t as usize - 1]);
    Ok(Circuit {
        bin: Bin {
            bin_type: t,
            times: times as u32,
            counts: Counts::new(counts),
        },
        arcs: Listed::new(arcs),
    })
}

/// For each node that is no target, the place of the first arc that begins in it.
pub(crate) fn first_places(alloc: Global, graph: &JointArcs) -> Result<Vec<usize>, Memory>
    ensures nodes { IfOk result (λ places. length places.items ≡ graph.now.inner) }
    ensures first { IfOk result (λ places. (left : List ℕ) → AreCursors graph.now left places.items) }
{
    graph.known();
    let row = graph.row();
    let mut places = zeros(alloc, graph.inner_count() as usize)?;
    for place in (graph.type_count() as usize..row.len()).rev() {
        places[start(&row[place]) as usize - 1] = place;
    }
    Ok(places)
}

/// So many zeros.
fn zeros(alloc: Global, count: usize) -> Result<Vec<usize>, Memory>
    ensures { IfOk result (λ v. length v.items ≡ count) }
{
    Ok(vec![in alloc; 0; count]?)
}

/// The place of the first way on from a node, which is kept for the node.
fn advance(graph: &JointArcs, node: u32, left: &[u64], cursors: &mut [usize]) -> usize
    requires size { length left.now ≡ length (numbered graph.now) }
    requires node { IsAmong node (length cursors.old) }
    requires some { (k : ℕ) × IsWayOn (numbered graph.now) left.now node k }
    requires cursors { AreCursors graph.now left.now cursors.old }
    ensures way { IsWayOn (numbered graph.now) left.now node result }
    ensures cursors { AreCursors graph.now left.now cursors.new }
{
    let from = cursors[node as usize - 1];
    let place = next_way(graph.row(), node, left, from);
    cursors[node as usize - 1] = place;
    place
}

/// The place of the first way on from a node that stands not before the given one.
fn next_way(row: &[ArcKind], node: u32, left: &[u64], from: usize) -> usize
    requires size { length left.now ≡ length row.now }
    requires some { (k : ℕ) × (from ≤ k) × IsWayOn row.now left.now node k }
    ensures way { IsWayOn row.now left.now node result }
    ensures first { (k : ℕ) → from ≤ k → IsWayOn row.now left.now node k → result ≤ k }
{
    for place in from..row.len() {
        if left[place] > 0 && start(&row[place]) == node {
            return place;
        }
    }
    unreachable!()
}

/// Where an arc begins; 0 for a bin arc.
fn start(kind: &ArcKind) -> u32
    ensures { result ≡ start_of kind.now }
{
    match *kind {
        ArcKind::Bin { .. } => 0,
        ArcKind::Loss { tail, .. } | ArcKind::Piece { tail, .. } => tail,
    }
}

/// Where an arc ends.
fn head(kind: &ArcKind) -> u32
    ensures { result ≡ head_of kind.now }
{
    match *kind {
        ArcKind::Bin { .. } => 1,
        ArcKind::Loss { head, .. } | ArcKind::Piece { head, .. } => head,
    }
}
