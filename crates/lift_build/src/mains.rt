//! The main graph, from what a search has found.

ghost use Rattle.std.specs.Prelude.{◌≡◌, ◌↔◌, ℕ, ◌≤◌, ◌<◌, List, length, map, All, AllPairs, Contains, IfOk, IfErr};
ghost use Rattle.weight_vec.specs.Weight.{Before};
ghost use Rattle.label_graph.specs.declared.parts.GraphArc.{GraphArc};
ghost use Rattle.label_graph.specs.Graph.{GraphValue, ArcBefore};
ghost use Rattle.level_graph.specs.Levels.{IsPieceList};
ghost use Rattle.lift_build.specs.LiftedMains.{IsMainOf};
ghost use Rattle.lift_build.specs.inner.Moves.{HasEnds, ArePlaces, moved_arc};
ghost use Rattle.lift_build.specs.inner.Numbers.{IsNumber};

use crate::search::search;
use arc_num::Memory;
use label_graph::{
    Graph, GraphArc, GraphFault, Piece, arcs_are_in_order, images_exist, known_pieces,
    sort_distinct,
};
use level_graph::{level_graphs_are_graphs, level_graphs_exist};
use main_compress::main_graphs_are_graphs;
use std::alloc::Global;
use weight_vec::Weights;

/// The main graph of the level graph of the pieces, made without that graph: states at a piece whose weights and copies are lifted
/// alike share their ways on, and each is looked at once. The search ends as soon as it has found more arcs than there
/// is room for. It is the same graph as the main compression of the level graph gives.
pub fn build_main<const N: usize>(
    alloc: Global,
    pieces: &[Piece<N>],
    cap: &Weights<N>,
    room: u32,
) -> Result<Graph<N>, GraphFault>
    requires small { N ≤ 32 }
    requires pieces { IsPieceList pieces.now cap.now }
    ensures main { IfOk result (IsMainOf pieces.now cap.now) }
    ensures roomy { IfOk result (λ main. length main.arcs ≤ room) }
    ensures full { IfErr result (λ fault. fault ≡ GraphFault.TooManyArcs → (main : GraphValue N) × IsMainOf pieces.now cap.now main × (room < length main.arcs)) }
{
    level_graphs_exist();
    level_graphs_are_graphs();
    main_graphs_are_graphs();
    images_exist();
    cap.known();
    known_pieces(pieces);
    let found = match search(alloc, pieces, cap, room) {
        Ok(found) => found,
        Err(fault) => return Err(fault),
    };
    let labels = in_order(alloc, found.labels.as_slice())?;
    let places = places_of(alloc, found.labels.as_slice(), labels.as_slice())?;
    let arcs = arcs_in_order(alloc, found.arcs.as_slice(), places.as_slice())?;
    let pieces = Vec::from_slice(alloc, pieces)?;
    Ok(Graph::new(pieces, labels, arcs))
}

// The labels in lexicographic order.
fn in_order<const N: usize>(alloc: Global, labels: &[Weights<N>]) -> Result<Vec<Weights<N>>, Memory>
    requires small { N ≤ 32 }
    ensures ordered { IfOk result (λ sorted. AllPairs Before sorted.items) }
    ensures same { IfOk result (λ sorted. (l : List ℕ) → Contains sorted.items l ↔ Contains labels.now l) }
{
    let mut sorted = Vec::from_slice(alloc, labels)?;
    sort_distinct(&mut sorted);
    Ok(sorted)
}

// The place of each label among the labels in order, from 1 on.
fn places_of<const N: usize>(
    alloc: Global,
    labels: &[Weights<N>],
    sorted: &[Weights<N>],
) -> Result<Vec<u64>, Memory>
    requires small { N ≤ 32 }
    requires ordered { AllPairs Before sorted.now }
    requires there { All (λ l. Contains sorted.now l) labels.now }
    ensures { IfOk result (λ places. ArePlaces labels.now sorted.now places.items) }
{
    let mut places = Vec::with_capacity(alloc, labels.len())?;
    for label in labels {
        places.push(place_of(sorted, label))?;
    }
    Ok(places)
}

// The place of a label among labels in order, from 1 on.
fn place_of<const N: usize>(sorted: &[Weights<N>], label: &Weights<N>) -> u64
    requires small { N ≤ 32 }
    requires ordered { AllPairs Before sorted.now }
    requires there { Contains sorted.now label.now }
    ensures { IsNumber sorted.now result label.now }
{
    match sorted.binary_search(label) {
        Ok(index) => index as u64 + 1,
        Err(_) => unreachable!(),
    }
}

// The arcs between the places of their ends, in order.
fn arcs_in_order(alloc: Global, arcs: &[GraphArc], places: &[u64]) -> Result<Vec<GraphArc>, Memory>
    requires { All (HasEnds (length places.now)) arcs.now }
    ensures ordered { IfOk result (λ moved. AllPairs ArcBefore moved.items) }
    ensures same { IfOk result (λ moved. (x : GraphArc) → Contains moved.items x ↔ Contains (map (moved_arc places.now) arcs.now) x) }
{
    let mut moved = moved_arcs(alloc, arcs, places)?;
    sort_distinct(&mut moved);
    arcs_are_in_order();
    Ok(moved)
}

// The arcs between the places of their ends.
fn moved_arcs(alloc: Global, arcs: &[GraphArc], places: &[u64]) -> Result<Vec<GraphArc>, Memory>
    requires { All (HasEnds (length places.now)) arcs.now }
    ensures { IfOk result (λ moved. moved.items ≡ map (moved_arc places.now) arcs.now) }
{
    let mut moved = Vec::with_capacity(alloc, arcs.len())?;
    for arc in arcs {
        moved.push(GraphArc {
            tail: places[arc.tail as usize - 1],
            head: places[arc.head as usize - 1],
            mark: arc.mark,
        })?;
    }
    Ok(moved)
}
