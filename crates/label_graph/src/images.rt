//! Graphs whose nodes are merged by new labels.

ghost use Rattle.std.specs.Prelude.{◌≡◌, ◌^◌, ◌≤◌, ◌<◌, [], ◌∷◌, length, All, AllPairs, Contains, IfOk, IfErr};
ghost use Rattle.std.specs.List.{filter_map};
ghost use Rattle.std.specs.declared.cmp.Ordering.TheVariants.{Less};
ghost use Rattle.weight_vec.specs.Weight.{Before};
ghost use Rattle.label_graph.specs.Graph.{GraphValue, IsGraph, ArcBefore, MarkBefore};
ghost use Rattle.label_graph.specs.Images.{IsLabelling, IsImage, AreDistinct, IsMergedInto};
ghost use Rattle.label_graph.specs.inner.Merges.{AreNodes, HasEnds, merged_arc};

use crate::graph::Graph;
use crate::laws::images_are_graphs;
use crate::lists::{known_weights, sort_distinct};
use crate::parts::{GraphArc, GraphFault, Mark};
use arc_num::Memory;
use indexmap::IndexSet;
use std::alloc::Global;
use weight_vec::Weights;

/// The image of a graph under new labels, one for each node, where it has not more arcs than there is room for.
pub fn quotient<const N: usize>(
    alloc: Global,
    graph: &Graph<N>,
    labels: &[Weights<N>],
    room: u32,
) -> Result<Graph<N>, GraphFault>
    requires small { N ≤ 32 }
    requires labelling { IsLabelling graph.now labels.now }
    ensures image { IfOk result (IsImage graph.now labels.now) }
    ensures roomy { IfOk result (λ image. length image.arcs ≤ room) }
    ensures full { IfErr result (λ fault. fault ≡ GraphFault.TooManyArcs → (image : GraphValue N) × IsImage graph.now labels.now image × (room < length image.arcs)) }
{
    let merged = image(alloc, graph, labels)?;
    if merged.arcs().len() > room as usize {
        return Err(GraphFault::TooManyArcs);
    }
    Ok(merged)
}

/// The image of a graph under new labels, one for each node.
pub fn image<const N: usize>(
    alloc: Global,
    graph: &Graph<N>,
    labels: &[Weights<N>],
) -> Result<Graph<N>, Memory>
    requires small { N ≤ 32 }
    requires labelling { IsLabelling graph.now labels.now }
    ensures { IfOk result (IsImage graph.now labels.now) }
{
    graph.known();
    known_weights(labels);
    images_are_graphs();
    let distinct = distinct_labels(alloc, labels)?;
    let arcs = image_arcs(alloc, graph, labels, distinct.as_slice())?;
    let pieces = Vec::from_slice(alloc, graph.pieces())?;
    Ok(Graph::new(pieces, distinct, arcs))
}

// The different labels, in lexicographic order.
fn distinct_labels<const N: usize>(
    alloc: Global,
    labels: &[Weights<N>],
) -> Result<Vec<Weights<N>>, Memory>
    requires small { N ≤ 32 }
    ensures { IfOk result (λ distinct. AreDistinct labels.now distinct.items) }
{
    let mut distinct = Vec::from_slice(alloc, labels)?;
    sort_distinct(&mut distinct);
    Ok(distinct)
}

// The arcs of the image, in order.
fn image_arcs<const N: usize>(
    alloc: Global,
    graph: &Graph<N>,
    labels: &[Weights<N>],
    distinct: &[Weights<N>],
) -> Result<Vec<GraphArc>, Memory>
    requires small { N ≤ 32 }
    requires graph { IsGraph N graph.now }
    requires labelling { IsLabelling graph.now labels.now }
    requires distinct { AreDistinct labels.now distinct.now }
    ensures { IfOk result (λ arcs. IsImage graph.now labels.now (record { pieces = graph.now.pieces; labels = distinct.now; arcs = arcs.items })) }
{
    let numbers = numbered(alloc, distinct)?;
    let nodes = merged_nodes(alloc, labels, &numbers)?;
    let mut arcs = merged_arcs(alloc, graph.arcs(), nodes.as_slice())?;
    sort_distinct(&mut arcs);
    arcs_are_in_order();
    Ok(arcs)
}

// A call that costs nothing: loss comes before pieces in the derived order.
fn marks_are_in_order()
    ensures { (m n : Mark) → ⟦<Mark as Ord>⟧.cmp m n ≡ Less → MarkBefore m n }
{}

/// A call that costs nothing: the derived order of arcs is by tail, head and mark.
pub fn arcs_are_in_order()
    ensures { (e f : GraphArc) → ⟦<GraphArc as Ord>⟧.cmp e f ≡ Less → ArcBefore e f }
{
    marks_are_in_order();
}

// The labels by their numbers, which count from 0.
fn numbered<const N: usize>(
    alloc: Global,
    distinct: &[Weights<N>],
) -> Result<IndexSet<Weights<N>>, Memory>
    requires small { N ≤ 32 }
    requires ordered { AllPairs Before distinct.now }
    ensures { IfOk result (λ numbers. numbers.keys ≡ distinct.now) }
{
    let mut numbers = IndexSet::with_capacity(alloc, distinct.len())?;
    for label in distinct {
        numbers.insert(*label)?;
    }
    Ok(numbers)
}

// For each node the one into which it is merged.
fn merged_nodes<const N: usize>(
    alloc: Global,
    labels: &[Weights<N>],
    numbers: &IndexSet<Weights<N>>,
) -> Result<Vec<u64>, Memory>
    requires small { N ≤ 32 }
    requires there { All (λ l. Contains numbers.now.keys l) labels.now }
    ensures { IfOk result (λ nodes. AreNodes labels.now numbers.now.keys nodes.items) }
{
    // The answer is below 2^63.
    let _count = numbers.len();
    let mut nodes = Vec::with_capacity(alloc, labels.len())?;
    for label in labels {
        nodes.push(node_of(numbers, label))?;
    }
    Ok(nodes)
}

// The node with this label, from 1 on.
fn node_of<const N: usize>(numbers: &IndexSet<Weights<N>>, label: &Weights<N>) -> u64
    requires small { N ≤ 32 }
    requires few { length numbers.now.keys < 2 ^ 63 }
    requires there { Contains numbers.now.keys label.now }
    ensures { IsMergedInto (label.now ∷ []) numbers.now.keys 1 result }
{
    match numbers.get_index_of(label) {
        Some(index) => index as u64 + 1,
        None => unreachable!(),
    }
}

// What the arcs become, in no order.
fn merged_arcs(alloc: Global, arcs: &[GraphArc], nodes: &[u64]) -> Result<Vec<GraphArc>, Memory>
    requires ends { All (λ e. HasEnds (length nodes.now) e) arcs.now }
    ensures { IfOk result (λ merged. merged.items ≡ filter_map (merged_arc nodes.now) arcs.now) }
{
    let mut merged = Vec::with_capacity(alloc, arcs.len())?;
    for arc in arcs {
        if let Some(image) = image_of(arc, nodes) {
            merged.push(image)?;
        }
    }
    Ok(merged)
}

// The arc between the nodes into which the ends are merged, if it is no loss arc from a node to itself.
fn image_of(arc: &GraphArc, nodes: &[u64]) -> Option<GraphArc>
    requires { HasEnds (length nodes.now) arc.now }
    ensures { result ≡ merged_arc nodes.now arc.now }
{
    let tail = nodes[arc.tail as usize - 1];
    let head = nodes[arc.head as usize - 1];
    if tail == head && arc.mark == Mark::Loss {
        return None;
    }
    Some(GraphArc {
        tail,
        head,
        mark: arc.mark,
    })
}
