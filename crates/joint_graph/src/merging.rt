//! The image of a joint graph whose nodes are merged.

ghost use Rattle.std.specs.Prelude.{◌≡◌, ◌≤◌, ◌<◌, ◌^◌, ℕ, List, All, length, IfOk};
ghost use Rattle.std.specs.List.{filter_map};
ghost use Rattle.arc_num.specs.declared.TheConstants.{MAX_TYPES};
ghost use Rattle.label_graph.specs.inner.Merges.{HasEnds, merged_arc};
ghost use Rattle.joint_graph.specs.Merged.{IsImage};
ghost use Rattle.joint_graph.specs.inner.Ranks.{IsInto};
ghost use Rattle.joint_graph.specs.inner.Classes.{AreNumbered, RiseAlong, FitsMerged};

use crate::graph::Joint;
use crate::ranks::Ranks;
use arc_num::Memory;
use label_graph::{GraphArc, Mark, arcs_are_in_order, sort_distinct};
use std::alloc::Global;

/// The image of a graph whose nodes that are no targets are merged by their numbers.
pub fn image<const N: usize>(
    alloc: Global,
    graph: &Joint<N>,
    ranked: &Ranks,
) -> Result<Joint<N>, Memory>
    requires small { N ≤ 32 }
    requires numbered { AreNumbered graph.now ranked.now.numbers.items ranked.now.count }
    requires rises { RiseAlong graph.now ranked.now.numbers.items }
    requires fits { FitsMerged graph.now ranked.now.numbers.items ranked.now.count }
    ensures image { IfOk result (λ image. (into : List ℕ) × IsInto ranked.now.numbers.items ranked.now.count (length graph.now.caps) into × IsImage graph.now into image) }
    ensures count { IfOk result (λ image. image.inner ≡ ranked.now.count) }
{
    graph.known();
    let into = nodes_into(alloc, ranked, graph.caps().len())?;
    let mut arcs = merged_arcs(alloc, graph.arcs(), into.as_slice())?;
    sort_distinct(&mut arcs);
    arcs_are_in_order();
    let pieces = Vec::from_slice(alloc, graph.pieces())?;
    let caps = Vec::from_slice(alloc, graph.caps())?;
    Ok(Joint::new(pieces, caps, ranked.count, arcs))
}

// For each node the one into which it is merged, the targets last.
fn nodes_into(alloc: Global, ranked: &Ranks, types: usize) -> Result<Vec<u64>, Memory>
    requires few { ranked.now.count < 2 ^ 63 }
    requires types { types ≤ MAX_TYPES }
    ensures { IfOk result (λ into. IsInto ranked.now.numbers.items ranked.now.count types into.items) }
{
    let mut into = Vec::from_slice(alloc, ranked.numbers.as_slice())?;
    for t in 0..types {
        into.push(ranked.count + t as u64 + 1)?;
    }
    Ok(into)
}

// What the arcs become, in no order.
fn merged_arcs(alloc: Global, arcs: &[GraphArc], into: &[u64]) -> Result<Vec<GraphArc>, Memory>
    requires ends { All (λ e. HasEnds (length into.now) e) arcs.now }
    ensures { IfOk result (λ merged. merged.items ≡ filter_map (merged_arc into.now) arcs.now) }
{
    let mut merged = Vec::with_capacity(alloc, arcs.len())?;
    for arc in arcs {
        if let Some(image) = image_of(arc, into) {
            merged.push(image)?;
        }
    }
    Ok(merged)
}

// The arc between the nodes into which the ends are merged, if it is no loss arc from a node to itself.
fn image_of(arc: &GraphArc, into: &[u64]) -> Option<GraphArc>
    requires { HasEnds (length into.now) arc.now }
    ensures { result ≡ merged_arc into.now arc.now }
{
    let tail = into[arc.tail as usize - 1];
    let head = into[arc.head as usize - 1];
    if tail == head && arc.mark == Mark::Loss {
        return None;
    }
    Some(GraphArc {
        tail,
        head,
        mark: arc.mark,
    })
}
