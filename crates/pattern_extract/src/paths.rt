//! Flows as sums of paths.

ghost use Rattle.std.specs.Prelude.{◌≡◌, ℕ, ◌-◌, ◌<◌, ◌≤◌, IfOk, All, length, slice_index};
ghost use Rattle.packing_laws.specs.Instances.{IsAmong};
ghost use Rattle.flow_graph.specs.Arcs.{numbered, first_arc};
ghost use Rattle.pattern_extract.specs.Runs.{AreConserved, AreRunsOf, IsRun};
ghost use Rattle.pattern_extract.specs.inner.Walks.{AreMoved, HoldAll};

use crate::runs::PathRun;
use crate::takings::take_run;
use crate::walks::{bin_arc, first_places, walk};
use arc_num::Memory;
use flow_graph::FlowGraph;
use flow_model::Flow;
use std::alloc::Global;

/// Runs whose times add up to the flow on each arc, in time linear in the arcs and in the runs' lengths: each run uses
/// up what is left on some arc, and no arc on which nothing is left is looked at twice.
pub fn paths_of(alloc: Global, graph: &FlowGraph, flow: &Flow) -> Result<Vec<PathRun>, Memory>
    requires size { length flow.now.values ≡ length (numbered graph.now) }
    requires conserved { AreConserved graph.now flow.now.values }
    ensures runs { IfOk result (λ runs. AreRunsOf graph.now flow.now.values runs.items) }
    ensures few { IfOk result (λ runs. length runs.items ≤ length (numbered graph.now)) }
{
    graph.known();
    runs_of(alloc, graph, flow.values.as_slice())
}

/// The runs of a flow, with what they hold under any weights of the arcs.
pub(crate) fn runs_of(
    alloc: Global,
    graph: &FlowGraph,
    values: &[u64],
) -> Result<Vec<PathRun>, Memory>
    requires size { length values.now ≡ length (numbered graph.now) }
    requires conserved { AreConserved graph.now values.now }
    ensures runs { IfOk result (λ runs. HoldAll graph.now values.now runs.items) }
    ensures few { IfOk result (λ runs. length runs.items ≤ length values.now) }
{
    graph.known();
    let mut copied = Vec::from_slice(alloc, values)?;
    let left = copied.as_mut_slice();
    let mut runs = Vec::new(alloc);
    for t in 1..graph.type_count() + 1 {
        add_runs(alloc, graph, t, left, &mut runs)?;
    }
    Ok(runs)
}

/// Moves what is left on the arcs of a type into runs of it.
fn add_runs(
    alloc: Global,
    graph: &FlowGraph,
    t: u32,
    left: &mut [u64],
    runs: &mut Vec<PathRun>,
) -> Result<(), Memory>
    requires of_type { IsAmong t (length graph.now) }
    requires size { length left.old ≡ length (numbered graph.now) }
    requires conserved { AreConserved graph.now left.old }
    requires each { All (IsRun graph.now) runs.old.items }
    ensures moved { IfOk result (λ _. AreMoved graph.now left.old runs.old.items left.new runs.new.items) }
    ensures all { IfOk result (λ _. slice_index left.new (first_arc graph.now t - 1) ≡ 0) }
{
    graph.known();
    let bin = bin_arc(graph, t) as usize - 1;
    let mut places = first_places(alloc, graph, t)?;
    let cursors = places.as_mut_slice();
    while left[bin] > 0 {
        let run = walk(alloc, graph, t, left, cursors)?;
        take_run(graph, &run, left);
        runs.push(run)?;
    }
    Ok(())
}
