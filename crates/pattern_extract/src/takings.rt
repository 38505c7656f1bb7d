//! What a run takes off the arcs.

ghost use Rattle.std.specs.Prelude.{◌≡◌, ◌-◌, ◌≤◌, All, length, slice_index};
ghost use Rattle.flow_graph.specs.Arcs.{numbered};
ghost use Rattle.pattern_extract.specs.Runs.{IsRun};
ghost use Rattle.pattern_extract.specs.Takings.{HaveLeft, IsTaken};
ghost use Rattle.pattern_extract.specs.inner.Walks.{circuit_of};

use crate::runs::PathRun;
use crate::walks::bin_arc;
use flow_graph::FlowGraph;

/// Takes the run's times off each of its arcs, and off the bin arc of its type.
pub(crate) fn take_run(graph: &FlowGraph, run: &PathRun, left: &mut [u64])
    requires run { IsRun graph.now run.now }
    requires size { length left.old ≡ length (numbered graph.now) }
    requires left { All (λ a. run.now.times ≤ slice_index left.old (a - 1)) (circuit_of graph.now run.now) }
    ensures { IsTaken left.old left.new run.now.times (circuit_of graph.now run.now) }
{
    graph.known();
    let bin = bin_arc(graph, run.t) as usize - 1;
    left[bin] -= run.times;
    take_off(left, run.arcs.as_slice(), run.times);
}

/// Takes so many units off each of the arcs, which are told by their numbers.
pub fn take_off(left: &mut [u64], arcs: &[u32], times: u64)
    requires left { HaveLeft left.old times arcs.now }
    ensures { IsTaken left.old left.new times arcs.now }
{
    for arc in arcs {
        left[*arc as usize - 1] -= times;
    }
}
