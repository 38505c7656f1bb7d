//! The bins of runs, with what their paths carry.

ghost use Rattle.std.specs.Prelude.{◌≡◌, ◌<◌, ◌^◌, IfOk, All, length, map};
ghost use Rattle.packing_laws.specs.Instances.{IsAmong};
ghost use Rattle.pattern_extract.specs.Runs.{IsRun};
ghost use Rattle.pattern_extract.specs.Extracts.{bin_of, units_along};

use crate::runs::PathRun;
use crate::units::put_unit;
use arc_num::Memory;
use flow_graph::{ArcKind, FlowGraph};
use packing_laws::{Bin, Count, Counts};
use std::alloc::Global;

/// For each run the bins of its type with what its path carries.
pub(crate) fn run_bins(
    alloc: Global,
    graph: &FlowGraph,
    runs: &[PathRun],
) -> Result<Vec<Bin>, Memory>
    requires runs { All (IsRun graph.now) runs.now }
    requires times { All (λ run. run.times < 2 ^ 32) runs.now }
    ensures { IfOk result (λ bins. bins.items ≡ map (bin_of graph.now) runs.now) }
{
    let mut bins = Vec::with_capacity(alloc, runs.len())?;
    for run in runs {
        bins.push(run_bin(alloc, graph, run)?)?;
    }
    Ok(bins)
}

/// The bins of a run.
fn run_bin(alloc: Global, graph: &FlowGraph, run: &PathRun) -> Result<Bin, Memory>
    requires run { IsRun graph.now run.now }
    requires times { run.now.times < 2 ^ 32 }
    ensures { IfOk result (λ bin. bin ≡ bin_of graph.now run.now) }
{
    graph.known();
    let counts = path_counts(alloc, graph.row(), run.arcs.as_slice())?;
    Ok(Bin {
        bin_type: run.t,
        times: run.times as u32,
        counts: Counts::new(counts),
    })
}

/// The units that arcs carry, by their numbers.
fn path_counts(alloc: Global, row: &[ArcKind], arcs: &[u32]) -> Result<Vec<Count>, Memory>
    requires { All (λ a. IsAmong a (length row.now)) arcs.now }
    ensures { IfOk result (λ counts. counts.items ≡ units_along row.now arcs.now) }
{
    let mut counts = Vec::with_capacity(alloc, arcs.len())?;
    for arc in arcs {
        put_unit(&mut counts, &row[*arc as usize - 1])?;
    }
    Ok(counts)
}
