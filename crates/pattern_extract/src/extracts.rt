//! Packings of flows.

ghost use Rattle.std.specs.Prelude.{◌≡◌, IfOk, MatchResult, length};
ghost use Rattle.flow_graph.specs.Arcs.{numbered};
ghost use Rattle.flow_graph.specs.Faithful.{IsFaithful};
ghost use Rattle.flow_model.specs.Flows.{IsFlow};
ghost use Rattle.pattern_extract.specs.Extracts.{IsPackingOf, IsReason};

use crate::contents::run_bins;
use crate::paths::runs_of;
use crate::surpluses::surpluses;
use crate::trims::trim;
use arc_num::Memory;
use flow_graph::FlowGraph;
use flow_model::{Flow, FlowRow, Tally, first_bad};
use packing_laws::{Instance, Packing};
use std::alloc::Global;
use thiserror::Error;

/// Why there is no packing.
#[derive(Clone, Copy, Debug, PartialEq, Eq, Error)]
pub enum ExtractFault {
    /// The first row of the model that the values violate.
    #[error("not a flow")]
    NotFlow { row: FlowRow },
    /// Want of memory.
    #[error("out of memory")]
    Memory,
}

/// A packing that costs what the flow costs. Units that the flow carries beyond the demands are trimmed, and bins are
/// kept even where nothing is left in them.
pub fn extract(
    alloc: Global,
    instance: &Instance,
    graph: &FlowGraph,
    flow: &Flow,
) -> Result<Packing, ExtractFault>
    requires size { length flow.now.values ≡ length (numbered graph.now) }
    requires faithful { IsFaithful instance.now graph.now }
    ensures { MatchResult result (λ packing. IsPackingOf instance.now graph.now flow.now.values packing) (λ fault. IsReason instance.now graph.now flow.now.values fault) }
{
    let mut tally = match Tally::new(alloc, graph) {
        Ok(tally) => tally,
        Err(Memory) => return Err(ExtractFault::Memory),
    };
    match first_bad(instance, graph, flow, &mut tally) {
        Some(row) => Err(ExtractFault::NotFlow { row }),
        None => match packing_of(alloc, instance, graph, flow.values.as_slice()) {
            Ok(packing) => Ok(packing),
            Err(Memory) => Err(ExtractFault::Memory),
        },
    }
}

/// The packing of values that are a flow.
fn packing_of(
    alloc: Global,
    instance: &Instance,
    graph: &FlowGraph,
    values: &[u64],
) -> Result<Packing, Memory>
    requires faithful { IsFaithful instance.now graph.now }
    requires flow { IsFlow instance.now graph.now values.now }
    ensures { IfOk result (λ packing. IsPackingOf instance.now graph.now values.now packing) }
{
    instance.known();
    graph.known();
    let runs = runs_of(alloc, graph, values)?;
    let bins = run_bins(alloc, graph, runs.as_slice())?;
    let mut surplus = surpluses(alloc, instance, graph, values)?;
    let bins = trim(alloc, instance, bins, surplus.as_mut_slice())?;
    Ok(Packing::new(bins))
}
