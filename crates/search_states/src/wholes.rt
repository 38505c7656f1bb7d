//! Packings of flows that are whole.

ghost use Rattle.std.specs.Prelude.{◌≡◌, IfOk, IfSome};
ghost use Rattle.packing_laws.specs.Printed.{IsWrittenPacking};
ghost use Rattle.flow_graph.specs.Faithful.{IsFaithful};
ghost use Rattle.search_states.specs.States.{IsBest, IsBetter};

use crate::known::{Known, better_of, known_from};
use arc_num::{Listed, Memory};
use cert_text::Need;
use flow_graph::FlowGraph;
use flow_model::Flow;
use packing_laws::{Instance, Packing};
use pattern_extract::{ExtractFault, extract};
use search_tree::SplitAt;
use std::alloc::Global;

/// The cheapest packing that is known after a look at a flow: where it has no chord to be split on, and is rounded to whole
/// numbers, it may be one of the instance.
pub(crate) fn better_of_flow(
    alloc: Global,
    instance: &Instance,
    graph: &FlowGraph,
    best: Option<Known>,
    flow: &Need,
    split: Option<SplitAt>,
) -> Result<Option<Known>, Memory>
    requires faithful { IsFaithful instance.now graph.now }
    requires best { IsBest instance.now best }
    ensures best { IfOk result (IsBest instance.now) }
    ensures better { IfOk result (IsBetter best) }
{
    if split.is_some() {
        return Ok(best);
    }
    match packing_of_flow(alloc, instance, graph, flow)? {
        Some(packing) => Ok(better_of(best, known_from(instance, packing)?)),
        None => Ok(best),
    }
}

// The packing of the flow that is rounded to whole numbers, if that is a flow of the instance.
fn packing_of_flow(
    alloc: Global,
    instance: &Instance,
    graph: &FlowGraph,
    flow: &Need,
) -> Result<Option<Packing>, Memory>
    requires faithful { IsFaithful instance.now graph.now }
    ensures { IfOk result (λ f. IfSome f (IsWrittenPacking instance.now)) }
{
    let mut values = vec![in alloc; 0; graph.arc_count() as usize]?;
    lay_rounded(values.as_mut_slice(), flow);
    let rounded = Flow {
        values: Listed::new(values),
    };
    match extract(alloc, instance, graph, &rounded) {
        Ok(packing) => Ok(Some(packing)),
        Err(ExtractFault::Memory) => Err(Memory),
        Err(ExtractFault::NotFlow { .. }) => Ok(None),
    }
}

// Gives each arc what it carries, rounded to a whole number.
fn lay_rounded(values: &mut [u64], flow: &Need) {
    let scale = flow.scale.max(1);
    for part in flow.parts.as_slice() {
        let arc = part.arc as usize;
        if arc > 0 && arc <= values.len() {
            values[arc - 1] = part.value.saturating_add(scale / 2) / scale;
        }
    }
}
