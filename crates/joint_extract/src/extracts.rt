//! Packings of flows of a joint graph.

ghost use Rattle.std.specs.Prelude.{◌≡◌, IfOk, MatchResult, length};
ghost use Rattle.joint_arcs.specs.Joined.{numbered};
ghost use Rattle.joint_arcs.specs.Faithful.{IsFaithful};
ghost use Rattle.joint_arcs.specs.Flows.{IsFlow};
ghost use Rattle.joint_extract.specs.JointExtracts.{IsPackingOf, IsReason};

use crate::bins::flow_bins;
use crate::surpluses::surpluses;
use arc_num::Memory;
use joint_arcs::JointArcs;
use joint_flows::{JointRow, first_bad};
use packing_laws::{Instance, Packing};
use pattern_extract::trim;
use std::alloc::Global;
use thiserror::Error;

/// Why there is no packing.
#[derive(Clone, Copy, Debug, PartialEq, Eq, Error)]
pub enum JointFault {
    /// The first row that the values violate.
    #[error("not a flow")]
    NotFlow { row: JointRow },
    /// Want of memory.
    #[error("out of memory")]
    Memory,
}

/// A packing that costs what the flow costs. Units that the flow carries beyond the demands are trimmed, and bins are kept
/// even where nothing is left in them.
pub fn joint_extract(
    alloc: Global,
    instance: &Instance,
    graph: &JointArcs,
    values: &[u64],
) -> Result<Packing, JointFault>
    requires size { length values.now ≡ length (numbered graph.now) }
    requires faithful { IsFaithful instance.now graph.now }
    ensures { MatchResult result (λ packing. IsPackingOf instance.now graph.now values.now packing) (λ fault. IsReason instance.now graph.now values.now fault) }
{
    match first_bad(alloc, instance, graph, values) {
        Ok(Some(row)) => Err(JointFault::NotFlow { row }),
        Ok(None) => match packing_of(alloc, instance, graph, values) {
            Ok(packing) => Ok(packing),
            Err(Memory) => Err(JointFault::Memory),
        },
        Err(Memory) => Err(JointFault::Memory),
    }
}

/// The packing of values that are a flow.
fn packing_of(
    alloc: Global,
    instance: &Instance,
    graph: &JointArcs,
    values: &[u64],
) -> Result<Packing, Memory>
    requires faithful { IsFaithful instance.now graph.now }
    requires flow { IsFlow instance.now graph.now values.now }
    ensures { IfOk result (λ packing. IsPackingOf instance.now graph.now values.now packing) }
{
    instance.known();
    graph.known();
    let bins = flow_bins(alloc, graph, values)?;
    let mut surplus = surpluses(alloc, instance, graph, values)?;
    let bins = trim(alloc, instance, bins, surplus.as_mut_slice())?;
    Ok(Packing::new(bins))
}
