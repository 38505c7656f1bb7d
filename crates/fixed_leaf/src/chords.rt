//! Which arcs are chords.

ghost use Rattle.std.specs.Prelude.{◌≡◌, IfOk, map, not};
ghost use Rattle.flow_graph.specs.Faithful.{GraphOf};
ghost use Rattle.fixed_leaf.specs.Leaves.{TellsChords};

use crate::joints::{Joint, net_of};
use arc_num::{Listed, Memory};
use flow_graph::FlowGraph;
use packing_laws::Instance;
use std::alloc::Global;

/// Which arcs of a graph are chords, by number.
pub fn chords_of(
    alloc: Global,
    instance: &Instance,
    graph: &FlowGraph,
) -> Result<Listed<bool>, Memory>
    requires { GraphOf instance.now graph.now }
    ensures { IfOk result (TellsChords graph.now) }
{
    let net = net_of(alloc, instance, graph)?;
    chord_flags(alloc, net.joints.as_slice())
}

// Which of these are no tree arcs.
fn chord_flags(alloc: Global, joints: &[Joint]) -> Result<Listed<bool>, Memory>
    ensures { IfOk result (λ flags. flags ≡ map (λ j. not j.tree) joints.now) }
{
    let mut flags = Listed::empty(alloc);
    for joint in joints {
        flags.push(!joint.tree)?;
    }
    Ok(flags)
}
