//! The joint graph of an instance.

ghost use Rattle.std.specs.Prelude.{◌≡◌, ◌≤◌, IfOk, IfErr, length};
ghost use Rattle.arc_num.specs.declared.TheConstants.{MAX_ARCS};
ghost use Rattle.arc_compile.specs.Compiled.{AreNamed};
ghost use Rattle.joint_arcs.specs.Faithful.{IsFaithful};
ghost use Rattle.joint_compile.specs.JointPieces.{width_of};
ghost use Rattle.joint_compile.specs.JointCompiled.{IsJointGraph, IsJointLarge, IsJointSmall, IsNumberedJoint};

use crate::laws::joint_graphs_are_faithful;
use crate::pieces::{capacities, joint_pieces};
use arc_compile::{numbered_arcs, place_count};
use arc_num::{MAX_ARCS, Memory};
use joint_arcs::JointArcs;
use joint_graph::{Joint, joint};
use label_graph::GraphFault;
use packing_laws::Instance;
use std::alloc::Global;

/// A joint graph by the numbers of its arcs.
fn numbered<const N: usize>(alloc: Global, graph: &Joint<N>) -> Result<JointArcs, Memory>
    requires small { N ≤ 32 }
    requires few { length graph.now.arcs ≤ MAX_ARCS }
    requires named { AreNamed graph.now.pieces }
    ensures { IfOk result (IsNumberedJoint graph.now) }
{
    graph.known();
    let arcs = numbered_arcs(alloc, graph.pieces(), graph.arcs())?;
    let inner = graph.inner() as u32;
    let types = graph.caps().len() as u32;
    JointArcs::new(alloc, inner, types, arcs)
}

/// The joint graph of an instance whose weights stand in N places.
fn joint_in<const N: usize>(alloc: Global, instance: &Instance) -> Result<JointArcs, GraphFault>
    requires small { N ≤ 32 }
    requires width { width_of instance.now ≡ N }
    ensures graph { IfOk result (IsJointGraph instance.now) }
    ensures small { IfOk result (λ _. IsJointSmall instance.now) }
    ensures large { IfErr result (λ fault. fault ≡ GraphFault.TooManyArcs → IsJointLarge instance.now) }
{
    instance.known();
    let pieces = joint_pieces::<N>(alloc, instance)?;
    let caps = capacities::<N>(alloc, instance)?;
    let joined = joint(alloc, pieces.as_slice(), caps.as_slice(), MAX_ARCS)?;
    let graph = numbered(alloc, joined.graph())?;
    Ok(graph)
}

/// The joint graph of an instance, where its main graph has at most 1,000,000 arcs.
pub fn joint_of(alloc: Global, instance: &Instance) -> Result<JointArcs, GraphFault>
    ensures graph { IfOk result (λ graph. IsJointGraph instance.now graph) }
    ensures faithful { IfOk result (λ graph. IsFaithful instance.now graph) }
    ensures small { IfOk result (λ _. IsJointSmall instance.now) }
    ensures large { IfErr result (λ fault. fault ≡ GraphFault.TooManyArcs → IsJointLarge instance.now) }
{
    joint_graphs_are_faithful();
    instance.known();
    match place_count(instance) {
        0 | 1 => joint_in::<1>(alloc, instance),
        2 => joint_in::<2>(alloc, instance),
        3..=4 => joint_in::<4>(alloc, instance),
        5..=8 => joint_in::<8>(alloc, instance),
        9..=16 => joint_in::<16>(alloc, instance),
        _ => joint_in::<32>(alloc, instance),
    }
}
