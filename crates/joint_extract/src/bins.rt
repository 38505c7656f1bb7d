//! The bins of flows, before they are trimmed.

ghost use Rattle.std.specs.Prelude.{◌≡◌, ◌≢◌, ℕ, ◌-◌, ◌<◌, ◌≤◌, ◌^◌, IfOk, length, slice_index};
ghost use Rattle.packing_laws.specs.Instances.{IsAmong};
ghost use Rattle.joint_arcs.specs.Joined.{numbered};
ghost use Rattle.joint_extract.specs.inner.Circuits.{AreBinsOf, AreConserved, AreCursors, AreDrawn};

use crate::walks::{first_places, walk_round};
use arc_num::Memory;
use joint_arcs::JointArcs;
use packing_laws::Bin;
use pattern_extract::take_off;
use std::alloc::Global;

/// Bins that hold all that the values carry, in time linear in the arcs and in the lengths of the circuits: each circuit uses
/// up what is left on some arc, and no arc on which nothing is left is looked at twice.
pub(crate) fn flow_bins(
    alloc: Global,
    graph: &JointArcs,
    values: &[u64],
) -> Result<Vec<Bin>, Memory>
    requires size { length values.now ≡ length (numbered graph.now) }
    requires small { (k : ℕ) → slice_index values.now k < 2 ^ 32 }
    requires conserved { AreConserved graph.now values.now }
    ensures { IfOk result (λ bins. AreBinsOf graph.now values.now bins.items) }
{
    graph.known();
    let mut copied = Vec::from_slice(alloc, values)?;
    let left = copied.as_mut_slice();
    let mut places = first_places(alloc, graph)?;
    let cursors = places.as_mut_slice();
    let mut bins = Vec::new(alloc);
    for t in 1..graph.type_count() + 1 {
        draw_type(alloc, graph, t, left, cursors, &mut bins)?;
    }
    Ok(bins)
}

/// Moves what is left off the arcs into bins until nothing is left on the bin arc of a type. Bins of other types come along.
fn draw_type(
    alloc: Global,
    graph: &JointArcs,
    t: u32,
    left: &mut [u64],
    cursors: &mut [usize],
    bins: &mut Vec<Bin>,
) -> Result<(), Memory>
    requires of_type { IsAmong t graph.now.types }
    requires size { length left.old ≡ length (numbered graph.now) }
    requires small { (k : ℕ) → slice_index left.old k < 2 ^ 32 }
    requires nodes { length cursors.old ≡ graph.now.inner }
    requires conserved { AreConserved graph.now left.old }
    requires cursors { AreCursors graph.now left.old cursors.old }
    ensures drawn { IfOk result (λ _. AreDrawn graph.now left.old bins.old.items left.new bins.new.items) }
    ensures cursors { IfOk result (λ _. AreCursors graph.now left.new cursors.new) }
    ensures none { IfOk result (λ _. slice_index left.new (t - 1) ≡ 0) }
{
    graph.known();
    let place = t as usize - 1;
    while left[place] > 0 {
        let circuit = walk_round(alloc, graph, left, cursors)?;
        take_off(left, circuit.arcs.as_slice(), u64::from(circuit.bin.times));
        bins.push(circuit.bin)?;
    }
    Ok(())
}
