//! The values of all arcs that those of the chords determine.

ghost use Rattle.std.specs.Prelude.{◌≡◌, ℕ, ◌*◌, ◌^◌, ◌<◌, ◌≤◌, pos, if◌then◌else◌, true, false, unsigned_abs, All, IfOk, length, slice_index_or};
ghost use Rattle.packing_laws.specs.Instances.{IsAmong};
ghost use Rattle.flow_graph.specs.Chords.{range_at};
ghost use Rattle.fixed_leaf.specs.inner.Nets.{AreChordValues, AreSettled, HoldsExcess, IsForest, excess_at, joint_at, shifted, size_of};

use crate::joints::{Joint, Net};
use arc_num::{MAX_NUMBERED, Memory};
use flow_model::FlowBox;
use std::alloc::Global;

/// The value of each arc: of a chord the lower end of its range, and of a tree arc what then goes away from its head more
/// than comes in otherwise.
pub(crate) fn settled_values(alloc: Global, net: &Net, ranges: &FlowBox) -> Result<Vec<i64>, Memory>
    requires forest { IsForest net.now.nodes net.now.joints }
    requires size { length ranges.now ≡ length net.now.joints }
    requires few { length ranges.now ≤ MAX_NUMBERED }
    ensures { IfOk result (λ values. AreSettled net.now.joints ranges.now values.items) }
{
    let joints = net.joints.as_slice();
    let mut values = chord_values(alloc, joints, ranges)?;
    let mut excess = vec![in alloc; 0i64; net.nodes]?;
    add_excess(joints, values.as_slice(), excess.as_mut_slice());
    settle(joints, values.as_mut_slice(), excess.as_mut_slice());
    Ok(values)
}

// The values of the chords, and 0 for each tree arc.
fn chord_values(alloc: Global, joints: &[Joint], ranges: &FlowBox) -> Result<Vec<i64>, Memory>
    requires size { length ranges.now ≡ length joints.now }
    requires few { length ranges.now ≤ MAX_NUMBERED }
    ensures { IfOk result (λ values. AreChordValues joints.now ranges.now values.items) }
{
    let mut values = Vec::new(alloc);
    let mut arc = 0;
    for joint in joints {
        arc += 1;
        values.push(chord_value(joint, ranges, arc))?;
    }
    Ok(values)
}

// The value of an arc where it is a chord.
fn chord_value(joint: &Joint, ranges: &FlowBox, arc: u32) -> i64
    requires { IsAmong arc (length ranges.now) }
    ensures value { result ≡ (if joint.now.tree then pos 0 else pos (range_at ranges.now arc).0) }
    ensures small { unsigned_abs result ≤ 2 ^ 32 }
{
    match ranges.range(arc) {
        Some((lower, _)) if !joint.tree => i64::from(lower),
        _ => 0,
    }
}

// Adds the values of all arcs to an excess of nothing.
fn add_excess(joints: &[Joint], values: &[i64], excess: &mut [i64])
    requires tails { All (λ j. j.tail < length excess.old) joints.now }
    requires heads { All (λ j. j.head < length excess.old) joints.now }
    requires size { length values.now ≡ length joints.now }
    requires few { length joints.now ≤ MAX_NUMBERED }
    requires small { (k : ℕ) → unsigned_abs (slice_index_or values.now k (pos 0)) ≤ 2 ^ 32 }
    requires none { (p : ℕ) → slice_index_or excess.old p (pos 0) ≡ pos 0 }
    requires empty { size_of excess.old ≡ 0 }
    ensures size { length excess.new ≡ length excess.old }
    ensures small { size_of excess.new ≤ MAX_NUMBERED * 2 ^ 33 }
    ensures holds { HoldsExcess joints.now values.now excess.new }
{
    for index in 0..joints.len() {
        shift(excess, &joints[index], values[index]);
    }
}

// Gives each tree arc, the last first, what is left over at its head.
fn settle(joints: &[Joint], values: &mut [i64], excess: &mut [i64])
    requires forest { IsForest (length excess.old) joints.now }
    requires size { length values.old ≡ length joints.now }
    requires trees { (k : ℕ) → k < length joints.now → (joint_at joints.now k).tree ≡ true → slice_index_or values.old k (pos 0) ≡ pos 0 }
    requires holds { HoldsExcess joints.now values.old excess.old }
    requires small { size_of excess.old ≤ 2 ^ 60 }
    ensures size { length values.new ≡ length values.old }
    ensures chords { (k : ℕ) → k < length joints.now → (joint_at joints.now k).tree ≡ false → slice_index_or values.new k (pos 0) ≡ slice_index_or values.old k (pos 0) }
    ensures trees { (k : ℕ) → k < length joints.now → (joint_at joints.now k).tree ≡ true → excess_at (joint_at joints.now k).head joints.now values.new ≡ pos 0 }
{
    for index in (0..joints.len()).rev() {
        let joint = &joints[index];
        if joint.tree {
            let missing = excess[joint.head];
            values[index] = missing;
            shift(excess, joint, missing);
        }
    }
}

// So much more goes over an arc.
fn shift(excess: &mut [i64], joint: &Joint, value: i64)
    requires tail { joint.now.tail < length excess.old }
    requires head { joint.now.head < length excess.old }
    requires table { size_of excess.old ≤ 2 ^ 60 }
    requires value { unsigned_abs value ≤ 2 ^ 60 }
    ensures { excess.new ≡ shifted excess.old joint.now value }
{
    excess[joint.head] -= value;
    excess[joint.tail] += value;
}
