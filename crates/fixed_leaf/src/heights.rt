//! Numbers of the nodes, from which the prices of all arcs come.

ghost use Rattle.std.specs.Prelude.{◌≡◌, ℕ, ◌+◌, ◌^◌, ◌≤◌, pos, ◌+ℤ◌, unsigned_abs, IfOk, length};
ghost use Rattle.fixed_leaf.specs.inner.Nets.{IsForest};
ghost use Rattle.fixed_leaf.specs.inner.Priced.{AreHeights, carried_by, height_in, own_price};

use crate::faults::Fault;
use crate::joints::{Joint, Net};
use arc_num::{MAX_NUMBERED, Memory};
use flow_graph::ArcKind;
use std::alloc::Global;

/// The heights of all nodes: 0 for the sources, and along each tree arc so much more as the arc is priced.
pub(crate) fn tree_heights(
    alloc: Global,
    row: &[ArcKind],
    net: &Net,
    fault: Option<Fault>,
) -> Result<Vec<i64>, Memory>
    requires forest { IsForest net.now.nodes net.now.joints }
    requires size { length row.now ≡ length net.now.joints }
    requires few { length row.now ≤ MAX_NUMBERED }
    ensures size { IfOk result (λ heights. length heights.items ≡ net.now.nodes) }
    ensures heights { IfOk result (λ heights. AreHeights row.now net.now.joints fault heights.items) }
{
    let mut heights = vec![in alloc; 0i64; net.nodes]?;
    climb(row, net.joints.as_slice(), fault, heights.as_mut_slice());
    Ok(heights)
}

// Gives the head of each tree arc its height, the first first.
fn climb(row: &[ArcKind], joints: &[Joint], fault: Option<Fault>, heights: &mut [i64])
    requires forest { IsForest (length heights.old) joints.now }
    requires size { length row.now ≡ length joints.now }
    requires few { length row.now ≤ MAX_NUMBERED }
    requires none { (p : ℕ) → height_in heights.old p ≡ pos 0 }
    ensures size { length heights.new ≡ length heights.old }
    ensures heights { AreHeights row.now joints.now fault heights.new }
{
    for index in 0..joints.len() {
        let joint = &joints[index];
        if joint.tree {
            let rise = rise(fault, index as u32 + 1, &row[index]);
            heights[joint.head] = heights[joint.tail] + rise;
        }
    }
}

// What a tree arc is priced, its item included.
fn rise(fault: Option<Fault>, arc: u32, kind: &ArcKind) -> i64
    ensures value { result ≡ own_price fault arc +ℤ pos (carried_by fault kind.now) }
    ensures small { unsigned_abs result ≤ 2 }
{
    own_price(fault, arc) + carried(fault, kind)
}

// What a tree arc is priced without its item.
fn own_price(fault: Option<Fault>, arc: u32) -> i64
    ensures value { result ≡ own_price fault arc }
    ensures small { unsigned_abs result ≤ 1 }
{
    match fault {
        Some(Fault::Below { arc: low }) if low == arc => 1,
        Some(Fault::Above { arc: high }) if high == arc => -1,
        _ => 0,
    }
}

/// What an arc is priced for its item.
pub(crate) fn carried(fault: Option<Fault>, kind: &ArcKind) -> i64
    ensures value { result ≡ pos (carried_by fault kind.now) }
    ensures small { carried_by fault kind.now ≤ 1 }
{
    match (fault, *kind) {
        (Some(Fault::Unmet { item: unmet }), ArcKind::Piece { item, .. }) if unmet == item => 1,
        _ => 0,
    }
}
