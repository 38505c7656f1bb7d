//! Which row values violate first.

ghost use Rattle.std.specs.Prelude.{◌≡◌, ◌↔◌, ◌<◌, ℕ, List, IfOk, IsNone, length, map};
ghost use Rattle.packing_laws.specs.Instances.{InstanceValue, IsAmong, item_at};
ghost use Rattle.flow_model.specs.Flows.{up_to};
ghost use Rattle.joint_arcs.specs.Joined.{JointValue, node_count, numbered};
ghost use Rattle.joint_arcs.specs.Faithful.{GraphOf};
ghost use Rattle.joint_arcs.specs.Flows.{IsFlow};
ghost use Rattle.joint_flows.specs.declared.rows.JointRow.TheVariants.{Node, Demand, Bound};
ghost use Rattle.joint_flows.specs.JointRows.{FirstBadRow, FirstBroken, Keeps};
ghost use Rattle.joint_flows.specs.inner.Known.{IsKnownJoint};
ghost use Rattle.joint_flows.specs.inner.Sums.{AreSums, HasRoom};

use crate::known;
use crate::rows::JointRow;
use crate::sums::Sums;
use arc_num::Memory;
use flow_model::upper;
use joint_arcs::JointArcs;
use packing_laws::Instance;
use std::alloc::Global;

/// The first row that the values violate: nodes by number, then items, then ranges of arcs.
pub fn first_bad(
    alloc: Global,
    instance: &Instance,
    graph: &JointArcs,
    values: &[u64],
) -> Result<Option<JointRow>, Memory>
    requires graph { GraphOf instance.now graph.now }
    requires size { length values.now ≡ length (numbered graph.now) }
    ensures first { IfOk result (λ bad. FirstBadRow instance.now graph.now values.now bad) }
    ensures none { IfOk result (λ bad. IsNone bad ↔ IsFlow instance.now graph.now values.now) }
{
    let sums = Sums::new(alloc, instance, graph, values)?;
    Ok(bad_row(instance, graph, values, &sums))
}

// The first row that the values with these sums violate.
fn bad_row(instance: &Instance, graph: &JointArcs, values: &[u64], sums: &Sums) -> Option<JointRow>
    requires graph { GraphOf instance.now graph.now }
    requires size { length values.now ≡ length (numbered graph.now) }
    requires room { HasRoom instance.now graph.now sums.now }
    requires sums { AreSums instance.now graph.now values.now sums.now }
    ensures first { FirstBadRow instance.now graph.now values.now result }
    ensures none { IsNone result ↔ IsFlow instance.now graph.now values.now }
{
    if let Some(row) = bad_node(graph, sums) {
        return Some(row);
    }
    if let Some(row) = bad_demand(instance, sums) {
        return Some(row);
    }
    known::joint(instance, graph);
    bad_bound(instance, graph, values)
}

// The first node where what comes in is not what goes out.
fn bad_node(graph: &JointArcs, sums: &Sums) -> Option<JointRow>
    requires inflow { node_count graph.now < length sums.now.inflow }
    requires outflow { node_count graph.now < length sums.now.outflow }
    ensures { (I : InstanceValue) (values : List ℕ) → AreSums I graph.now values sums.now → FirstBroken (Keeps I graph.now values) (map (λ v. Node v) (up_to (node_count graph.now))) result }
{
    for index in 0..graph.node_count() {
        let node = index + 1;
        if sums.into_node(node) != sums.out_of_node(node) {
            return Some(JointRow::Node { node });
        }
    }
    None
}

// The first item of which less is carried than is asked for.
fn bad_demand(instance: &Instance, sums: &Sums) -> Option<JointRow>
    requires { length instance.now.items < length sums.now.items }
    ensures { (g : JointValue) (values : List ℕ) → AreSums instance.now g values sums.now → FirstBroken (Keeps instance.now g values) (map (λ i. Demand i) (up_to (length instance.now.items))) result }
{
    for index in 0..instance.item_count() {
        let item = index + 1;
        if sums.of_item(item) < u128::from(demand_of(instance, item)) {
            return Some(JointRow::Demand { item });
        }
    }
    None
}

// How many units of an item are asked for.
fn demand_of(instance: &Instance, i: u32) -> u32
    requires { IsAmong i (length instance.now.items) }
    ensures { result ≡ (item_at instance.now i).demand }
{
    match instance.item(i) {
        Some(item) => item.demand,
        None => 0,
    }
}

// The first arc whose value is out of its range.
fn bad_bound(instance: &Instance, graph: &JointArcs, values: &[u64]) -> Option<JointRow>
    requires known { IsKnownJoint instance.now graph.now }
    requires size { length values.now ≡ length (numbered graph.now) }
    ensures { FirstBroken (Keeps instance.now graph.now values.now) (map (λ a. Bound a) (up_to (length (numbered graph.now)))) result }
{
    let units = instance.units();
    for (index, kind) in graph.row().iter().enumerate() {
        let most = upper(instance, units, kind);
        if values[index] > u64::from(most) {
            return Some(JointRow::Bound {
                arc: index as u32 + 1,
            });
        }
    }
    None
}
