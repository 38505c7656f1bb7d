//! Whether values are a flow, and which row they violate first.

ghost use Rattle.std.specs.Prelude.{◌≡◌, ◌≤◌, ◌↔◌, IsNone, IsTrue, length, map, sum_by};
ghost use Rattle.packing_laws.specs.Instances.{IsAmong};
ghost use Rattle.flow_graph.specs.Arcs.{numbered, flow_type};
ghost use Rattle.flow_graph.specs.Faithful.{GraphOf};
ghost use Rattle.flow_model.specs.declared.flows.FlowRow.TheVariants.{Node, Demand, Bound};
ghost use Rattle.flow_model.specs.Flows.{IsFlow, Keeps, FirstBroken, FirstBadRow, all_nodes, up_to};
ghost use Rattle.flow_model.specs.Tallies.{IsTallyOf};
ghost use Rattle.flow_model.specs.inner.Known.{IsKnownGraph};
ghost use Rattle.flow_model.specs.inner.Sums.{IsFilled};

use crate::boxes::upper;
use crate::flows::{Flow, FlowRow};
use crate::known;
use crate::places::node_count;
use crate::tallies::Tally;
use arc_num::MAX_NUMBERED;
use flow_graph::FlowGraph;
use packing_laws::Instance;

/// The first row of the model that the values violate: nodes by type and number, then items, then ranges of arcs.
pub fn first_bad(
    instance: &Instance,
    graph: &FlowGraph,
    flow: &Flow,
    tally: &mut Tally,
) -> Option<FlowRow>
    requires graph { GraphOf instance.now graph.now }
    requires tally { IsTallyOf graph.now tally.old }
    requires size { length flow.now.values ≡ length (numbered graph.now) }
    ensures first { FirstBadRow instance.now graph.now flow.now.values result }
    ensures none { IsNone result ↔ IsFlow instance.now graph.now flow.now.values }
    ensures tally { IsTallyOf graph.now tally.new }
{
    known::graph(instance, graph);
    known::places(instance, graph, tally);
    tally.take_sums(graph.row(), flow.values.as_slice());
    known::sums(instance, graph, flow, tally);
    if let Some(row) = bad_node(instance, graph, flow, tally) {
        return Some(row);
    }
    if let Some(row) = bad_demand(instance, graph, flow, tally) {
        return Some(row);
    }
    bad_bound(instance, graph, flow)
}

/// Whether the values are a flow.
pub fn is_flow(instance: &Instance, graph: &FlowGraph, flow: &Flow, tally: &mut Tally) -> bool
    requires graph { GraphOf instance.now graph.now }
    requires tally { IsTallyOf graph.now tally.old }
    requires size { length flow.now.values ≡ length (numbered graph.now) }
    ensures value { IsTrue result ↔ IsFlow instance.now graph.now flow.now.values }
    ensures tally { IsTallyOf graph.now tally.new }
{
    first_bad(instance, graph, flow, tally).is_none()
}

// The first node where what comes in is not what goes out.
fn bad_node(instance: &Instance, graph: &FlowGraph, flow: &Flow, tally: &Tally) -> Option<FlowRow>
    requires nodes { sum_by (λ x. x.nodes) graph.now ≤ MAX_NUMBERED }
    requires tally { IsTallyOf graph.now tally.now }
    requires sums { IsFilled instance.now graph.now flow.now.values tally.now }
    ensures { FirstBroken (Keeps instance.now graph.now flow.now.values) (map (λ node. Node node.0 node.1) (all_nodes graph.now)) result }
{
    for t in 0..graph.type_count() {
        let bad = bad_node_of(instance, graph, flow, tally, t + 1);
        if bad.is_some() {
            return bad;
        }
    }
    None
}

// The first such node of a type.
fn bad_node_of(
    instance: &Instance,
    graph: &FlowGraph,
    flow: &Flow,
    tally: &Tally,
    t: u32,
) -> Option<FlowRow>
    requires of_type { IsAmong t (length graph.now) }
    requires nodes { sum_by (λ x. x.nodes) graph.now ≤ MAX_NUMBERED }
    requires tally { IsTallyOf graph.now tally.now }
    requires sums { IsFilled instance.now graph.now flow.now.values tally.now }
    ensures { FirstBroken (Keeps instance.now graph.now flow.now.values) (map (λ v. Node t v) (up_to (flow_type graph.now t).nodes)) result }
{
    let start = tally.start(t - 1);
    for index in 0..node_count(graph, t) {
        let (inflow, outflow) = tally.node((start + index) as usize);
        if inflow != outflow {
            return Some(FlowRow::Node { t, node: index + 1 });
        }
    }
    None
}

// The first item of which less is carried than is asked for.
fn bad_demand(instance: &Instance, graph: &FlowGraph, flow: &Flow, tally: &Tally) -> Option<FlowRow>
    requires tally { IsTallyOf graph.now tally.now }
    requires sums { IsFilled instance.now graph.now flow.now.values tally.now }
    ensures { FirstBroken (Keeps instance.now graph.now flow.now.values) (map (λ i. Demand i) (up_to (length instance.now.items))) result }
{
    let mut index = 0;
    for item in instance.items() {
        if tally.item(index) < u128::from(item.demand) {
            return Some(FlowRow::Demand {
                item: index as u32 + 1,
            });
        }
        index += 1;
    }
    None
}

// The first arc whose value is out of its range.
fn bad_bound(instance: &Instance, graph: &FlowGraph, flow: &Flow) -> Option<FlowRow>
    requires known { IsKnownGraph instance.now graph.now }
    requires size { length flow.now.values ≡ length (numbered graph.now) }
    ensures { FirstBroken (Keeps instance.now graph.now flow.now.values) (map (λ a. Bound a) (up_to (length (numbered graph.now)))) result }
{
    let units = instance.units();
    let values = flow.values.as_slice();
    let mut index = 0;
    for kind in graph.row() {
        if values[index] > u64::from(upper(instance, units, kind)) {
            return Some(FlowRow::Bound {
                arc: index as u32 + 1,
            });
        }
        index += 1;
    }
    None
}
