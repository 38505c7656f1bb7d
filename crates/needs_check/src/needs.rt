//! Whether a need holds.

ghost use Rattle.std.specs.Prelude.{◌≡◌, ◌↔◌, ◌≤◌, All, IsTrue, length};
ghost use Rattle.flow_graph.specs.Arcs.{numbered};
ghost use Rattle.flow_graph.specs.Faithful.{GraphOf};
ghost use Rattle.flow_model.specs.Tallies.{IsTallyOf};
ghost use Rattle.cert_text.specs.Lines.{IsNeed};
ghost use Rattle.cert_laws.specs.Needs.{IsNeeded};
ghost use Rattle.needs_check.specs.Rooms.{IsNeedRoomOf};
ghost use Rattle.needs_check.specs.inner.Laid.{IsClear, HoldsParts};

use crate::costs::cost_below;
use crate::demands::are_served;
use crate::known;
use crate::nodes::are_conserved;
use crate::ranges::lie_in;
use crate::room::NeedRoom;
use crate::tables::{clear_parts, lay_parts};
use arc_num::{MAX_ITEMS, MAX_NUMBERED};
use cert_text::Need;
use flow_graph::FlowGraph;
use flow_model::{FlowBox, Tally};
use packing_laws::Instance;

/// Whether the need holds in a box: in parts of one in its scale its flow lies in the box, is conserved at each node,
/// carries the demand of each item, and costs less than the goal. Where there is no goal it may cost anything.
pub fn check_need(
    instance: &Instance,
    graph: &FlowGraph,
    ranges: &FlowBox,
    goal: Option<u64>,
    need: &Need,
    room: &mut NeedRoom,
) -> bool
    requires graph { GraphOf instance.now graph.now }
    requires ranges { length ranges.now ≡ length (numbered graph.now) }
    requires need { IsNeed need.now }
    requires arcs { All (λ x. x.arc ≤ length (numbered graph.now)) need.now.parts }
    requires room { IsNeedRoomOf graph.now room.old }
    ensures value { IsTrue result ↔ IsNeeded instance.now graph.now ranges.now goal need.now }
    ensures room { IsNeedRoomOf graph.now room.new }
{
    check_in(
        instance,
        graph,
        ranges,
        goal,
        need,
        &mut room.values,
        room.carried.as_mut_slice(),
        &mut room.tally,
    )
}

fn check_in(
    instance: &Instance,
    graph: &FlowGraph,
    ranges: &FlowBox,
    goal: Option<u64>,
    need: &Need,
    values: &mut Vec<u64>,
    carried: &mut [u128],
    tally: &mut Tally,
) -> bool
    requires graph { GraphOf instance.now graph.now }
    requires ranges { length ranges.now ≡ length (numbered graph.now) }
    requires need { IsNeed need.now }
    requires arcs { All (λ x. x.arc ≤ length (numbered graph.now)) need.now.parts }
    requires clear { IsClear values.old.items }
    requires size { length values.old.items ≡ length (numbered graph.now) }
    requires room { length carried.old ≡ MAX_ITEMS }
    requires tally { IsTallyOf graph.now tally.old }
    ensures value { IsTrue result ↔ IsNeeded instance.now graph.now ranges.now goal need.now }
    ensures clear { IsClear values.new.items }
    ensures size { length values.new.items ≡ length (numbered graph.now) }
    ensures tally { IsTallyOf graph.now tally.new }
{
    known::graph(instance, graph);
    lay_parts(values.as_mut_slice(), need.parts.as_slice());
    let holds = laid_holds(instance, graph, ranges, goal, need, values, carried, tally);
    clear_parts(values.as_mut_slice(), need.parts.as_slice());
    holds
}

// Whether the need holds whose parts are laid out.
fn laid_holds(
    instance: &Instance,
    graph: &FlowGraph,
    ranges: &FlowBox,
    goal: Option<u64>,
    need: &Need,
    values: &mut Vec<u64>,
    carried: &mut [u128],
    tally: &mut Tally,
) -> bool
    requires graph { GraphOf instance.now graph.now }
    requires ranges { length ranges.now ≡ length (numbered graph.now) }
    requires few { length (numbered graph.now) ≤ MAX_NUMBERED }
    requires laid { HoldsParts need.now.parts values.old.items }
    requires size { length values.old.items ≡ length (numbered graph.now) }
    requires room { length carried.old ≡ MAX_ITEMS }
    requires tally { IsTallyOf graph.now tally.old }
    ensures value { IsTrue result ↔ IsNeeded instance.now graph.now ranges.now goal need.now }
    ensures values { values.new.items ≡ values.old.items }
    ensures tally { IsTallyOf graph.now tally.new }
{
    if !lie_in(ranges, need.scale, values.as_slice()) {
        return false;
    }
    if !are_conserved(instance, graph, values, tally) {
        return false;
    }
    if !are_served(instance, graph, need.scale, values.as_slice(), carried) {
        return false;
    }
    cost_below(instance, graph, need.scale, values.as_slice(), goal)
}
