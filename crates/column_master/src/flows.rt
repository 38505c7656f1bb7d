//! Flows in fractions, tested at each node, and those that show a need.

ghost use Rattle.std.specs.Prelude.{◌≡◌, ◌↔◌, ◌+◌, ◌<◌, ◌≤◌, All, IfOk, IfSome, IsTrue, length};
ghost use Rattle.flow_graph.specs.Arcs.{numbered};
ghost use Rattle.flow_graph.specs.Faithful.{GraphOf};
ghost use Rattle.flow_model.specs.Flows.{AreConserved};
ghost use Rattle.flow_model.specs.Tallies.{IsTallyOf};
ghost use Rattle.cert_text.specs.Lines.{IsBetween};
ghost use Rattle.cert_laws.specs.Needs.{IsNeeded};
ghost use Rattle.needs_check.specs.Rooms.{IsNeedRoomOf};
ghost use Rattle.needs_check.specs.inner.Laid.{HoldsParts};
ghost use Rattle.needs_check.specs.inner.Rows.{names_no_node};
ghost use Rattle.column_master.specs.NodePrices.{IsFlowOf};
ghost use Rattle.column_master.specs.inner.Listings.{AreListed, HoldsFirst};

use crate::relaxation::Relaxation;
use arc_num::{Listed, MAX_NUMBERED, MAX_PRICE, Memory};
use cert_text::{ArcPart, Need};
use column_pool::ColumnPool;
use flow_graph::FlowGraph;
use flow_model::{Flow, FlowBox, FlowRow, Tally, first_bad};
use forms::{FORMS, Form, is_hopeless, takings_in};
use needs_check::{NeedRoom, check_need};
use packing_laws::Instance;
use std::alloc::Global;
use takings::{Takings, add_takings, plain_takings};

mod exact;
mod fitting;
mod forms;
mod fractions;
mod margins;
mod refining;
mod takings;

/// The program that a flow is read from, and the pool of its columns.
#[derive(Clone, Copy)]
pub(crate) struct Solved<'a> {
    pub pool: &'a ColumnPool,
    pub relaxation: &'a Relaxation,
}

/// The columns of a solution as a flow in parts of one in a scale: 2^40, or less where there are too many bins. Nothing flows
/// where the sums are not what they should be.
pub(crate) fn flow_of(
    alloc: Global,
    instance: &Instance,
    graph: &FlowGraph,
    solved: Solved<'_>,
    tally: &mut Tally,
) -> Result<Need, Memory>
    requires graph { GraphOf instance.now graph.now }
    requires tally { IsTallyOf graph.now tally.old }
    ensures flow { IfOk result (IsFlowOf graph.now) }
    ensures tally { IsTallyOf graph.now tally.new }
{
    let takings = plain_takings(alloc, solved.relaxation)?;
    flow_along(alloc, instance, graph, solved.pool, &takings, tally)
}

/// A flow of a program that shows that no prices close the box for the goal: the first form of its solution that holds.
pub(crate) fn need_of(
    alloc: Global,
    instance: &Instance,
    graph: &FlowGraph,
    solved: Solved<'_>,
    ranges: &FlowBox,
    goal: Option<u64>,
    tally: &mut Tally,
) -> Result<Option<Need>, Memory>
    requires graph { GraphOf instance.now graph.now }
    requires ranges { length ranges.now ≡ length (numbered graph.now) }
    requires tally { IsTallyOf graph.now tally.old }
    ensures flow { IfOk result (λ found. IfSome found (IsFlowOf graph.now)) }
    ensures needed { IfOk result (λ found. IfSome found (IsNeeded instance.now graph.now ranges.now goal)) }
    ensures tally { IsTallyOf graph.now tally.new }
{
    if is_hopeless(solved.relaxation, goal) {
        return Ok(None);
    }
    let mut room = NeedRoom::new(alloc, graph, instance)?;
    for form in FORMS {
        let found = need_in(
            alloc, instance, graph, solved, ranges, goal, form, tally, &mut room,
        )?;
        if let Some(need) = found {
            return Ok(Some(need));
        }
    }
    Ok(None)
}

/// The solution in one form, where it is a flow that shows the need.
fn need_in(
    alloc: Global,
    instance: &Instance,
    graph: &FlowGraph,
    solved: Solved<'_>,
    ranges: &FlowBox,
    goal: Option<u64>,
    form: Form,
    tally: &mut Tally,
    room: &mut NeedRoom,
) -> Result<Option<Need>, Memory>
    requires graph { GraphOf instance.now graph.now }
    requires ranges { length ranges.now ≡ length (numbered graph.now) }
    requires tally { IsTallyOf graph.now tally.old }
    requires room { IsNeedRoomOf graph.now room.old }
    ensures flow { IfOk result (λ found. IfSome found (IsFlowOf graph.now)) }
    ensures needed { IfOk result (λ found. IfSome found (IsNeeded instance.now graph.now ranges.now goal)) }
    ensures tally { IsTallyOf graph.now tally.new }
    ensures room { IsNeedRoomOf graph.now room.new }
{
    let Some(takings) = takings_in(alloc, graph, solved, ranges, form)? else {
        return Ok(None);
    };
    let need = flow_along(alloc, instance, graph, solved.pool, &takings, tally)?;
    if check_need(instance, graph, ranges, goal, &need, room) {
        return Ok(Some(need));
    }
    Ok(None)
}

/// Columns as a flow, each as often as it is taken. Nothing flows where the sums are not what they should be.
fn flow_along(
    alloc: Global,
    instance: &Instance,
    graph: &FlowGraph,
    pool: &ColumnPool,
    takings: &Takings,
    tally: &mut Tally,
) -> Result<Need, Memory>
    requires graph { GraphOf instance.now graph.now }
    requires tally { IsTallyOf graph.now tally.old }
    ensures flow { IfOk result (IsFlowOf graph.now) }
    ensures tally { IsTallyOf graph.now tally.new }
{
    let mut values = vec![in alloc; 0; graph.arc_count() as usize]?;
    let columns = takings.columns.as_slice();
    add_takings(graph, pool, columns, values.as_mut_slice());
    let flow = Flow {
        values: Listed::new(values),
    };
    tested(alloc, instance, graph, &flow, takings.scale, tally)
}

/// The values in parts of one in a scale where they are conserved, and else nothing.
fn tested(
    alloc: Global,
    instance: &Instance,
    graph: &FlowGraph,
    flow: &Flow,
    scale: u64,
    tally: &mut Tally,
) -> Result<Need, Memory>
    requires graph { GraphOf instance.now graph.now }
    requires size { length flow.now.values ≡ length (numbered graph.now) }
    requires tally { IsTallyOf graph.now tally.old }
    ensures flow { IfOk result (IsFlowOf graph.now) }
    ensures tally { IsTallyOf graph.now tally.new }
{
    let conserved = are_conserved(instance, graph, flow, tally);
    if conserved && are_small(flow.values.as_slice()) {
        return told(alloc, graph, flow.values.as_slice(), scale);
    }
    Ok(nothing(alloc, graph))
}

/// Whether what comes into each node goes out of it.
fn are_conserved(instance: &Instance, graph: &FlowGraph, flow: &Flow, tally: &mut Tally) -> bool
    requires graph { GraphOf instance.now graph.now }
    requires size { length flow.now.values ≡ length (numbered graph.now) }
    requires tally { IsTallyOf graph.now tally.old }
    ensures value { IsTrue result → AreConserved graph.now flow.now.values }
    ensures tally { IsTallyOf graph.now tally.new }
{
    let bad = first_bad(instance, graph, flow, tally);
    is_no_node(bad)
}

fn is_no_node(bad: Option<FlowRow>) -> bool
    ensures { result ≡ names_no_node bad }
{
    match bad {
        Some(FlowRow::Node { .. }) => false,
        Some(FlowRow::Demand { .. } | FlowRow::Bound { .. }) | None => true,
    }
}

fn are_small(values: &[u64]) -> bool
    ensures { IsTrue result ↔ All (λ x. x ≤ MAX_PRICE) values.now }
{
    values.iter().all(|value| *value <= MAX_PRICE)
}

/// A flow of nothing.
pub(crate) fn nothing(alloc: Global, graph: &FlowGraph) -> Need
    ensures { IsFlowOf graph.now result }
{
    let _graph = graph;
    Need {
        scale: 1,
        parts: Listed::empty(alloc),
    }
}

/// The arcs that carry something.
fn told(alloc: Global, graph: &FlowGraph, values: &[u64], scale: u64) -> Result<Need, Memory>
    requires size { length values.now ≡ length (numbered graph.now) }
    requires conserved { AreConserved graph.now values.now }
    requires small { All (λ x. x ≤ MAX_PRICE) values.now }
    ensures { IfOk result (IsFlowOf graph.now) }
{
    let _count = graph.arc_count();
    let parts = listed_parts(alloc, values)?;
    Ok(Need {
        scale: scale.max(1).min(MAX_PRICE),
        parts,
    })
}

fn listed_parts(alloc: Global, values: &[u64]) -> Result<Listed<ArcPart>, Memory>
    requires few { length values.now ≤ MAX_NUMBERED }
    requires small { All (λ x. x ≤ MAX_PRICE) values.now }
    ensures listed { IfOk result (AreListed (λ x. x.arc) (λ x. IsBetween 1 MAX_PRICE x.value) (length values.now)) }
    ensures holds { IfOk result (λ parts. HoldsParts parts values.now) }
{
    let mut listed = Listed::empty(alloc);
    for index in 0..values.len() {
        list_part(&mut listed, values, index)?;
    }
    Ok(listed)
}

/// Lists the next arc where it carries something.
fn list_part(listed: &mut Listed<ArcPart>, values: &[u64], index: usize) -> Result<(), Memory>
    requires within { index < length values.now }
    requires few { length values.now ≤ MAX_NUMBERED }
    requires small { All (λ x. x ≤ MAX_PRICE) values.now }
    requires before { AreListed (λ x. x.arc) (λ x. IsBetween 1 MAX_PRICE x.value) index listed.old }
    requires held { HoldsFirst index listed.old values.now }
    ensures listed { IfOk result (λ _. AreListed (λ x. x.arc) (λ x. IsBetween 1 MAX_PRICE x.value) (index + 1) listed.new) }
    ensures holds { IfOk result (λ _. HoldsFirst (index + 1) listed.new values.now) }
{
    let value = values[index];
    if value == 0 {
        return Ok(());
    }
    listed.push(ArcPart {
        arc: index as u32 + 1,
        value,
    })?;
    Ok(())
}
