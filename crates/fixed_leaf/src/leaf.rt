//! What closes a box in which each chord has one value.

ghost use Rattle.std.specs.Prelude.{◌≡◌, ◌≤◌, All, map, unsigned_abs, IfOk, length};
ghost use Rattle.flow_graph.specs.Arcs.{numbered};
ghost use Rattle.flow_graph.specs.Faithful.{GraphOf};
ghost use Rattle.flow_model.specs.Boxes.{LiesWithin, root_ranges};
ghost use Rattle.flow_graph.specs.Balance.{AreBalanced};
ghost use Rattle.flow_model.specs.Flows.{arc_cost, weigh_arcs};
ghost use Rattle.flow_model.specs.inner.Known.{NamesType};
ghost use Rattle.fixed_leaf.specs.Leaves.{AreTold, ChordsAreFixed, Settles};
ghost use Rattle.fixed_leaf.specs.inner.Found.{IsDemand, IsFound, unmet_by};

use crate::faults::{Fault, range_fault};
use crate::joints::net_of;
use crate::prices::{leaf_prices, unit_cost};
use crate::values::settled_values;
use arc_num::{Listed, MAX_NUMBERED, Memory};
use cert_text::Prices;
use flow_graph::{ArcKind, FlowGraph};
use flow_model::{Flow, FlowBox, FlowRow, Tally, first_bad};
use packing_laws::Instance;
use std::alloc::Global;

/// The one flow in a box, and what it costs. The cost may be too great for a claim: a bin arc may carry a unit for each unit
/// of the demands, whether or not something is in the bins.
#[derive(Clone, Debug, PartialEq, Eq, Drop)]
pub struct OnlyFlow {
    pub flow: Flow,
    pub cost: u128,
}

/// Prices that close a box, and the one flow that lies in it, if there is one.
#[derive(Clone, Debug, PartialEq, Eq, Drop)]
pub struct FixedLeaf {
    pub prices: Prices,
    pub flow: Option<OnlyFlow>,
}

/// Closes a box in which each chord has one value. Where a flow lies in it, that is the only one, and the prices close the
/// box for each bound up to what it costs; where none does, they close it for every claim.
pub fn fixed_leaf(
    alloc: Global,
    instance: &Instance,
    graph: &FlowGraph,
    ranges: &FlowBox,
) -> Result<FixedLeaf, Memory>
    requires graph { GraphOf instance.now graph.now }
    requires within { LiesWithin ranges.now (root_ranges instance.now graph.now) }
    requires fixed { ChordsAreFixed graph.now ranges.now }
    ensures told { IfOk result (λ leaf. AreTold instance.now graph.now leaf.prices) }
    ensures settled { IfOk result (λ leaf. Settles instance.now graph.now ranges.now leaf.prices leaf.flow) }
{
    instance.known();
    graph.known();
    let net = net_of(alloc, instance, graph)?;
    let values = settled_values(alloc, &net, ranges)?;
    match find_flow(alloc, instance, graph, ranges, values.as_slice())? {
        Found::Fault(fault) => Ok(FixedLeaf {
            prices: leaf_prices(alloc, instance, graph, &net, Some(fault))?,
            flow: None,
        }),
        Found::Flow(flow) => Ok(FixedLeaf {
            prices: leaf_prices(alloc, instance, graph, &net, None)?,
            flow: Some(flow),
        }),
    }
}

/// What balanced values of all arcs are in a box.
#[derive(Debug, Drop)]
enum Found {
    Flow(OnlyFlow),
    Fault(Fault),
}

// Whether the values are a flow in the box, and else why not.
fn find_flow(
    alloc: Global,
    instance: &Instance,
    graph: &FlowGraph,
    ranges: &FlowBox,
    values: &[i64],
) -> Result<Found, Memory>
    requires graph { GraphOf instance.now graph.now }
    requires within { LiesWithin ranges.now (root_ranges instance.now graph.now) }
    requires size { length values.now ≡ length (numbered graph.now) }
    requires balanced { AreBalanced graph.now values.now }
    ensures { IfOk result (IsFound instance.now graph.now ranges.now values.now) }
{
    instance.known();
    graph.known();
    if let Some(fault) = range_fault(ranges, values) {
        return Ok(Found::Fault(fault));
    }
    let flow = flow_of(alloc, values)?;
    let mut tally = Tally::new(alloc, graph)?;
    match first_bad(instance, graph, &flow, &mut tally) {
        None => {
            let cost = cost_of(instance, graph.row(), flow.values.as_slice());
            Ok(Found::Flow(OnlyFlow { flow, cost }))
        }
        Some(row) => Ok(Found::Fault(unmet(row))),
    }
}

// The item that a violated row of a demand names.
fn unmet(row: FlowRow) -> Fault
    requires { IsDemand row }
    ensures { result ≡ unmet_by row }
{
    match row {
        FlowRow::Demand { item } => Fault::Unmet { item },
        FlowRow::Node { .. } | FlowRow::Bound { .. } => unreachable!(),
    }
}

// The values, none of which is negative, as a flow.
fn flow_of(alloc: Global, values: &[i64]) -> Result<Flow, Memory>
    ensures { IfOk result (λ flow. flow.values ≡ map unsigned_abs values.now) }
{
    let mut list = Listed::empty(alloc);
    for value in values {
        list.push(value.unsigned_abs())?;
    }
    Ok(Flow { values: list })
}

// What the values of arcs cost.
fn cost_of(instance: &Instance, row: &[ArcKind], values: &[u64]) -> u128
    requires size { length values.now ≡ length row.now }
    requires few { length row.now ≤ MAX_NUMBERED }
    requires types { All (NamesType (length instance.now.types)) row.now }
    ensures { result ≡ weigh_arcs (arc_cost instance.now) row.now values.now }
{
    let mut cost = 0;
    for index in 0..row.len() {
        let unit = unit_cost(instance, &row[index]);
        cost += u128::from(unit) * u128::from(values[index]);
    }
    cost
}
