//! What values cost, and whether that is below a goal.

ghost use Rattle.std.specs.Prelude.{◌≡◌, ◌↔◌, ◌≤◌, All, IsTrue, length};
ghost use Rattle.flow_graph.specs.Arcs.{numbered};
ghost use Rattle.flow_graph.specs.Faithful.{GraphOf};
ghost use Rattle.flow_model.specs.Flows.{arc_cost, flow_cost, weigh_arcs};
ghost use Rattle.flow_model.specs.inner.Known.{NamesType};
ghost use Rattle.cert_laws.specs.Needs.{CostsBelow};

use crate::known;
use arc_num::MAX_NUMBERED;
use flow_graph::{ArcKind, FlowGraph};
use packing_laws::Instance;

/// Whether the values cost, in parts of one in the scale, less than the goal. Without a goal they do.
pub(crate) fn cost_below(
    instance: &Instance,
    graph: &FlowGraph,
    scale: u64,
    values: &[u64],
    goal: Option<u64>,
) -> bool
    requires graph { GraphOf instance.now graph.now }
    requires size { length values.now ≡ length (numbered graph.now) }
    ensures { IsTrue result ↔ CostsBelow goal scale (flow_cost instance.now graph.now values.now) }
{
    known::graph(instance, graph);
    is_below(row_cost(instance, graph.row(), values), scale, goal)
}

// What the values of arcs cost.
fn row_cost(instance: &Instance, row: &[ArcKind], values: &[u64]) -> u128
    requires size { length values.now ≡ length row.now }
    requires few { length row.now ≤ MAX_NUMBERED }
    requires types { All (NamesType (length instance.now.types)) row.now }
    ensures { result ≡ weigh_arcs (arc_cost instance.now) row.now values.now }
{
    let mut cost = 0;
    for index in 0..row.len() {
        let unit = unit_cost(instance, &row[index]);
        cost += u128::from(unit) * u128::from(values[index]);
    }
    cost
}

// What a unit on an arc costs.
fn unit_cost(instance: &Instance, kind: &ArcKind) -> u32
    requires { NamesType (length instance.now.types) kind.now }
    ensures { result ≡ arc_cost instance.now kind.now }
{
    match *kind {
        ArcKind::Bin { t } => match instance.bin_type(t) {
            Some(bin_type) => bin_type.cost,
            None => unreachable!(),
        },
        ArcKind::Loss { .. } | ArcKind::Piece { .. } => 0,
    }
}

// Whether a cost in parts of one in the scale is at most the goal less 1.
fn is_below(cost: u128, scale: u64, goal: Option<u64>) -> bool
    ensures { IsTrue result ↔ CostsBelow goal scale cost }
{
    match goal {
        None => true,
        Some(goal) => goal > 0 && cost <= u128::from(scale) * u128::from(goal - 1),
    }
}
