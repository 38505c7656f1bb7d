//! Whether values are conserved at the nodes.

ghost use Rattle.std.specs.Prelude.{◌≡◌, ◌↔◌, IsTrue, length};
ghost use Rattle.flow_graph.specs.Arcs.{numbered};
ghost use Rattle.flow_graph.specs.Faithful.{GraphOf};
ghost use Rattle.flow_model.specs.Flows.{AreConserved};
ghost use Rattle.flow_model.specs.Tallies.{IsTallyOf};
ghost use Rattle.needs_check.specs.inner.Rows.{names_no_node};

use arc_num::Listed;
use flow_graph::FlowGraph;
use flow_model::{Flow, FlowRow, Tally, first_bad};
use packing_laws::Instance;
use std::mem;

/// Whether what comes into each node goes out of it. The rows of the model begin with those of the nodes: so some node
/// is not conserved exactly where the first row that the values violate is one of a node.
pub(crate) fn are_conserved(
    instance: &Instance,
    graph: &FlowGraph,
    values: &mut Vec<u64>,
    tally: &mut Tally,
) -> bool
    requires graph { GraphOf instance.now graph.now }
    requires size { length values.old.items ≡ length (numbered graph.now) }
    requires tally { IsTallyOf graph.now tally.old }
    ensures value { IsTrue result ↔ AreConserved graph.now values.old.items }
    ensures values { values.new.items ≡ values.old.items }
    ensures tally { IsTallyOf graph.now tally.new }
{
    let lent = mem::replace(values, Vec::new(*values.allocator()));
    let flow = Flow {
        values: Listed::new(lent),
    };
    let conserved = keeps_nodes(instance, graph, &flow, tally);
    *values = flow.values.into_list();
    conserved
}

// Whether no row of a node is the first that a flow violates.
fn keeps_nodes(instance: &Instance, graph: &FlowGraph, flow: &Flow, tally: &mut Tally) -> bool
    requires graph { GraphOf instance.now graph.now }
    requires size { length flow.now.values ≡ length (numbered graph.now) }
    requires tally { IsTallyOf graph.now tally.old }
    ensures value { IsTrue result ↔ AreConserved graph.now flow.now.values }
    ensures tally { IsTallyOf graph.now tally.new }
{
    names_no_node(first_bad(instance, graph, flow, tally))
}

// Whether a row that is violated first, if there is one, is none of a node.
fn names_no_node(bad: Option<FlowRow>) -> bool
    ensures { result ≡ names_no_node bad }
{
    match bad {
        Some(FlowRow::Node { .. }) => false,
        Some(FlowRow::Demand { .. } | FlowRow::Bound { .. }) | None => true,
    }
}
