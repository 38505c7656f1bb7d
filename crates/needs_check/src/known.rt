//! What is known of graphs. The function costs nothing.

ghost use Rattle.std.specs.Prelude.{◌≤◌, All, length};
ghost use Rattle.flow_graph.specs.Arcs.{numbered};
ghost use Rattle.flow_graph.specs.Faithful.{GraphOf};
ghost use Rattle.flow_model.specs.inner.Known.{NamesType};
ghost use Rattle.needs_check.specs.inner.Laid.{CarriesAmong};

use arc_num::{MAX_ITEMS, MAX_NUMBERED};
use flow_graph::FlowGraph;
use packing_laws::Instance;

/// Bin arcs are those of types, what arcs carry are items, and there are not too many of either.
pub(crate) fn graph(instance: &Instance, graph: &FlowGraph)
    requires { GraphOf instance.now graph.now }
    ensures carried { All (CarriesAmong MAX_ITEMS) (numbered graph.now) }
    ensures types { All (NamesType (length instance.now.types)) (numbered graph.now) }
    ensures items { length instance.now.items ≤ MAX_ITEMS }
    ensures few { length (numbered graph.now) ≤ MAX_NUMBERED }
{
    instance.known();
    graph.known();
}
