//! What is known of graphs and tallies. The functions cost nothing.

ghost use Rattle.std.specs.Prelude.{All, length};
ghost use Rattle.flow_graph.specs.Arcs.{numbered};
ghost use Rattle.flow_graph.specs.Faithful.{GraphOf};
ghost use Rattle.flow_model.specs.Tallies.{IsTallyOf};
ghost use Rattle.flow_model.specs.inner.Known.{IsKnownGraph};
ghost use Rattle.flow_model.specs.inner.Sums.{IsPlaced, Holds, IsFilled};

use crate::flows::Flow;
use crate::tallies::Tally;
use flow_graph::FlowGraph;
use packing_laws::Instance;

/// What a graph of an instance keeps.
pub(crate) fn graph(instance: &Instance, graph: &FlowGraph)
    requires { GraphOf instance.now graph.now }
    ensures { IsKnownGraph instance.now graph.now }
{
    instance.known();
    graph.known();
}

/// Each arc has its places in a tally of the graph.
pub(crate) fn places(instance: &Instance, graph: &FlowGraph, tally: &Tally)
    requires graph { GraphOf instance.now graph.now }
    requires tally { IsTallyOf graph.now tally.now }
    ensures { All (IsPlaced (length tally.now.inflow) tally.now.starts) (numbered graph.now) }
{
    let _tally = tally;
    self::graph(instance, graph);
}

/// The sums by place are those at nodes and items.
pub(crate) fn sums(instance: &Instance, graph: &FlowGraph, flow: &Flow, tally: &Tally)
    requires graph { GraphOf instance.now graph.now }
    requires tally { IsTallyOf graph.now tally.now }
    requires sums { Holds (numbered graph.now) flow.now.values tally.now }
    ensures { IsFilled instance.now graph.now flow.now.values tally.now }
{
    let _flow = flow;
    let _tally = tally;
    instance.known();
    graph.known();
}
