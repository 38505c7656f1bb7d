//! Room to work in.

ghost use Rattle.std.specs.Prelude.{◌≤◌, All, length};

use arc_num::Memory;
use flow_graph::FlowGraph;
use packing_laws::Instance;
use std::alloc::Global;
use std::marker::Model;

/// Room for the prices of a graph by item and by arc, and for the values of the nodes of a type. Between calls it holds no
/// price.
#[derive(Debug, Drop)]
pub struct Scratch {
    pub(crate) items: Vec<u64>,
    pub(crate) arcs: Vec<i64>,
    pub(crate) values: Vec<i128>,
}

impl Model for Scratch {
    ghost use Rattle.path_prices.specs.Scratches.{ScratchValue};
    ghost use Rattle.path_prices.specs.inner.Tables.{AreClear, room_of};

    ghost Value = { ScratchValue };

    ghost view = { λ s. room_of s.items.items s.arcs.items s.values.items };

    ghost invariant = { λ s. AreClear s.items.items s.arcs.items };
}

impl Scratch {
    ghost use Rattle.std.specs.Prelude.{◌≡◌, IfOk, length};
    ghost use Rattle.flow_graph.specs.Faithful.{GraphOf};
    ghost use Rattle.path_prices.specs.Scratches.{IsScratchOf};

    /// Room for the items of the instance and for the arcs and nodes of the graph.
    pub fn new(alloc: Global, graph: &FlowGraph, instance: &Instance) -> Result<Scratch, Memory>
        requires { GraphOf instance.now graph.now }
        ensures room { IfOk result (λ scratch. IsScratchOf graph.now scratch) }
        ensures items { IfOk result (λ scratch. scratch.items ≡ length instance.now.items) }
    {
        let items = instance.item_count() as usize;
        let arcs = graph.arc_count() as usize;
        let nodes = most_nodes(graph) as usize;
        Ok(Scratch {
            items: vec![in alloc; 0; items]?,
            arcs: vec![in alloc; 0; arcs]?,
            values: vec![in alloc; 0; nodes + 1]?,
        })
    }
}

// How many nodes a type has at most.
fn most_nodes(graph: &FlowGraph) -> u32
    ensures { All (λ x. x.nodes ≤ result) graph.now }
{
    let mut most = 0;
    for t in 0..graph.type_count() {
        let nodes = graph.node_count(t + 1).unwrap_or(0);
        most = most.max(nodes);
    }
    most
}
