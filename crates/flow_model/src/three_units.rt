//! An instance and a graph that are worked by hand, for tests here and above.

ghost use Rattle.std.specs.Prelude.{◌≡◌, IfOk, IfSome};
ghost use Rattle.flow_model.specs.Worked.{three_of_one as three_of_one_is, its_graph};

use crate::laws::examples_come_out;
use arc_num::Memory;
use flow_graph::{FlowGraph, TypeArc};
use packing_laws::{BinType, Instance, Item, Numbers, Vectors};
use std::alloc::Global;

/// Three units of an item of weight 1, and bins of 2 for 3. It is there but for want of memory.
pub fn three_of_one(alloc: Global) -> Result<Option<Instance>, Memory>
    ensures { IfOk result (λ o. IfSome o (λ I. I ≡ three_of_one_is)) }
{
    let capacity = Numbers::new(vec![in alloc; 2]?);
    let weight = Numbers::new(vec![in alloc; 1]?);
    let bin_type = BinType {
        cap: capacity,
        cost: 3,
        limit: None,
    };
    let item = Item {
        demand: 3,
        forms: Vectors::new(vec![in alloc; weight]?),
    };
    Ok(Instance::new(1, vec![in alloc; bin_type]?, vec![in alloc; item]?))
}

/// The arcs of a bin that holds at most two units.
pub fn graph_of_two(alloc: Global) -> Result<FlowGraph, Memory>
    ensures { IfOk result (λ graph. graph ≡ its_graph) }
{
    let mut graph = FlowGraph::new(alloc);
    examples_come_out();
    let first = TypeArc {
        tail: 1,
        head: 2,
        item: 1,
        form: 1,
    };
    let skip = TypeArc {
        tail: 1,
        head: 3,
        item: 0,
        form: 0,
    };
    let loss = TypeArc {
        tail: 2,
        head: 3,
        item: 0,
        form: 0,
    };
    let second = TypeArc {
        tail: 2,
        head: 3,
        item: 1,
        form: 1,
    };
    graph.add_type(3, &[first, skip, loss, second])?;
    Ok(graph)
}
