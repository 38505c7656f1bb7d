//! Packings of worked instances, as dives find them.

ghost use Rattle.std.specs.Prelude.{◌≡◌, IfOk, length};
ghost use Rattle.flow_graph.specs.Arcs.{numbered};
ghost use Rattle.flow_graph.specs.Faithful.{GraphOf, IsFaithful};

use super::*;
use arc_compile::compile;
use arc_num::Memory;
use column_master::Master;
use flow_graph::FlowGraph;
use flow_model::{FlowBox, flows_lie_in_root, root_box};
use packing_laws::{BinType, Instance, Item, Numbers, Vectors, cost};
use std::alloc::Global;
use std::test::Fail;
use std::thread::Threads;

/// The cutting list of V. Chvatal, "Linear Programming" (1983), chapter 13: 453 bars of 100 are enough.
const PAPER_ROLLS: &[(u32, u32)] = &[(45, 97), (36, 610), (31, 395), (14, 211)];

fn rolls(alloc: Global) -> Result<Option<Instance>, Memory> {
    let mut items = Vec::new(alloc);
    for (weight, demand) in PAPER_ROLLS {
        let form = Numbers::new(Vec::from_slice(alloc, &[*weight])?);
        items.push(Item {
            demand: *demand,
            forms: Vectors::new(vec![in alloc; form]?),
        })?;
    }
    let bars = BinType {
        cap: Numbers::new(Vec::from_slice(alloc, &[100])?),
        cost: 1,
        limit: None,
    };
    Ok(Instance::new(1, vec![in alloc; bars]?, items))
}

fn root_of(alloc: Global, instance: &Instance, graph: &FlowGraph) -> Result<FlowBox, Memory>
    requires { GraphOf instance.now graph.now }
    ensures { IfOk result (λ ranges. length ranges ≡ length (numbered graph.now)) }
{
    flows_lie_in_root();
    root_box(alloc, instance, graph)
}

/// What a packing costs that dives from the root box come to.
fn dived_cost(
    alloc: Global,
    instance: &Instance,
    graph: &FlowGraph,
    goal: Goal,
) -> Result<Option<u128>, Memory>
    requires { IsFaithful instance.now graph.now }
{
    let ranges = root_of(alloc, instance, graph)?;
    let mut master = Master::new(alloc, instance, graph)?;
    let _priced = master.price_node(&ranges, 80)?;
    match dive_often(alloc, instance, &mut master, goal, 4)? {
        Some(packing) => Ok(Some(cost(instance, &packing))),
        None => Ok(None),
    }
}

fn dived<R: Threads + Sync>(rt: &R, alloc: Global, goal: Goal) -> Result<Option<u128>, Fail> {
    let instance = rolls(alloc)?.ok_or("no instance")?;
    let compiled = compile(rt, alloc, &instance, 1)?;
    Ok(dived_cost(alloc, &instance, &compiled.graph, goal)?)
}

#[test]
fn dives_reach_the_bound_of_the_rolls(rt: HostRuntime) -> Result<(), Fail> {
    let alloc = rt.alloc();
    for (cut, cost) in [(u64::MAX, Some(453)), (454, Some(453)), (453, None)] {
        let goal = Goal { cut, target: 453 };
        assert_eq!(rt; dived(&rt, alloc, goal)?, cost);
    }
    Ok(())
}
