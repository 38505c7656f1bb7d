//! Flows of the compiled joint graph of a worked instance, as packings.

use crate::tests::fixtures::{FIRST_ROWS, two_targets, two_types};
use joint_compile::{
    joint_graph_is_one, joint_graphs_are_faithful, joint_of, joint_sizes_are_one, joint_sizes_exist,
};
use joint_extract::{JointFault, joint_extract};
use packing_laws::cost;
use std::alloc::Global;
use std::test::Fail;

#[test]
fn the_compiled_graph_is_the_worked_one(rt: HostRuntime) -> Result<(), Fail> {
    let instance = two_types(rt.alloc())?;
    let compiled = joint_of(rt.alloc(), &instance)?;
    let worked = two_targets(rt.alloc())?;
    assert_eq!(rt; compiled.inner_count(), worked.inner_count());
    assert!(rt; compiled.row() == worked.row());
    Ok(())
}

/// What the packing costs that the values are, over the compiled graph of the worked instance.
fn packed_cost(alloc: Global, values: &[u64]) -> Result<Result<u128, JointFault>, Fail> {
    let instance = two_types(alloc)?;
    let graph = joint_of(alloc, &instance)?;
    if values.len() != graph.arc_count() as usize {
        return Err("there is a value for each arc".into());
    }
    match joint_extract(alloc, &instance, &graph, values) {
        Ok(packing) => Ok(Ok(cost(&instance, &packing))),
        Err(fault) => Ok(Err(fault)),
    }
}

#[test]
fn a_flow_is_a_packing(rt: HostRuntime) -> Result<(), Fail> {
    for (values, bad) in FIRST_ROWS {
        let expected = match bad {
            None => Ok(6),
            Some(row) => Err(JointFault::NotFlow { row }),
        };
        assert!(rt; packed_cost(rt.alloc(), &values)? == expected);
    }
    Ok(())
}

#[test]
fn laws_of_compiled_graphs_hold() {
    joint_graphs_are_faithful();
    joint_graph_is_one();
    joint_sizes_are_one();
    joint_sizes_exist();
}
