//! Which row of a worked instance values violate first.

use crate::tests::fixtures::{FIRST_ROWS, two_targets, two_types, worked_graph_is_joint};
use joint_flows::{JointRow, first_bad, no_bad_row_is_flow, packings_are_flows};
use std::alloc::Global;
use std::test::Fail;

/// The first row of the worked instance that the values violate.
fn first_row(alloc: Global, values: &[u64]) -> Result<Option<JointRow>, Fail> {
    let instance = two_types(alloc)?;
    let graph = two_targets(alloc)?;
    worked_graph_is_joint();
    if values.len() != graph.arc_count() as usize {
        return Err("there is a value for each arc".into());
    }
    Ok(first_bad(alloc, &instance, &graph, values)?)
}

#[test]
fn the_first_violated_row_is_named(rt: HostRuntime) -> Result<(), Fail> {
    for (values, row) in FIRST_ROWS {
        assert_eq!(rt; first_row(rt.alloc(), &values)?, row);
    }
    Ok(())
}

#[test]
fn laws_of_flows_hold() {
    no_bad_row_is_flow();
    packings_are_flows();
}
