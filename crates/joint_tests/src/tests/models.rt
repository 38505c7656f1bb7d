//! The model of a worked instance over its joint graph.

use crate::tests::fixtures::{two_targets, two_types, worked_graph_is_joint};
use flow_graph::ArcKind;
use flow_model::{Column, Entry, Program, RowKind};
use joint_arcs::JointArc;
use joint_model::{joint_models_are_programs, joint_program, solutions_are_flows};
use std::alloc::Global;
use std::test::Fail;

/// The rows: name, kind and right side.
const ROWS: [(&[u8], RowKind, i64); 5] = [
    (b"N1", RowKind::Equal, 0),
    (b"N2", RowKind::Equal, 0),
    (b"N3", RowKind::Equal, 0),
    (b"N4", RowKind::Equal, 0),
    (b"D1", RowKind::Least, 2),
];

/// The columns: name, cost, upper end and entries by row.
const COLUMNS: [(&[u8], i64, u64, &[(u32, i64)]); 7] = [
    (b"Z1", 1, 1, &[(1, 1), (3, -1)]),
    (b"Z2", 5, 2, &[(1, 1), (4, -1)]),
    (b"F3", 0, 2, &[(1, -1), (2, 1), (5, 1)]),
    (b"F4", 0, 2, &[(1, -1), (3, 1)]),
    (b"F5", 0, 2, &[(1, -1), (4, 1)]),
    (b"F6", 0, 2, &[(2, -1), (3, 1)]),
    (b"F7", 0, 2, &[(2, -1), (4, 1)]),
];

#[test]
fn arcs_of_two_targets_have_their_numbers(rt: HostRuntime) -> Result<(), Fail> {
    let graph = two_targets(rt.alloc())?;
    graph.known();
    assert_eq!(rt; (graph.inner_count(), graph.type_count()), (2, 2));
    assert_eq!(rt; (graph.node_count(), graph.arc_count()), (4, 7));
    let second_bin = JointArc {
        tail: 4,
        head: 1,
        item: 0,
        form: 0,
    };
    let unit = JointArc {
        tail: 1,
        head: 2,
        item: 1,
        form: 1,
    };
    assert_eq!(rt;
        (graph.arc(2), graph.arc(3)),
        (Some(second_bin), Some(unit))
    );
    assert_eq!(rt; (graph.arc(0), graph.arc(8)), (None, None));
    assert_eq!(rt; graph.row().get(1).copied(), Some(ArcKind::Bin { t: 2 }));
    Ok(())
}

/// The model of the worked instance.
fn worked_model(alloc: Global) -> Result<Program, Fail> {
    let instance = two_types(alloc)?;
    let graph = two_targets(alloc)?;
    worked_graph_is_joint();
    Ok(joint_program(alloc, &graph, &instance)?)
}

/// Whether these are the rows of the worked model.
fn has_rows(program: &Program) -> bool {
    let rows = program.rows.as_slice();
    let mut same = rows.len() == ROWS.len();
    for (row, (name, kind, right)) in rows.iter().zip(ROWS) {
        same = same && row.name.as_slice() == name && row.kind == kind && row.right == right;
    }
    same
}

/// Whether these are the columns of the worked model.
fn has_columns(program: &Program) -> bool {
    let columns = program.columns.as_slice();
    let mut same = columns.len() == COLUMNS.len();
    for (column, (name, cost, upper, entries)) in columns.iter().zip(COLUMNS) {
        same = same && column.name.as_slice() == name && is_column(column, cost, upper, entries);
    }
    same
}

fn is_column(column: &Column, cost: i64, upper: u64, entries: &[(u32, i64)]) -> bool {
    column.cost == cost
        && (column.lower, column.upper) == (0, upper)
        && has_entries(column.entries.as_slice(), entries)
}

fn has_entries(entries: &[Entry], pairs: &[(u32, i64)]) -> bool {
    let mut same = entries.len() == pairs.len();
    for (entry, pair) in entries.iter().zip(pairs) {
        same = same && (entry.row, entry.value) == *pair;
    }
    same
}

#[test]
fn the_program_has_a_row_for_each_node_and_item(rt: HostRuntime) -> Result<(), Fail> {
    let program = worked_model(rt.alloc())?;
    assert!(rt; program.objective.as_slice() == b"COST".as_slice());
    assert!(rt; has_rows(&program));
    assert!(rt; has_columns(&program));
    Ok(())
}

#[test]
fn laws_of_models_hold() {
    joint_models_are_programs();
    solutions_are_flows();
}
