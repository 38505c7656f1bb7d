//! Boxes, flows and programs of an instance that is worked by hand.

ghost use Rattle.std.specs.Prelude.{◌≡◌, IfOk};

use crate::tests::fixtures::{NO_FLOWS, flow_of, needs_send, three_units};
use arc_num::{Listed, Memory};
use flow_model::{
    Column, Entry, FlowBox, Program, Row, RowKind, Tally, boxes_split, conserved_is_balanced,
    examples_come_out, first_bad, flows_lie_in_root, graph_of_two, is_flow, models_are_programs,
    packings_are_flows, prices_add_up, program_of, root_box, solutions_are_flows,
};
use std::alloc::Global;
use std::test::Fail;

/// A copy of a box is equal to it.
fn copy_of(ranges: &FlowBox) -> Result<FlowBox, Memory>
    ensures { IfOk result (λ copy. copy ≡ ranges.now) }
{
    Ok(ranges.clone()?)
}

#[test]
fn the_root_box_has_a_range_for_each_arc(rt: HostRuntime) -> Result<(), Fail> {
    let alloc = rt.alloc();
    let instance = three_units(alloc)?;
    let graph = graph_of_two(alloc)?;
    examples_come_out();
    let mut ranges = root_box(alloc, &instance, &graph)?;
    for a in 1..6 {
        assert_eq!(rt; ranges.range(a), Some((0, 3)));
    }
    assert_eq!(rt; (ranges.range(0), ranges.range(6)), (None, None));
    let whole = copy_of(&ranges)?;
    ranges.set_range(1, 1, 2);
    ranges.known();
    assert_eq!(rt;
        (ranges.range(1), ranges.range(2)),
        (Some((1, 2)), Some((0, 3)))
    );
    assert_eq!(rt; whole.range(1), Some((0, 3)));
    needs_send(&ranges);
    Ok(())
}

#[test]
fn two_bins_of_two_are_a_flow(rt: HostRuntime) -> Result<(), Fail> {
    let alloc = rt.alloc();
    let instance = three_units(alloc)?;
    let graph = graph_of_two(alloc)?;
    examples_come_out();
    let mut tally = Tally::new(alloc, &graph)?;
    let flow = flow_of(alloc, &[2, 2, 0, 0, 2])?;
    assert_eq!(rt; first_bad(&instance, &graph, &flow, &mut tally), None);
    assert!(rt; is_flow(&instance, &graph, &flow, &mut tally));
    needs_send(&flow);
    needs_send(&tally);
    Ok(())
}

#[test]
fn the_first_violated_row_is_named(rt: HostRuntime) -> Result<(), Fail> {
    let alloc = rt.alloc();
    let instance = three_units(alloc)?;
    let graph = graph_of_two(alloc)?;
    examples_come_out();
    for (values, row) in NO_FLOWS {
        let mut tally = Tally::new(alloc, &graph)?;
        let flow = flow_of(alloc, &values)?;
        assert!(rt; !is_flow(&instance, &graph, &flow, &mut tally));
        assert_eq!(rt; first_bad(&instance, &graph, &flow, &mut tally), Some(row));
    }
    Ok(())
}

#[test]
fn laws_hold() {
    examples_come_out();
    solutions_are_flows();
    packings_are_flows();
    models_are_programs();
    prices_add_up();
    conserved_is_balanced();
    boxes_split();
    flows_lie_in_root();
}

/// The names of rows and columns, each with a space behind it.
fn names_of(alloc: Global, program: &Program) -> Result<Vec<u8>, Memory> {
    let mut names = Vec::new(alloc);
    for row in program.rows.as_slice() {
        names.extend_from_slice(row.name.as_slice())?;
        names.push(b' ')?;
    }
    for column in program.columns.as_slice() {
        names.extend_from_slice(column.name.as_slice())?;
        names.push(b' ')?;
    }
    Ok(names)
}

#[test]
fn the_program_has_a_row_for_each_node_and_item(rt: HostRuntime) -> Result<(), Fail> {
    let alloc = rt.alloc();
    let instance = three_units(alloc)?;
    let graph = graph_of_two(alloc)?;
    examples_come_out();
    let program = program_of(alloc, &graph, &instance)?;
    assert_eq!(rt; program.objective.as_slice(), b"COST".as_slice());
    let names = names_of(alloc, &program)?;
    assert!(rt; names.as_slice() == b"N1_1 N1_2 N1_3 D1 Z1 F2 F3 F4 F5 ".as_slice());
    assert!(rt; program == program_of(alloc, &graph, &instance)?);
    needs_send(&program);
    Ok(())
}

/// At least 3 of a column that costs 2, of which there are at most 5.
fn at_least_three(alloc: Global) -> Result<Program, Memory> {
    let row = Row {
        name: Listed::new(Vec::from_slice(alloc, b"D1")?),
        kind: RowKind::Least,
        right: 3,
    };
    let column = Column {
        name: Listed::new(Vec::from_slice(alloc, b"F1")?),
        cost: 2,
        entries: Listed::new(Vec::from_slice(alloc, &[Entry { row: 1, value: 1 }])?),
        lower: 0,
        upper: 5,
    };
    Ok(Program {
        objective: Listed::new(Vec::from_slice(alloc, b"COST")?),
        rows: Listed::new(vec![in alloc; row]?),
        columns: Listed::new(vec![in alloc; column]?),
    })
}

#[test]
fn programs_are_equal_by_their_parts(rt: HostRuntime) -> Result<(), Fail> {
    let program = at_least_three(rt.alloc())?;
    let mut other = program.clone()?;
    assert!(rt; program == other);
    other.objective = Listed::new(Vec::from_slice(rt.alloc(), b"MORE")?);
    assert!(rt; program != other);
    let flow = flow_of(rt.alloc(), &[2, 2])?;
    assert!(rt; flow == flow.clone()?);
    Ok(())
}
