//! The program of an instance over its joint graph.

ghost use Rattle.std.specs.Prelude.{◌≡◌, ◌++◌, IfOk, length, map};
ghost use Rattle.packing_laws.specs.Instances.{units_of};
ghost use Rattle.flow_model.specs.Flows.{up_to};
ghost use Rattle.flow_model.specs.inner.Known.{NamesType};
ghost use Rattle.flow_model.specs.Programs.{IsProgram};
ghost use Rattle.joint_arcs.specs.Faithful.{GraphOf};
ghost use Rattle.joint_model.specs.JointModels.{SolvesAsFlows, SolvesPackings, arc_column, entries_of, joint_columns, joint_rows, node_row, program_of_joint};
ghost use Rattle.joint_model.specs.inner.Arcs.{IsArcOf};

use crate::known;
use crate::laws::{joint_models_are_programs, solutions_are_flows};
use arc_num::{Listed, MAX_ITEMS, Memory, push_number};
use flow_graph::ArcKind;
use flow_model::{
    Column, Entry, Name, Program, Row, RowKind, arc_name, moves, push_item_rows, unit_cost, upper,
};
use joint_arcs::JointArcs;
use joint_flows::packings_are_flows;
use packing_laws::Instance;
use std::alloc::Global;

/// The program: a row for each node and each item, and a column for each arc.
pub fn joint_program(
    alloc: Global,
    graph: &JointArcs,
    instance: &Instance,
) -> Result<Program, Memory>
    requires { GraphOf instance.now graph.now }
    ensures value { IfOk result (λ program. program ≡ program_of_joint instance.now graph.now) }
    ensures lawful { IfOk result (λ program. IsProgram program) }
    ensures flows { IfOk result (λ program. SolvesAsFlows program instance.now graph.now) }
    ensures packings { IfOk result (λ program. SolvesPackings program instance.now graph.now) }
{
    instance.known();
    graph.known();
    joint_models_are_programs();
    solutions_are_flows();
    packings_are_flows();
    let rows = rows(alloc, graph, instance)?;
    let columns = columns(alloc, graph, instance)?;
    let objective = Vec::from_slice(alloc, b"COST")?;
    Ok(Program {
        objective: Listed::new(objective),
        rows: Listed::new(rows),
        columns: Listed::new(columns),
    })
}

fn rows(alloc: Global, graph: &JointArcs, instance: &Instance) -> Result<Vec<Row>, Memory>
    ensures { IfOk result (λ rows. rows.items ≡ joint_rows instance.now graph.now) }
{
    let mut rows = Vec::new(alloc);
    push_node_rows(&mut rows, graph.node_count())?;
    push_item_rows(&mut rows, instance)?;
    Ok(rows)
}

// Appends the rows of the nodes.
fn push_node_rows(rows: &mut Vec<Row>, nodes: u32) -> Result<(), Memory>
    ensures { IfOk result (λ _. rows.new.items ≡ rows.old.items ++ map node_row (up_to nodes)) }
{
    let alloc = *rows.allocator();
    for node in 0..nodes {
        rows.push(Row {
            name: node_name(alloc, node + 1)?,
            kind: RowKind::Equal,
            right: 0,
        })?;
    }
    Ok(())
}

// The name of the row of a node: `N` and its number.
fn node_name(alloc: Global, node: u32) -> Result<Name, Memory>
    ensures { IfOk result (λ name. name ≡ (node_row node).name) }
{
    let mut text = Vec::new(alloc);
    text.push(b'N')?;
    push_number(&mut text, u128::from(node))?;
    Ok(Listed::new(text))
}

fn columns(alloc: Global, graph: &JointArcs, instance: &Instance) -> Result<Vec<Column>, Memory>
    requires { GraphOf instance.now graph.now }
    ensures { IfOk result (λ columns. columns.items ≡ joint_columns instance.now graph.now) }
{
    known::graph(instance, graph);
    let units = instance.units();
    let row = graph.row();
    let mut columns = Vec::with_capacity(alloc, row.len())?;
    let mut number = 0;
    for kind in row {
        number += 1;
        columns.push(column(alloc, instance, graph, units, number, kind)?)?;
    }
    Ok(columns)
}

// The column of the arc with this number.
fn column(
    alloc: Global,
    instance: &Instance,
    graph: &JointArcs,
    units: u32,
    number: u32,
    kind: &ArcKind,
) -> Result<Column, Memory>
    requires units { units ≡ units_of instance.now }
    requires arc { IsArcOf MAX_ITEMS graph.now kind.now }
    requires bin_type { NamesType (length instance.now.types) kind.now }
    ensures { IfOk result (λ column. column ≡ arc_column instance.now graph.now (number, kind.now)) }
{
    Ok(Column {
        name: arc_name(alloc, number, kind)?,
        cost: unit_cost(instance, kind),
        entries: entries(alloc, graph, kind)?,
        lower: 0,
        upper: u64::from(upper(instance, units, kind)),
    })
}

// What a unit on an arc adds in the rows.
fn entries(alloc: Global, graph: &JointArcs, kind: &ArcKind) -> Result<Listed<Entry>, Memory>
    requires { IsArcOf MAX_ITEMS graph.now kind.now }
    ensures { IfOk result (λ entries. entries ≡ entries_of graph.now kind.now) }
{
    graph.known();
    let entries = match *kind {
        ArcKind::Bin { t } => moves(alloc, graph.inner_count() + t, 1)?,
        ArcKind::Loss { tail, head, .. } => moves(alloc, tail, head)?,
        ArcKind::Piece {
            tail,
            head,
            item,
            ..
        } => {
            let mut entries = moves(alloc, tail, head)?;
            entries.push(Entry {
                row: graph.node_count() + item,
                value: 1,
            })?;
            entries
        }
    };
    Ok(Listed::new(entries))
}
