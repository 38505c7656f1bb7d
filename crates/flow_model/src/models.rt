//! The program of an instance over its numbered arcs.

ghost use Rattle.std.specs.Prelude.{◌≡◌, ◌+◌, ◌<◌, ◌≤◌, ◌^◌, ◌++◌, ℕ, IfOk, length, map, codes, All, pos, sum_by};
ghost use Rattle.packing_laws.specs.Instances.{units_of};
ghost use Rattle.flow_graph.specs.Faithful.{GraphOf};
ghost use Rattle.flow_model.specs.Flows.{up_to, arc_cost};
ghost use Rattle.flow_model.specs.Tallies.{AreStarts};
ghost use Rattle.flow_model.specs.inner.Known.{IsArcOf, NamesType, IsKnownGraph};
ghost use Rattle.flow_model.specs.Packed.{SolvesAsFlows, SolvesPackings};
ghost use Rattle.flow_model.specs.Programs.{IsProgram};
ghost use Rattle.flow_model.specs.Models.{node_name as node_name_of, item_name as item_name_of, arc_name as arc_name_of, node_row, item_row, model_rows, moves as moves_of, entries_of, item_place, arc_column, model_columns, program_of_model};

use crate::boxes::upper;
use crate::known;
use crate::laws::{models_are_programs, packings_are_flows, solutions_are_flows};
use crate::places::{node_count, node_place, node_starts};
use crate::programs::{Column, Entry, Name, Program, Row, RowKind};
use arc_num::{Listed, MAX_ITEMS, MAX_NUMBERED, Memory, push_number};
use flow_graph::{ArcKind, FlowGraph};
use packing_laws::Instance;
use std::alloc::Global;

/// The program: a row for each node and each item, and a column for each arc.
pub fn program_of(alloc: Global, graph: &FlowGraph, instance: &Instance) -> Result<Program, Memory>
    requires { GraphOf instance.now graph.now }
    ensures value { IfOk result (λ program. program ≡ program_of_model instance.now graph.now) }
    ensures lawful { IfOk result (λ program. IsProgram program) }
    ensures flows { IfOk result (λ program. SolvesAsFlows program instance.now graph.now) }
    ensures packings { IfOk result (λ program. SolvesPackings program instance.now graph.now) }
{
    instance.known();
    graph.known();
    models_are_programs();
    solutions_are_flows();
    packings_are_flows();
    let rows = rows(alloc, graph, instance)?;
    let columns = columns(alloc, graph, instance)?;
    let objective = Vec::from_slice(alloc, b"COST")?;
    Ok(Program {
        objective: Listed::new(objective),
        rows: Listed::new(rows),
        columns: Listed::new(columns),
    })
}

fn rows(alloc: Global, graph: &FlowGraph, instance: &Instance) -> Result<Vec<Row>, Memory>
    ensures { IfOk result (λ rows. rows.items ≡ model_rows instance.now graph.now) }
{
    let mut rows = Vec::new(alloc);
    for t in 0..graph.type_count() {
        push_node_rows(&mut rows, t + 1, node_count(graph, t + 1))?;
    }
    push_item_rows(&mut rows, instance)?;
    Ok(rows)
}

// Appends the rows of the nodes of a type.
fn push_node_rows(rows: &mut Vec<Row>, t: u32, nodes: u32) -> Result<(), Memory>
    ensures { IfOk result (λ _. rows.new.items ≡ rows.old.items ++ map (node_row t) (up_to nodes)) }
{
    let alloc = *rows.allocator();
    for node in 0..nodes {
        rows.push(Row {
            name: node_name(alloc, t, node + 1)?,
            kind: RowKind::Equal,
            right: 0,
        })?;
    }
    Ok(())
}

/// Appends the rows of the items, which each model of the instance has.
pub fn push_item_rows(rows: &mut Vec<Row>, instance: &Instance) -> Result<(), Memory>
    ensures { IfOk result (λ _. rows.new.items ≡ rows.old.items ++ map (item_row instance.now) (up_to (length instance.now.items))) }
{
    let alloc = *rows.allocator();
    let mut number = 0;
    for item in instance.items() {
        number += 1;
        rows.push(Row {
            name: item_name(alloc, number)?,
            kind: RowKind::Least,
            right: i64::from(item.demand),
        })?;
    }
    Ok(())
}

fn columns(alloc: Global, graph: &FlowGraph, instance: &Instance) -> Result<Vec<Column>, Memory>
    requires { GraphOf instance.now graph.now }
    ensures { IfOk result (λ columns. columns.items ≡ model_columns instance.now graph.now) }
{
    known::graph(instance, graph);
    let starts = node_starts(alloc, graph)?;
    let units = instance.units();
    let row = graph.row();
    let mut columns = Vec::with_capacity(alloc, row.len())?;
    let mut number = 0;
    for kind in row {
        number += 1;
        columns.push(column(alloc, instance, graph, &starts, units, number, kind)?)?;
    }
    Ok(columns)
}

// The column of the arc with this number.
fn column(
    alloc: Global,
    instance: &Instance,
    graph: &FlowGraph,
    starts: &[u32],
    units: u32,
    number: u32,
    kind: &ArcKind,
) -> Result<Column, Memory>
    requires starts { AreStarts graph.now starts.now }
    requires nodes { sum_by (λ x. x.nodes) graph.now ≤ MAX_NUMBERED }
    requires units { units ≡ units_of instance.now }
    requires arc { IsArcOf MAX_ITEMS graph.now kind.now }
    requires bin_type { NamesType (length instance.now.types) kind.now }
    ensures { IfOk result (λ column. column ≡ arc_column instance.now graph.now (number, kind.now)) }
{
    Ok(Column {
        name: arc_name(alloc, number, kind)?,
        cost: unit_cost(instance, kind),
        entries: entries(alloc, starts, graph, kind)?,
        lower: 0,
        upper: u64::from(upper(instance, units, kind)),
    })
}

// The name of the row of a node: `N`, its type, `_` and its number.
fn node_name(alloc: Global, t: u32, node: u32) -> Result<Name, Memory>
    ensures { IfOk result (λ name. name ≡ node_name_of t node) }
{
    let mut text = Vec::new(alloc);
    text.push(b'N')?;
    push_number(&mut text, u128::from(t))?;
    text.push(b'_')?;
    push_number(&mut text, u128::from(node))?;
    Ok(Listed::new(text))
}

// The name of the row of an item: `D` and its number.
fn item_name(alloc: Global, item: u32) -> Result<Name, Memory>
    ensures { IfOk result (λ name. name ≡ item_name_of item) }
{
    let mut text = Vec::new(alloc);
    text.push(b'D')?;
    push_number(&mut text, u128::from(item))?;
    Ok(Listed::new(text))
}

/// The name of the column of an arc: `Z` for a bin arc and `F` for any other, and its number.
pub fn arc_name(alloc: Global, number: u32, kind: &ArcKind) -> Result<Name, Memory>
    ensures { IfOk result (λ name. name ≡ arc_name_of number kind.now) }
{
    let letter = match *kind {
        ArcKind::Bin { .. } => b'Z',
        ArcKind::Loss { .. } | ArcKind::Piece { .. } => b'F',
    };
    let mut text = Vec::new(alloc);
    text.push(letter)?;
    push_number(&mut text, u128::from(number))?;
    Ok(Listed::new(text))
}

/// What a unit on an arc costs.
pub fn unit_cost(instance: &Instance, kind: &ArcKind) -> i64
    requires { NamesType (length instance.now.types) kind.now }
    ensures { result ≡ pos (arc_cost instance.now kind.now) }
{
    match *kind {
        ArcKind::Bin { t } => match instance.bin_type(t) {
            Some(bin_type) => i64::from(bin_type.cost),
            None => 0,
        },
        ArcKind::Loss { .. } | ArcKind::Piece { .. } => 0,
    }
}

// What a unit on an arc adds in the rows.
fn entries(
    alloc: Global,
    starts: &[u32],
    graph: &FlowGraph,
    kind: &ArcKind,
) -> Result<Listed<Entry>, Memory>
    requires starts { AreStarts graph.now starts.now }
    requires nodes { sum_by (λ x. x.nodes) graph.now ≤ MAX_NUMBERED }
    requires arc { IsArcOf MAX_ITEMS graph.now kind.now }
    ensures { IfOk result (λ entries. entries ≡ entries_of graph.now kind.now) }
{
    let entries = match *kind {
        ArcKind::Bin { t } => moves(alloc, starts[t as usize], node_place(starts, t, 1))?,
        ArcKind::Loss { t, tail, head } => {
            moves(
                alloc,
                node_place(starts, t, tail),
                node_place(starts, t, head),
            )?
        }
        ArcKind::Piece {
            t,
            tail,
            head,
            item,
            ..
        } => {
            let mut entries = moves(
                alloc,
                node_place(starts, t, tail),
                node_place(starts, t, head),
            )?;
            entries.push(Entry {
                row: starts[graph.type_count() as usize] + item,
                value: 1,
            })?;
            entries
        }
    };
    Ok(Listed::new(entries))
}

/// The entries of a unit that leaves one row and enters another, in the order of the rows.
pub fn moves(alloc: Global, tail: u32, head: u32) -> Result<Vec<Entry>, Memory>
    ensures { IfOk result (λ entries. entries.items ≡ moves_of tail head) }
{
    let leaves = Entry {
        row: tail,
        value: -1,
    };
    let enters = Entry {
        row: head,
        value: 1,
    };
    if tail == head {
        Ok(Vec::new(alloc))
    } else if tail < head {
        Ok(Vec::from_slice(alloc, &[leaves, enters])?)
    } else {
        Ok(Vec::from_slice(alloc, &[enters, leaves])?)
    }
}
