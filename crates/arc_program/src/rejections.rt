//! What is said of a solution that is refused.

ghost use Rattle.std.specs.Prelude.{◌≡◌, ◌++◌, OnOk, IfOk, codes};
ghost use Rattle.flow_model.specs.Models.{node_name, item_name};
ghost use Rattle.arc_program.specs.Refusals.{named_line};
ghost use Rattle.arc_program.specs.Rejections.{line_said, fault_said, column_name, row_said};

use arc_num::{Memory, push_bytes, push_number};
use flow_graph::{ArcKind, FlowGraph};
use flow_model::FlowRow;
use solution_text::SolutionFault;
use std::alloc::Global;

/// A line about what has this name.
pub fn named_line(alloc: Global, name: &str, said: &[u8]) -> Result<Vec<u8>, Memory>
    ensures { IfOk result (λ line. line.items ≡ named_line name.now said.now) }
{
    let mut line = Vec::new(alloc);
    push_bytes(&mut line, b"vpack: ")?;
    push_bytes(&mut line, name.as_bytes())?;
    push_bytes(&mut line, b": ")?;
    push_bytes(&mut line, said)?;
    push_bytes(&mut line, b"\n")?;
    Ok(line)
}

/// What is said of a line of a text, by its number.
pub fn line_said(alloc: Global, line: u64, cause: &[u8]) -> Result<Vec<u8>, Memory>
    ensures { IfOk result (λ said. said.items ≡ line_said line cause.now) }
{
    let mut said = Vec::new(alloc);
    push_bytes(&mut said, b"line ")?;
    push_number(&mut said, u128::from(line))?;
    push_bytes(&mut said, b": ")?;
    push_bytes(&mut said, cause)?;
    Ok(said)
}

/// What is said of the first line at fault.
pub fn fault_said(alloc: Global, fault: SolutionFault) -> Result<Vec<u8>, Memory>
    ensures { IfOk result (λ said. said.items ≡ fault_said fault) }
{
    match fault {
        SolutionFault::Fields { line } => line_said(alloc, line, b"wrong number of fields"),
        SolutionFault::NoColumn { line } => line_said(alloc, line, b"no such column"),
        SolutionFault::Value { line } => line_said(alloc, line, b"bad value"),
        SolutionFault::Twice { line } => line_said(alloc, line, b"column given twice"),
        SolutionFault::Memory => Ok(Vec::from_slice(alloc, b"out of memory")?),
    }
}

fn push_node_name(said: &mut Vec<u8>, t: u32, node: u32) -> Result<(), Memory>
    ensures { OnOk result (said.new.items ≡ said.old.items ++ node_name t node) }
{
    push_bytes(said, b"N")?;
    push_number(said, u128::from(t))?;
    push_bytes(said, b"_")?;
    push_number(said, u128::from(node))
}

fn push_item_name(said: &mut Vec<u8>, item: u32) -> Result<(), Memory>
    ensures { OnOk result (said.new.items ≡ said.old.items ++ item_name item) }
{
    push_bytes(said, b"D")?;
    push_number(said, u128::from(item))
}

fn push_column_name(said: &mut Vec<u8>, graph: &FlowGraph, arc: u32) -> Result<(), Memory>
    ensures { OnOk result (said.new.items ≡ said.old.items ++ column_name graph.now arc) }
{
    match graph.arc(arc) {
        None => return Ok(()),
        Some(ArcKind::Bin { .. }) => push_bytes(said, b"Z")?,
        Some(ArcKind::Loss { .. }) => push_bytes(said, b"F")?,
        Some(ArcKind::Piece { .. }) => push_bytes(said, b"F")?,
    }
    push_number(said, u128::from(arc))
}

/// What is said of the first row of the model that is violated.
pub fn row_said(alloc: Global, graph: &FlowGraph, row: FlowRow) -> Result<Vec<u8>, Memory>
    ensures { IfOk result (λ said. said.items ≡ row_said graph.now row) }
{
    let mut said = Vec::new(alloc);
    match row {
        FlowRow::Node { t, node } => {
            push_bytes(&mut said, b"row ")?;
            push_node_name(&mut said, t, node)?;
        }
        FlowRow::Demand { item } => {
            push_bytes(&mut said, b"row ")?;
            push_item_name(&mut said, item)?;
        }
        FlowRow::Bound { arc } => {
            push_bytes(&mut said, b"bound of ")?;
            push_column_name(&mut said, graph, arc)?;
        }
    }
    push_bytes(&mut said, b" is violated")?;
    Ok(said)
}
