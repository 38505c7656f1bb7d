//! Reading the lines of a text.

ghost use Rattle.std.specs.Prelude.{◌≡◌, ◌⊎◌, ◌==◌, ◌<◌, None, length, map, replicate, unwrap_or, Ok, Err, IfOk, MatchResult};
ghost use Rattle.flow_graph.specs.Arcs.{numbered};
ghost use Rattle.text_lines.specs.Lines.{lines_of, fields_of};
ghost use Rattle.solution_text.specs.Solutions.{is_comment, is_skipped, solution_meaning};
ghost use Rattle.solution_text.specs.inner.Lines.{put, fields_taken, line_taken, lines_taken, Leaves};

use crate::faults::SolutionFault;
use crate::fields::{column_place, value};
use arc_num::{Listed, Memory};
use flow_graph::FlowGraph;
use flow_model::Flow;
use std::alloc::Global;
use text_lines::{next_field, split_line, two_fields};

/// The values that a text gives the arcs of a graph, or the first line at fault with its first cause. An arc that the
/// text does not name has the value 0.
pub fn read_solution(alloc: Global, text: &[u8], graph: &FlowGraph) -> Result<Flow, SolutionFault>
    ensures meaning { MatchResult result (λ flow. solution_meaning graph.now text.now ≡ Ok flow.values) (λ fault. (fault ≡ SolutionFault.Memory) ⊎ (solution_meaning graph.now text.now ≡ Err fault)) }
    ensures size { IfOk result (λ flow. length flow.values ≡ length (numbered graph.now)) }
{
    let mut found = no_values(alloc, graph.arc_count() as usize)?;
    read_lines(found.as_mut_slice(), graph, text)?;
    let values = values_of(alloc, found.as_slice())?;
    Ok(Flow {
        values: Listed::new(values),
    })
}

fn no_values(alloc: Global, count: usize) -> Result<Vec<Option<u64>>, Memory>
    ensures { IfOk result (λ v. v.items ≡ replicate count None) }
{
    let found = vec![in alloc; None; count]?;
    Ok(found)
}

fn values_of(alloc: Global, found: &[Option<u64>]) -> Result<Vec<u64>, Memory>
    ensures { IfOk result (λ v. v.items ≡ map (λ value. unwrap_or value 0) found.now) }
{
    let mut values = Vec::with_capacity(alloc, found.len())?;
    for value in found {
        values.push(value.unwrap_or(0))?;
    }
    Ok(values)
}

/// Puts the values that the lines of a text give to their columns.
fn read_lines(
    found: &mut [Option<u64>],
    graph: &FlowGraph,
    text: &[u8],
) -> Result<(), SolutionFault>
    requires { length found.old ≡ length (numbered graph.now) }
    ensures { Leaves result (lines_taken graph.now 1 found.old (lines_of text.now)) found.new }
{
    let mut rest = text;
    let mut number = 1u64;
    while !rest.is_empty() {
        let (line, behind) = split_line(rest);
        read_line(found, graph, number, line)?;
        rest = behind;
        number += 1;
    }
    Ok(())
}

fn read_line(
    found: &mut [Option<u64>],
    graph: &FlowGraph,
    number: u64,
    line: &[u8],
) -> Result<(), SolutionFault>
    requires { length found.old ≡ length (numbered graph.now) }
    ensures { Leaves result (line_taken graph.now number found.old line.now) found.new }
{
    if is_skipped(line) {
        return Ok(());
    }
    read_fields(found, graph, number, line)
}

fn read_fields(
    found: &mut [Option<u64>],
    graph: &FlowGraph,
    number: u64,
    line: &[u8],
) -> Result<(), SolutionFault>
    requires { length found.old ≡ length (numbered graph.now) }
    ensures { Leaves result (fields_taken graph.now number found.old (fields_of line.now)) found.new }
{
    let (column, value_text) = match two_fields(line) {
        Some(fields) => fields,
        None => return Err(SolutionFault::Fields { line: number }),
    };
    let place = match column_place(column, graph) {
        Some(place) => place,
        None => return Err(SolutionFault::NoColumn { line: number }),
    };
    match value(value_text) {
        Some(value) => put(found, number, place, value),
        None => Err(SolutionFault::Value { line: number }),
    }
}

/// Puts the value of a column that has none yet.
fn put(
    found: &mut [Option<u64>],
    number: u64,
    place: usize,
    value: u64,
) -> Result<(), SolutionFault>
    requires { place < length found.old }
    ensures { Leaves result (put number found.old place value) found.new }
{
    if found[place].is_some() {
        return Err(SolutionFault::Twice { line: number });
    }
    found[place] = Some(value);
    Ok(())
}

/// Whether a line counts for nothing: it has no fields, or its first byte is `#`.
fn is_skipped(line: &[u8]) -> bool
    ensures { result ≡ is_skipped line.now }
{
    has_no_fields(line) || is_comment(line)
}

fn has_no_fields(line: &[u8]) -> bool
    ensures { result ≡ (length (fields_of line.now) == 0) }
{
    let (field, _) = next_field(line);
    field.is_empty()
}

fn is_comment(line: &[u8]) -> bool
    ensures { result ≡ is_comment line.now }
{
    match line.first() {
        Some(byte) => *byte == b'#',
        None => false,
    }
}
