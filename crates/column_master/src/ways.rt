//! Columns of ways.

use arc_num::Memory;
use column_pool::{Arcs, Column, Content, Way};
use flow_graph::{ArcKind, FlowGraph};
use packing_laws::Instance;
use simplex_basis::Coefficient;
use std::alloc::Global;

/// A way to fill a bin, with its column.
#[derive(Drop)]
pub(crate) struct Found {
    pub way: Way,
    pub column: Column,
}

/// The column of a bin of a type that is filled along a path, whose arcs stand in ascending order. `item_rows` has the row
/// of each item.
pub(crate) fn found_along(
    alloc: Global,
    instance: &Instance,
    graph: &FlowGraph,
    item_rows: &[Option<u32>],
    bin_type: u32,
    numbers: Vec<u32>,
) -> Result<Found, Memory> {
    let contents = contents_of(alloc, graph, numbers.as_slice())?;
    let coefficients = coefficients_of(alloc, item_rows, contents.as_slice())?;
    let cost = instance.bin_type(bin_type).map_or(0, |found| found.cost);
    Ok(Found {
        way: Way {
            bin_type,
            arcs: Arcs::new(numbers),
        },
        column: Column {
            cost,
            coefficients,
            contents,
        },
    })
}

/// How often each form of an item stands on the path, by item and form.
fn contents_of(alloc: Global, graph: &FlowGraph, numbers: &[u32]) -> Result<Vec<Content>, Memory> {
    let mut units = Vec::new(alloc);
    for number in numbers {
        if let Some(ArcKind::Piece { item, form, .. }) = graph.arc(*number) {
            units.push((item, form))?;
        }
    }
    units.sort_unstable();
    let mut contents = Vec::new(alloc);
    for (item, form) in units.as_slice() {
        count_unit(&mut contents, *item, *form)?;
    }
    Ok(contents)
}

/// One unit more, whose form is that of the last content or one that is not counted yet.
fn count_unit(contents: &mut Vec<Content>, item: u32, form: u32) -> Result<(), Memory> {
    if let Some(last) = contents.last_mut()
        && last.item == item
        && last.form == form
    {
        last.copies = last.copies.saturating_add(1);
        return Ok(());
    }
    contents.push(Content {
        item,
        form,
        copies: 1,
    })?;
    Ok(())
}

/// What the contents have in the rows of their items.
fn coefficients_of(
    alloc: Global,
    item_rows: &[Option<u32>],
    contents: &[Content],
) -> Result<Vec<Coefficient>, Memory> {
    let mut coefficients = Vec::new(alloc);
    for content in contents {
        let place = (content.item as usize).saturating_sub(1);
        if let Some(Some(row)) = item_rows.get(place) {
            add_coefficient(&mut coefficients, *row, content.copies)?;
        }
    }
    Ok(coefficients)
}

fn add_coefficient(
    coefficients: &mut Vec<Coefficient>,
    row: u32,
    copies: u32,
) -> Result<(), Memory> {
    let value = i32::try_from(copies).unwrap_or(i32::MAX);
    if let Some(last) = coefficients.last_mut()
        && last.row == row
    {
        last.value = last.value.saturating_add(value);
        return Ok(());
    }
    coefficients.push(Coefficient { row, value })?;
    Ok(())
}

/// Whether no item has more copies than the rest of its demand, by number.
pub(crate) fn is_proper(contents: &[Content], rest: &[u32]) -> bool {
    let mut item = 0u32;
    let mut units = 0u32;
    for content in contents {
        let before = if content.item == item { units } else { 0 };
        item = content.item;
        units = before.saturating_add(content.copies);
        if rest.get(item as usize).is_some_and(|most| units > *most) {
            return false;
        }
    }
    true
}
