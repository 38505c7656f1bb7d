//! The rows of the master of a box.

use arc_num::Memory;
use column_pool::{Split, SplitRow};
use flow_graph::{ArcKind, FlowGraph};
use flow_model::FlowBox;
use packing_laws::Instance;
use simplex_basis::{Row, Sense};
use std::alloc::Global;

/// What a row of the master counts. Items, types and arcs are numbered from 1.
#[derive(Clone, Copy, Debug, PartialEq, Eq)]
pub enum RowName {
    /// The units of an item, which are at least the bound.
    Demand { item: u32 },
    /// What an arc carries, which is at most the bound.
    Upper { arc: u32 },
    /// What an arc carries, which is at least the bound.
    Lower { arc: u32 },
}

/// A row of the master, and the bound on its side of which it lies.
#[derive(Clone, Copy, Debug, PartialEq, Eq)]
pub struct MasterRow {
    pub name: RowName,
    pub bound: u32,
}

impl MasterRow {
    /// The row as the simplex sees it.
    pub(crate) fn seen(&self) -> Row {
        let sense = match self.name {
            RowName::Demand { .. } | RowName::Lower { .. } => Sense::AtLeast,
            RowName::Upper { .. } => Sense::AtMost,
        };
        Row {
            sense,
            bound: self.bound,
        }
    }
}

/// The rows of a box: for each item with a demand one, and then for each arc whose range is no wider than it need be one
/// for each end that tells something.
pub(crate) fn rows_of(
    alloc: Global,
    instance: &Instance,
    graph: &FlowGraph,
    ranges: &FlowBox,
) -> Result<Vec<MasterRow>, Memory> {
    let mut rows = Vec::new(alloc);
    push_demands(instance, &mut rows)?;
    let units = instance.units();
    for index in 0..graph.arc_count() {
        let arc = index.saturating_add(1);
        if let Some((lower, upper)) = ranges.range(arc) {
            push_ends(arc, lower, upper, units, &mut rows)?;
        }
    }
    Ok(rows)
}

fn push_demands(instance: &Instance, rows: &mut Vec<MasterRow>) -> Result<(), Memory> {
    let mut number = 0u32;
    for item in instance.items() {
        number = number.saturating_add(1);
        if item.demand > 0 {
            rows.push(MasterRow {
                name: RowName::Demand { item: number },
                bound: item.demand,
            })?;
        }
    }
    Ok(())
}

fn push_ends(
    arc: u32,
    lower: u32,
    upper: u32,
    units: u32,
    rows: &mut Vec<MasterRow>,
) -> Result<(), Memory> {
    if upper < units {
        rows.push(MasterRow {
            name: RowName::Upper { arc },
            bound: upper,
        })?;
    }
    if lower > 0 {
        rows.push(MasterRow {
            name: RowName::Lower { arc },
            bound: lower,
        })?;
    }
    Ok(())
}

/// The rows that count bins, by place.
pub(crate) fn splits_of(
    alloc: Global,
    graph: &FlowGraph,
    rows: &[MasterRow],
) -> Result<Vec<SplitRow>, Memory> {
    let mut splits = Vec::new(alloc);
    let mut row = 0u32;
    for counted in rows {
        if let RowName::Upper { arc } | RowName::Lower { arc } = counted.name {
            let split = split_at(graph, arc);
            splits.push(SplitRow { split, row })?;
        }
        row = row.saturating_add(1);
    }
    Ok(splits)
}

/// Which bins an arc counts: those of a type where it is a bin arc.
fn split_at(graph: &FlowGraph, arc: u32) -> Split {
    match graph.arc(arc) {
        Some(ArcKind::Bin { t }) => Split::BinType(t),
        _ => Split::Arc(arc),
    }
}

/// The row of each item, by its number less 1; none for an item without a demand.
pub(crate) fn item_rows(alloc: Global, instance: &Instance) -> Result<Vec<Option<u32>>, Memory> {
    let mut places = Vec::new(alloc);
    let mut row = 0u32;
    for item in instance.items() {
        if item.demand > 0 {
            places.push(Some(row))?;
            row = row.saturating_add(1);
        } else {
            places.push(None)?;
        }
    }
    Ok(places)
}

/// The range of an arc as far as the rows tell it.
pub(crate) fn range_in(rows: &[MasterRow], units: u32, arc: u32) -> (u32, u32) {
    let mut range = (0, units);
    for row in rows {
        match row.name {
            RowName::Upper { arc: other } if other == arc => range.1 = row.bound,
            RowName::Lower { arc: other } if other == arc => range.0 = row.bound,
            _ => {}
        }
    }
    range
}
