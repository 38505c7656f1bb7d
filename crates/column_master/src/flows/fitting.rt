//! Columns of a flow, fitted to ranges that leave no room for rounding.

use super::takings::Taking;
use crate::rows::{MasterRow, RowName};
use arc_num::Memory;
use column_pool::{ColumnPool, Split, SplitRow, Way};
use flow_graph::{ArcKind, FlowGraph};
use flow_model::FlowBox;
use std::alloc::Global;

/// Bins that are counted, and what they are to come to.
#[derive(Clone, Copy, Debug, PartialEq, Eq)]
pub(super) struct Target {
    counted: SplitRow,
    lower: u32,
    upper: u32,
}

impl Target {
    fn new(split: Split, lower: u32, upper: u32) -> Target {
        Target {
            counted: SplitRow { split, row: 0 },
            lower,
            upper,
        }
    }

    /// Whether it is an arc of a path with one value.
    fn is_arc(&self) -> bool {
        matches!(self.counted.split, Split::Arc(_))
    }
}

/// What the columns of a target come to.
#[derive(Clone, Copy, Debug, PartialEq, Eq)]
struct Sum {
    total: u64,
    holder: Option<Holder>,
}

/// A column that can take a difference.
#[derive(Clone, Copy, Debug, PartialEq, Eq)]
struct Holder {
    place: usize,
    /// On how many arcs with one value it is.
    ties: u32,
    times: u64,
}

impl Holder {
    /// Whether less hangs on this column than on another, or else it is taken more often.
    fn is_better(&self, other: &Holder) -> bool {
        self.ties < other.ties || (self.ties == other.ties && self.times > other.times)
    }
}

impl Sum {
    fn add(&mut self, holder: Holder) {
        self.total = self.total.saturating_add(holder.times);
        if holder.times > 0 && self.holder.is_none_or(|other| holder.is_better(&other)) {
            self.holder = Some(holder);
        }
    }
}

/// The arcs of paths whose range has one value above 0, and then the bins of each type.
pub(super) fn targets_of(
    alloc: Global,
    graph: &FlowGraph,
    rows: &[MasterRow],
    ranges: &FlowBox,
) -> Result<Vec<Target>, Memory> {
    let mut targets = Vec::new(alloc);
    for row in rows {
        if let RowName::Lower { arc } = row.name
            && let Some((lower, upper)) = ranges.range(arc)
            && lower == upper
            && !is_bin(graph, arc)
        {
            targets.push(Target::new(Split::Arc(arc), lower, upper))?;
        }
    }
    for index in 0..graph.type_count() {
        let bin_type = index.saturating_add(1);
        let (bin, _) = graph.arcs_of(bin_type).unwrap_or((0, 0));
        let (lower, upper) = ranges.range(bin).unwrap_or((0, u32::MAX));
        targets.push(Target::new(Split::BinType(bin_type), lower, upper))?;
    }
    Ok(targets)
}

pub(super) fn is_bin(graph: &FlowGraph, arc: u32) -> bool {
    matches!(graph.arc(arc), Some(ArcKind::Bin { .. }))
}

/// Makes the columns of each target, one after the other, come to what they are to, by the one on which least hangs.
pub(super) fn fit(
    alloc: Global,
    pool: &ColumnPool,
    targets: &[Target],
    scale: u64,
    columns: &mut [Taking],
) -> Result<(), Memory> {
    let mut ties = Vec::new(alloc);
    for taking in columns.iter() {
        ties.push(ties_of(pool, targets, taking))?;
    }
    for target in targets {
        let sum = sum_of(pool, target, ties.as_slice(), columns);
        if let Some(holder) = sum.holder {
            settle(target, sum.total, holder.place, scale, columns);
        }
    }
    Ok(())
}

/// On how many arcs with one value a column is.
fn ties_of(pool: &ColumnPool, targets: &[Target], taking: &Taking) -> u32 {
    let mut ties = 0u32;
    if let Some((way, _)) = pool.get(taking.column) {
        for target in targets {
            ties = ties.saturating_add(tie(target, way));
        }
    }
    ties
}

fn tie(target: &Target, way: &Way) -> u32 {
    if target.is_arc() && target.counted.counts(way) {
        1
    } else {
        0
    }
}

fn sum_of(pool: &ColumnPool, target: &Target, ties: &[u32], columns: &[Taking]) -> Sum {
    let mut sum = Sum {
        total: 0,
        holder: None,
    };
    for (place, (taking, ties)) in columns.iter().zip(ties.iter()).enumerate() {
        if let Some((way, _)) = pool.get(taking.column)
            && target.counted.counts(way)
        {
            sum.add(Holder {
                place,
                ties: *ties,
                times: taking.times,
            });
        }
    }
    sum
}

/// The column at a place takes the difference between a total and what it may be.
fn settle(target: &Target, total: u64, place: usize, scale: u64, columns: &mut [Taking]) {
    let most = scale.saturating_mul(u64::from(target.upper));
    let least = scale.saturating_mul(u64::from(target.lower));
    let over = total.saturating_sub(most);
    let under = least.saturating_sub(total);
    if place < columns.len() {
        let times = columns[place].times;
        columns[place].times = times.saturating_sub(over).saturating_add(under);
    }
}
