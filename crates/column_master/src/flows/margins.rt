//! The columns of a program whose rows are kept with a margin.

ghost use Rattle.std.specs.Prelude.{◌<◌, ◌≤◌};

use super::fitting::{fit, is_bin, targets_of};
use super::forms::Margin;
use super::refining::{FINE, refined_levels};
use super::takings::{Takings, push_taking};
use crate::relaxation::Relaxation;
use crate::rows::{MasterRow, RowName};
use arc_num::{MAX_PRICE, Memory};
use column_pool::{ColumnPool, Way};
use flow_graph::FlowGraph;
use flow_model::FlowBox;
use simplex_basis::{Basic, Entry, POINT, Variable};
use std::alloc::Global;

/// On which side a row lies that is given a margin.
#[derive(Clone, Copy, Debug, PartialEq, Eq)]
enum Side {
    Above,
    Below,
}

/// The columns of a program whose basis stays, and whose right sides are moved by the margin, but for those of bin arcs:
/// demands and lower ends up, upper ends down. What comes out below 0 is left out, and so are columns over arcs that carry nothing. Arcs with one value
/// and types with too many or too few bins are then met by a column of theirs.
pub(super) fn takings_with_margin(
    alloc: Global,
    graph: &FlowGraph,
    pool: &ColumnPool,
    relaxation: &Relaxation,
    ranges: &FlowBox,
    margin: Margin,
) -> Result<Takings, Memory> {
    let basics = relaxation.basis().basics();
    let levels = refined_levels(alloc, relaxation)?;
    let moves = moves_of(alloc, graph, relaxation, ranges)?;
    let point = point_of(basics, levels.as_slice(), margin.grain());
    let mut columns = Vec::new(alloc);
    let standing = basics.iter().zip(levels.as_slice().iter());
    for ((basic, level), moved) in standing.zip(moves.as_slice().iter()) {
        if let Some(column) = open_column(pool, ranges, basic) {
            let by = (*moved << (FINE - POINT)) >> margin.bits();
            let level = level.saturating_add(by);
            push_taking(column, level, FINE - point, &mut columns)?;
        }
    }
    let scale = 1u64 << point;
    let targets = targets_of(alloc, graph, relaxation.rows(), ranges)?;
    fit(
        alloc,
        pool,
        targets.as_slice(),
        scale,
        columns.as_mut_slice(),
    )?;
    Ok(Takings { scale, columns })
}

/// The bits of a scale, so many at most, in which no arc carries more than a part can tell.
fn point_of(basics: &[Basic], levels: &[i128], grain: u32) -> u32
    requires { grain ≤ 60 }
    ensures { result ≤ 60 }
{
    let mut total = 0i128;
    for (basic, level) in basics.iter().zip(levels.iter()) {
        if matches!(basic.variable, Variable::Column(_)) {
            total = total.saturating_add(*level);
        }
    }
    for spare in 0..grain {
        let point = grain - spare;
        if total >> (FINE - point) <= i128::from(MAX_PRICE / 2) {
            return point;
        }
    }
    0
}

/// The number of a basic column, unless it goes over an arc that carries nothing.
fn open_column(pool: &ColumnPool, ranges: &FlowBox, basic: &Basic) -> Option<usize> {
    let Variable::Column(number) = basic.variable else {
        return None;
    };
    let (way, _) = pool.get(number as usize)?;
    if is_closed(way, ranges) {
        None
    } else {
        Some(number as usize)
    }
}

fn is_closed(way: &Way, ranges: &FlowBox) -> bool {
    for arc in way.arcs.as_slice() {
        if let Some((_, upper)) = ranges.range(*arc)
            && upper == 0
        {
            return true;
        }
    }
    false
}

/// By how much each basic variable moves where each right side moves by 1, in units of 2^-40.
fn moves_of(
    alloc: Global,
    graph: &FlowGraph,
    relaxation: &Relaxation,
    ranges: &FlowBox,
) -> Result<Vec<i128>, Memory> {
    let basis = relaxation.basis();
    let mut moves = vec![in alloc; 0i128; basis.basics().len()]?;
    let mut place = 0u32;
    for row in relaxation.rows() {
        if let Some(side) = side_of(graph, row, ranges)
            && let Some(entries) = basis.column_of_inverse(place)
        {
            add_moves(entries, side, moves.as_mut_slice());
        }
        place = place.saturating_add(1);
    }
    Ok(moves)
}

/// The side of a row; none for a bin arc, and where the range of an arc has one value.
fn side_of(graph: &FlowGraph, row: &MasterRow, ranges: &FlowBox) -> Option<Side> {
    match row.name {
        RowName::Demand { .. } => Some(Side::Above),
        RowName::Lower { arc } if is_open(graph, ranges, arc) => Some(Side::Above),
        RowName::Upper { arc } if is_open(graph, ranges, arc) => Some(Side::Below),
        _ => None,
    }
}

fn is_open(graph: &FlowGraph, ranges: &FlowBox, arc: u32) -> bool {
    match ranges.range(arc) {
        Some((lower, upper)) => lower < upper && !is_bin(graph, arc),
        None => false,
    }
}

#[inline(never)]
fn add_moves(entries: &[Entry], side: Side, moves: &mut [i128]) {
    for (moved, entry) in moves.iter_mut().zip(entries.iter()) {
        let by = i128::from(entry.value());
        *moved = match side {
            Side::Above => moved.saturating_add(by),
            Side::Below => moved.saturating_sub(by),
        };
    }
}
