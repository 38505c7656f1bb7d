//! Columns of a flow, each as often as it is taken.

ghost use Rattle.std.specs.Prelude.{◌<◌, ◌≤◌};

use crate::relaxation::{Chosen, Relaxation};
use arc_num::{MAX_PRICE, Memory};
use column_pool::{ColumnPool, Way};
use flow_graph::FlowGraph;
use simplex_basis::{ONE, POINT};
use std::alloc::Global;

/// How often a column is taken, in parts of one in the scale of its flow.
#[derive(Clone, Copy, Debug, PartialEq, Eq)]
pub(super) struct Taking {
    pub column: usize,
    pub times: u64,
}

/// Columns of a flow, in parts of one in a scale.
#[derive(Debug, Drop)]
pub(super) struct Takings {
    pub scale: u64,
    pub columns: Vec<Taking>,
}

/// The columns of a program at their levels.
pub(super) fn plain_takings(alloc: Global, relaxation: &Relaxation) -> Result<Takings, Memory> {
    let mut chosen = Vec::new(alloc);
    relaxation.push_solution(&mut chosen)?;
    let bits = spare_bits(chosen.as_slice());
    let mut columns = Vec::new(alloc);
    for found in chosen.as_slice() {
        push_taking(found.column, found.level.value(), bits, &mut columns)?;
    }
    Ok(Takings {
        scale: scale_without(bits),
        columns,
    })
}

/// Appends a column at a level without so many of the last bits, where something is left.
pub(super) fn push_taking(
    column: usize,
    level: i128,
    bits: u32,
    out: &mut Vec<Taking>,
) -> Result<(), Memory>
    requires { bits < 128 }
{
    let times = u64::try_from(level >> bits).unwrap_or(0);
    if times > 0 {
        out.push(Taking { column, times })?;
    }
    Ok(())
}

/// The scale of levels without so many of the last bits.
fn scale_without(bits: u32) -> u64
    requires { bits ≤ 40 }
{
    (ONE as u64) >> bits
}

/// So many last bits of the levels are left out that no arc carries more than a part can tell.
fn spare_bits(chosen: &[Chosen]) -> u32
    ensures { result ≤ 40 }
{
    let mut total = 0i128;
    for column in chosen {
        total = total.saturating_add(column.level.value());
    }
    for bits in 0..POINT {
        if total >> bits <= i128::from(MAX_PRICE) {
            return bits;
        }
    }
    POINT
}

/// Adds each column to the values of its arcs and of its bin arc, as often as it is taken.
pub(super) fn add_takings(
    graph: &FlowGraph,
    pool: &ColumnPool,
    columns: &[Taking],
    values: &mut [u64],
) {
    for taking in columns {
        if let Some((way, _)) = pool.get(taking.column) {
            add_way(graph, way, taking.times, values);
        }
    }
}

fn add_way(graph: &FlowGraph, way: &Way, times: u64, values: &mut [u64]) {
    if let Some((bin, _)) = graph.arcs_of(way.bin_type) {
        add_value(values, bin as usize, times);
    }
    for arc in way.arcs.as_slice() {
        add_value(values, *arc as usize, times);
    }
}

fn add_value(values: &mut [u64], arc: usize, times: u64) {
    if arc > 0 && arc <= values.len() {
        values[arc - 1] = values[arc - 1].saturating_add(times);
    }
}
