//! One round: the graphs of all types are asked for columns that gain.

use super::{Generator, Round};
use crate::drafts::{Draft, Excess};
use crate::passes::{Field, Through};
use crate::relaxation::Relaxation;
use crate::rows::{MasterRow, RowName};
use crate::ways::{found_along, is_proper};
use arc_num::Memory;
use cert_text::ArcPrice;
use flow_graph::FlowGraph;
use packing_laws::Instance;
use simplex_basis::{BasisFault, ONE};
use std::alloc::Global;

/// What the graph of a type is asked: at which prices, and above which gain its columns wake.
#[derive(Clone, Copy)]
struct Asked<'a> {
    bin_type: u32,
    draft: &'a Draft,
    tolerance: i128,
    /// Columns that wake at most.
    most: usize,
}

impl Generator {
    /// Makes the rest of the demands what the rows of a dive ask for, and that of a box nothing.
    pub(super) fn lay_rest(
        &mut self,
        instance: &Instance,
        relaxation: &Relaxation,
    ) -> Result<(), Memory> {
        self.rest.clear();
        if !relaxation.is_dive() {
            return Ok(());
        }
        self.rest.push(u32::MAX)?;
        for _ in 0..instance.item_count() {
            self.rest.push(0)?;
        }
        lay_demands(self.rest.as_mut_slice(), relaxation.rows());
        Ok(())
    }

    /// Asks the graph of each type once.
    pub(super) fn round(
        &mut self,
        instance: &Instance,
        graph: &FlowGraph,
        relaxation: &mut Relaxation,
    ) -> Result<Round, BasisFault> {
        let mut draft = Draft::of_rows(
            self.alloc,
            instance.item_count(),
            relaxation.rows(),
            relaxation.basis().prices(),
            relaxation.unit(),
        )?;
        let bits = draft.shrink(self.hops);
        lay(self.own.as_mut_slice(), draft.arcs.as_slice());
        let sharp = relaxation.is_sharp();
        let tolerance = tolerance(draft.scale, self.most_cost, bits, sharp);
        let most = most_columns(relaxation.rows().len(), graph.type_count());
        let mut excesses = Vec::new(self.alloc);
        let mut woken = 0u32;
        for index in 0..graph.type_count() {
            let asked = Asked {
                bin_type: index.saturating_add(1),
                draft: &draft,
                tolerance,
                most,
            };
            let excess = self.ask(instance, graph, relaxation, asked, &mut woken)?;
            excesses.push(excess)?;
        }
        let shown = draft.repaired(relaxation.rows(), instance.units(), excesses.as_slice())?;
        Ok(Round { shown, woken })
    }

    /// Asks the graph of a type, and wakes the columns that gain.
    fn ask(
        &mut self,
        instance: &Instance,
        graph: &FlowGraph,
        relaxation: &mut Relaxation,
        asked: Asked<'_>,
        woken: &mut u32,
    ) -> Result<Excess, BasisFault> {
        let excess = self.excess_of(instance, graph, asked.bin_type, asked.draft);
        let above = excess.above(asked.draft.scale);
        if above <= asked.tolerance {
            return Ok(excess);
        }
        let least = excess
            .path
            .saturating_sub(above.saturating_sub(asked.tolerance));
        let paths = self.paths_above(graph, asked, least)?;
        for numbers in paths {
            if self.add(instance, graph, relaxation, asked.bin_type, numbers)? {
                *woken = woken.saturating_add(1);
            }
        }
        Ok(excess)
    }

    /// The gain of a type under a draft whose prices of arcs are laid.
    pub(crate) fn excess_of(
        &mut self,
        instance: &Instance,
        graph: &FlowGraph,
        bin_type: u32,
        draft: &Draft,
    ) -> Excess {
        let field = field_of(graph, bin_type, self.own.as_slice());
        let items = draft.items.as_slice();
        let path = self.passes.go_ahead(field, items, self.rest.as_slice());
        let own = draft.arc_price(field.first.saturating_sub(1));
        Excess::of_type(instance, graph, bin_type, own, path)
    }

    /// The best path, and the best through each item where that has a price above the least.
    fn paths_above(
        &mut self,
        graph: &FlowGraph,
        asked: Asked<'_>,
        least: i128,
    ) -> Result<Vec<Vec<u32>>, Memory> {
        let field = field_of(graph, asked.bin_type, self.own.as_slice());
        let items = asked.draft.items.as_slice();
        let mut paths = Vec::new(self.alloc);
        paths.push(self.passes.best_path(self.alloc, field)?)?;
        self.passes.go_back(field, items, self.rest.as_slice());
        self.passes
            .find_through(field, items, self.through.as_mut_slice());
        let mut above = above_least(self.alloc, self.through.as_slice(), least)?;
        above.sort_unstable();
        for through in above.as_slice().iter().rev().take(asked.most) {
            paths.push(self.passes.path_over(self.alloc, field, through.place)?)?;
        }
        Ok(paths)
    }

    /// Puts the column of a path into the pool and wakes it. Whether it slept.
    fn add(
        &mut self,
        instance: &Instance,
        graph: &FlowGraph,
        relaxation: &mut Relaxation,
        bin_type: u32,
        numbers: Vec<u32>,
    ) -> Result<bool, Memory> {
        let rows = self.item_rows.as_slice();
        let found = found_along(self.alloc, instance, graph, rows, bin_type, numbers)?;
        if !is_proper(found.column.contents.as_slice(), self.rest.as_slice()) {
            return Ok(false);
        }
        let place = self.pool.put(found.way, found.column)?;
        relaxation.wake(&self.pool, place.number)
    }
}

/// The graph of a type with the own prices of its arcs.
pub(crate) fn field_of<'a>(graph: &'a FlowGraph, bin_type: u32, own: &'a [i64]) -> Field<'a> {
    let (bin, last) = graph.arcs_of(bin_type).unwrap_or((0, 0));
    Field {
        arcs: graph.type_arcs(bin_type).unwrap_or([].as_slice()),
        own: part(own, bin as usize, last as usize),
        first: bin.saturating_add(1),
        nodes: graph.node_count(bin_type).unwrap_or(1),
    }
}

fn part(own: &[i64], start: usize, end: usize) -> &[i64] {
    if start <= end && end <= own.len() {
        &own[start..end]
    } else {
        [].as_slice()
    }
}

/// Makes a table that of these prices alone.
pub(crate) fn lay(own: &mut [i64], listed: &[ArcPrice]) {
    own.fill(0);
    for price in listed {
        add_price(own, price.arc as usize, price.price);
    }
}

fn add_price(own: &mut [i64], arc: usize, price: i64) {
    if arc > 0 && arc <= own.len() {
        own[arc - 1] = own[arc - 1].saturating_add(price);
    }
}

/// A gain that is above the cost by no more than this wakes no column.
fn tolerance(scale: i64, most_cost: u32, bits: u32, sharp: bool) -> i128 {
    if scale == 0 {
        return i128::from((ONE >> 20) >> bits.min(20));
    }
    let most = i128::from(most_cost) * i128::from(scale);
    let less = if sharp { 30 } else { 22 };
    (most >> less).max(1)
}

/// How many columns of a type wake at most in one round, so that there are not more than some times the rows.
fn most_columns(rows: usize, types: u32) -> usize {
    (rows.saturating_mul(4) / types.max(1) as usize).saturating_add(1)
}

/// The paths whose price is above the least.
fn above_least(
    alloc: Global,
    through: &[Option<Through>],
    least: i128,
) -> Result<Vec<Through>, Memory> {
    let mut above = Vec::new(alloc);
    for found in through {
        if let Some(found) = found
            && i128::from(found.price) > least
        {
            above.push(*found)?;
        }
    }
    Ok(above)
}

fn lay_demands(rest: &mut [u32], rows: &[MasterRow]) {
    for row in rows {
        if let RowName::Demand { item } = row.name {
            set_rest(rest, item as usize, row.bound);
        }
    }
}

fn set_rest(rest: &mut [u32], item: usize, bound: u32) {
    if item < rest.len() {
        rest[item] = bound;
    }
}
