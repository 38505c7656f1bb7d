//! Passes over paths that have no more units of an item in a row than a dive still asks for.

use super::{Field, NEVER, Passes, item_price, restart, value_at};

/// The item with which a path ends, and how many units of it stand in a row there.
#[derive(Clone, Copy, Debug, PartialEq, Eq)]
pub(super) struct Run {
    item: u32,
    units: u32,
}

impl Run {
    pub(super) const NONE: Run = Run { item: 0, units: 0 };

    /// The run with what one arc more carries.
    fn with(self, item: u32) -> Run {
        if item == 0 {
            return self;
        }
        let before = if item == self.item { self.units } else { 0 };
        Run {
            item,
            units: before.saturating_add(1),
        }
    }

    /// Whether no more units are in the run than are asked for.
    fn is_within(self, rest: &[u32]) -> bool {
        rest.get(self.item as usize)
            .is_none_or(|most| self.units <= *most)
    }
}

/// The values of the nodes in one direction, the arcs by which they came about, and the runs of their paths.
#[derive(Drop)]
struct Reached<'a> {
    values: &'a mut [i64],
    over: &'a mut [usize],
    runs: &'a mut [Run],
}

/// An arc that is gone over: from a node to another one, at a price.
#[derive(Clone, Copy)]
struct Move {
    from: u32,
    to: u32,
    item: u32,
    price: i64,
    place: usize,
}

impl Passes {
    pub(super) fn ahead_within(&mut self, field: Field<'_>, items: &[i64], rest: &[u32]) -> i64 {
        restart(self.ahead.as_mut_slice(), 1);
        self.runs.as_mut_slice().fill(Run::NONE);
        let reached = Reached {
            values: self.ahead.as_mut_slice(),
            over: self.came.as_mut_slice(),
            runs: self.runs.as_mut_slice(),
        };
        raise_heads_within(field, items, rest, reached);
        value_at(self.ahead.as_slice(), field.nodes)
    }

    pub(super) fn back_within(&mut self, field: Field<'_>, items: &[i64], rest: &[u32]) {
        restart(self.behind.as_mut_slice(), field.nodes);
        self.runs.as_mut_slice().fill(Run::NONE);
        let reached = Reached {
            values: self.behind.as_mut_slice(),
            over: self.goes.as_mut_slice(),
            runs: self.runs.as_mut_slice(),
        };
        raise_tails_within(field, items, rest, reached);
    }
}

#[inline(never)]
fn raise_heads_within(field: Field<'_>, items: &[i64], rest: &[u32], reached: Reached<'_>) {
    let mut reached = reached;
    for (place, (arc, own)) in field.arcs.iter().zip(field.own.iter()).enumerate() {
        let price = item_price(items, arc.item).wrapping_add(*own);
        let taken = Move {
            from: arc.tail,
            to: arc.head,
            item: arc.item,
            price,
            place,
        };
        raise_within(&mut reached, taken, rest);
    }
}

#[inline(never)]
fn raise_tails_within(field: Field<'_>, items: &[i64], rest: &[u32], reached: Reached<'_>) {
    let mut reached = reached;
    for (place, (arc, own)) in field.arcs.iter().zip(field.own.iter()).enumerate().rev() {
        let price = item_price(items, arc.item).wrapping_add(*own);
        let taken = Move {
            from: arc.head,
            to: arc.tail,
            item: arc.item,
            price,
            place,
        };
        raise_within(&mut reached, taken, rest);
    }
}

/// A path that goes on by a move may be the best one to the next node, where its run is within the rest.
fn raise_within(reached: &mut Reached<'_>, taken: Move, rest: &[u32]) {
    let from = taken.from as usize;
    let to = taken.to as usize;
    let Some(run) = reached.runs.get(from).map(|run| run.with(taken.item)) else {
        return;
    };
    let before = reached.values.get(from).copied().unwrap_or(NEVER);
    if before == NEVER || !run.is_within(rest) {
        return;
    }
    let value = before.wrapping_add(taken.price);
    if to < reached.values.len() && to < reached.over.len() && to < reached.runs.len() {
        if value > reached.values[to] {
            reached.values[to] = value;
            reached.over[to] = taken.place;
            reached.runs[to] = run;
        }
    }
}
