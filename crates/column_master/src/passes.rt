//! Longest paths through the graph of a type, in 64 bits. They find columns, and nothing is proved of them but that they
//! come to an end: who needs the truth of a gain takes it from an exact pass.

use arc_num::Memory;
use flow_graph::TypeArc;
use std::alloc::Global;
use within::Run;

mod within;

/// The value of a node that no path has reached.
const NEVER: i64 = -(1 << 62);

/// What is below this is no price of a path.
const LOST: i64 = -(1 << 61);

/// Room for the passes over the graphs of all types.
#[derive(Debug, Drop)]
pub(crate) struct Passes {
    /// The greatest price of a path from the source, by node.
    ahead: Vec<i64>,
    /// The place of the last arc of that path.
    came: Vec<usize>,
    /// The greatest price of a path to the target, by node.
    behind: Vec<i64>,
    /// The place of the first arc of that path.
    goes: Vec<usize>,
    /// How the paths end that a pass has found so far, by node.
    runs: Vec<Run>,
}

/// The arcs of a type, the number of the first of them, its last node, and the prices of the arcs themselves.
#[derive(Clone, Copy)]
pub(crate) struct Field<'a> {
    pub arcs: &'a [TypeArc],
    pub own: &'a [i64],
    pub first: u32,
    pub nodes: u32,
}

/// The best path through an item: its price, and the place of the arc that carries the item.
#[derive(Clone, Copy, Debug, PartialEq, Eq, PartialOrd, Ord)]
pub(crate) struct Through {
    pub price: i64,
    pub place: usize,
}

impl Passes {
    /// Room for types of at most so many nodes.
    pub(crate) fn new(alloc: Global, nodes: u32) -> Result<Passes, Memory> {
        let size = nodes as usize + 1;
        Ok(Passes {
            ahead: vec![in alloc; NEVER; size]?,
            came: vec![in alloc; 0; size]?,
            behind: vec![in alloc; NEVER; size]?,
            goes: vec![in alloc; 0; size]?,
            runs: vec![in alloc; Run::NONE; size]?,
        })
    }

    /// The greatest price of a path from source to target, where `items` has the price of each item, and 0 for what
    /// carries nothing. Where `rest` has a number for each item, runs of the item with more units are left out.
    pub(crate) fn go_ahead(&mut self, field: Field<'_>, items: &[i64], rest: &[u32]) -> i64 {
        if !rest.is_empty() {
            return self.ahead_within(field, items, rest);
        }
        restart(self.ahead.as_mut_slice(), 1);
        raise_heads(
            field,
            items,
            self.ahead.as_mut_slice(),
            self.came.as_mut_slice(),
        );
        value_at(self.ahead.as_slice(), field.nodes)
    }

    /// The same from the target back.
    pub(crate) fn go_back(&mut self, field: Field<'_>, items: &[i64], rest: &[u32]) {
        if !rest.is_empty() {
            return self.back_within(field, items, rest);
        }
        restart(self.behind.as_mut_slice(), field.nodes);
        raise_tails(
            field,
            items,
            self.behind.as_mut_slice(),
            self.goes.as_mut_slice(),
        );
    }

    /// Makes `best` the best path through each item, by number, after both passes.
    pub(crate) fn find_through(
        &self,
        field: Field<'_>,
        items: &[i64],
        best: &mut [Option<Through>],
    ) {
        best.fill(None);
        for (place, (arc, own)) in field.arcs.iter().zip(field.own.iter()).enumerate() {
            if arc.item > 0 {
                let price = item_price(items, arc.item).wrapping_add(*own);
                let before = value_at(self.ahead.as_slice(), arc.tail);
                let after = value_at(self.behind.as_slice(), arc.head);
                if before > LOST && after > LOST {
                    let price = price.wrapping_add(before).wrapping_add(after);
                    raise_best(best, arc.item, Through { price, place });
                }
            }
        }
    }

    /// The numbers of the arcs of the best path, in order, after the pass ahead.
    pub(crate) fn best_path(&self, alloc: Global, field: Field<'_>) -> Result<Vec<u32>, Memory> {
        let mut numbers = Vec::new(alloc);
        self.push_before(field, field.nodes, &mut numbers)?;
        numbers.as_mut_slice().reverse();
        Ok(numbers)
    }

    /// The same of the best path over the arc at a place, after both passes.
    pub(crate) fn path_over(
        &self,
        alloc: Global,
        field: Field<'_>,
        place: usize,
    ) -> Result<Vec<u32>, Memory> {
        let mut numbers = Vec::new(alloc);
        let Some(arc) = field.arcs.get(place) else {
            return Ok(numbers);
        };
        self.push_before(field, arc.tail, &mut numbers)?;
        numbers.as_mut_slice().reverse();
        numbers.push(number_of(field, place))?;
        self.push_after(field, arc.head, &mut numbers)?;
        Ok(numbers)
    }

    /// The arcs of the best path to a node, last first.
    fn push_before(
        &self,
        field: Field<'_>,
        node: u32,
        numbers: &mut Vec<u32>,
    ) -> Result<(), Memory> {
        let mut node = node;
        for _ in 0..field.nodes {
            let Some((place, arc)) = arc_at(field, self.came.as_slice(), node) else {
                return Ok(());
            };
            if node == 1 {
                return Ok(());
            }
            numbers.push(number_of(field, place))?;
            node = arc.tail;
        }
        Ok(())
    }

    /// The arcs of the best path from a node on.
    fn push_after(
        &self,
        field: Field<'_>,
        node: u32,
        numbers: &mut Vec<u32>,
    ) -> Result<(), Memory> {
        let mut node = node;
        for _ in 0..field.nodes {
            let Some((place, arc)) = arc_at(field, self.goes.as_slice(), node) else {
                return Ok(());
            };
            if node == field.nodes {
                return Ok(());
            }
            numbers.push(number_of(field, place))?;
            node = arc.head;
        }
        Ok(())
    }
}

/// No node is reached but this one.
fn restart(values: &mut [i64], node: u32) {
    values.fill(NEVER);
    let node = node as usize;
    if node < values.len() {
        values[node] = 0;
    }
}

#[inline(never)]
fn raise_heads(field: Field<'_>, items: &[i64], values: &mut [i64], came: &mut [usize]) {
    for (place, (arc, own)) in field.arcs.iter().zip(field.own.iter()).enumerate() {
        let price = item_price(items, arc.item).wrapping_add(*own);
        raise(values, came, arc.tail, arc.head, price, place);
    }
}

#[inline(never)]
fn raise_tails(field: Field<'_>, items: &[i64], values: &mut [i64], goes: &mut [usize]) {
    for (place, (arc, own)) in field.arcs.iter().zip(field.own.iter()).enumerate().rev() {
        let price = item_price(items, arc.item).wrapping_add(*own);
        raise(values, goes, arc.head, arc.tail, price, place);
    }
}

/// A path that goes on from a node over the arc at a place may be the best one to the next node.
#[inline(always)]
fn raise(values: &mut [i64], over: &mut [usize], from: u32, to: u32, price: i64, place: usize) {
    let from = from as usize;
    let to = to as usize;
    if from < values.len() && to < values.len() && to < over.len() {
        let value = values[from].wrapping_add(price);
        if value > values[to] {
            values[to] = value;
            over[to] = place;
        }
    }
}

#[inline(always)]
fn item_price(items: &[i64], item: u32) -> i64 {
    items.get(item as usize).copied().unwrap_or(0)
}

fn value_at(values: &[i64], node: u32) -> i64 {
    values.get(node as usize).copied().unwrap_or(NEVER)
}

fn raise_best(best: &mut [Option<Through>], item: u32, through: Through) {
    let place = item as usize;
    if place < best.len() && best[place].is_none_or(|other| other.price < through.price) {
        best[place] = Some(through);
    }
}

/// The arc that a table has for a node, with its place.
fn arc_at(field: Field<'_>, table: &[usize], node: u32) -> Option<(usize, TypeArc)> {
    let place = *table.get(node as usize)?;
    let arc = *field.arcs.get(place)?;
    Some((place, arc))
}

/// The number of the arc at a place.
fn number_of(field: Field<'_>, place: usize) -> u32 {
    let place = u32::try_from(place).unwrap_or(u32::MAX);
    field.first.saturating_add(place)
}
