//! The columns that a master works with now, their coefficients in one flat list.

ghost use Rattle.std.specs.Prelude.{IfSome, Contains, map};

use crate::pool::ColumnPool;
use crate::ways::Way;
use arc_num::Memory;
use simplex_basis::{Coefficient, Columns, Price};
use std::alloc::Global;
use std::marker::Model;

/// What the bins of a split row have in common: the arc that their path takes, or their type.
#[derive(Clone, Copy, Debug, PartialEq, Eq)]
pub enum Split {
    Arc(u32),
    BinType(u32),
}

/// A row of the master that counts such bins, from 0.
#[derive(Clone, Copy, Debug, PartialEq, Eq)]
pub struct SplitRow {
    pub split: Split,
    pub row: u32,
}

impl SplitRow {
    /// Whether the row counts bins that are filled so.
    pub fn counts(&self, way: &Way) -> bool {
        match self.split {
            Split::Arc(arc) => way.arcs.as_slice().binary_search(&arc).is_ok(),
            Split::BinType(bin_type) => way.bin_type == bin_type,
        }
    }
}

/// A column that is awake, and where its coefficients stand.
#[derive(Clone, Copy, Debug, PartialEq, Eq)]
struct AwakeColumn {
    number: usize,
    cost: u32,
    start: usize,
    end: usize,
}

/// The columns of a pool that are awake, under the split rows of one box.
#[derive(Debug, Drop)]
pub struct Awake {
    rows: Vec<SplitRow>,
    columns: Vec<AwakeColumn>,
    coefficients: Vec<Coefficient>,
    /// For each column of the pool its place among those that are awake.
    places: Vec<Option<usize>>,
}

impl Model for Awake {
    ghost use Rattle.std.specs.Prelude.{ℕ, List, map};

    ghost Value = { List ℕ };

    ghost view = { λ a. map (λ c. c.number) a.columns.items };
}

impl Awake {
    ghost use Rattle.std.specs.Prelude.{◌≡◌, ◌++◌, ◌∷◌, [], ◌<◌, ◌↔◌, IfOk, IfSome, IsSome, OnErr, Contains, if◌then◌else◌, length, slice_get};

    /// No column is awake.
    pub fn new(alloc: Global, rows: &[SplitRow]) -> Result<Awake, Memory>
        ensures { IfOk result (λ a. a ≡ []) }
    {
        Ok(Awake {
            rows: Vec::from_slice(alloc, rows)?,
            columns: Vec::new(alloc),
            coefficients: Vec::new(alloc),
            places: Vec::new(alloc),
        })
    }

    /// How many columns are awake.
    pub fn len(&self) -> usize
        ensures { result ≡ length self.now }
    {
        self.columns.len()
    }

    pub fn is_awake(&self, number: usize) -> bool {
        matches!(self.places.get(number), Some(Some(_)))
    }

    /// Wakes a column of the pool, unless it is awake or there is none with this number.
    pub fn wake(&mut self, pool: &ColumnPool, number: usize) -> Result<bool, Memory>
        ensures woken { IfOk result (λ fresh. self.new ≡ (if fresh then self.old ++ number ∷ [] else self.old)) }
        ensures err { OnErr result (self.new ≡ self.old) }
    {
        let Some((way, column)) = pool.get(number) else {
            return Ok(false);
        };
        if self.is_awake(number) {
            return Ok(false);
        }
        let start = self.coefficients.len();
        self.coefficients
            .extend_from_slice(column.coefficients.as_slice())?;
        push_splits(&mut self.coefficients, self.rows.as_slice(), way)?;
        grow(&mut self.places, number)?;
        let place = self.columns.len();
        self.columns.push(AwakeColumn {
            number,
            cost: column.cost,
            start,
            end: self.coefficients.len(),
        })?;
        set_place(self.places.as_mut_slice(), number, place);
        Ok(true)
    }

    /// The column that is awake with the least reduced cost, if that is below the limit. Sums beyond 64 bits come out
    /// wrong: who lets the column enter computes its reduced cost again.
    pub fn cheapest(&self, prices: &[Price], unit: i64, limit: i64) -> Option<usize>
        ensures { IfSome result (Contains self.now) }
    {
        let mut least = limit;
        let mut found = None;
        for (place, column) in self.columns.as_slice().iter().enumerate() {
            let part = part(self.coefficients.as_slice(), column.start, column.end);
            let reduced = reduced_cost(part, prices, column.cost, unit);
            if reduced < least {
                least = reduced;
                found = Some(place);
            }
        }
        self.number_at(found?)
    }

    /// The number of the column that woke at this place in the order, from 0.
    pub fn number_at(&self, place: usize) -> Option<usize>
        ensures some { IsSome result ↔ (place < length self.now) }
        ensures value { IfSome result (λ n. slice_get self.now place ≡ Some n) }
        ensures among { IfSome result (Contains self.now) }
    {
        let column = self.columns.get(place)?;
        Some(column.number)
    }

    fn part_at(&self, place: usize) -> &[Coefficient] {
        match self.columns.get(place) {
            Some(column) => part(self.coefficients.as_slice(), column.start, column.end),
            None => [].as_slice(),
        }
    }

    /// Appends the reduced cost of each column that is awake, in the order in which they woke.
    pub fn push_reduced(
        &self,
        prices: &[Price],
        unit: i64,
        out: &mut Vec<i64>,
    ) -> Result<(), Memory> {
        for column in self.columns.as_slice() {
            let part = part(self.coefficients.as_slice(), column.start, column.end);
            out.push(reduced_cost(part, prices, column.cost, unit))?;
        }
        Ok(())
    }
}

impl Columns for Awake {
    /// None for a column that is asleep.
    fn coefficients(&self, number: u32) -> &[Coefficient] {
        match self.places.get(number as usize) {
            Some(Some(place)) => self.part_at(*place),
            _ => [].as_slice(),
        }
    }
}

fn push_splits(
    coefficients: &mut Vec<Coefficient>,
    rows: &[SplitRow],
    way: &Way,
) -> Result<(), Memory> {
    for row in rows {
        if row.counts(way) {
            coefficients.push(Coefficient {
                row: row.row,
                value: 1,
            })?;
        }
    }
    Ok(())
}

fn grow(places: &mut Vec<Option<usize>>, number: usize) -> Result<(), Memory> {
    for _ in places.len()..=number {
        places.push(None)?;
    }
    Ok(())
}

fn set_place(places: &mut [Option<usize>], number: usize, place: usize) {
    if number < places.len() {
        places[number] = Some(place);
    }
}

fn part(coefficients: &[Coefficient], start: usize, end: usize) -> &[Coefficient] {
    if start <= end && end <= coefficients.len() {
        &coefficients[start..end]
    } else {
        [].as_slice()
    }
}

#[inline(never)]
fn reduced_cost(column: &[Coefficient], prices: &[Price], cost: u32, unit: i64) -> i64 {
    let mut reduced = i64::from(cost).wrapping_mul(unit);
    for coefficient in column {
        if let Some(price) = prices.get(coefficient.row as usize) {
            let worth = price.value().wrapping_mul(i64::from(coefficient.value));
            reduced = reduced.wrapping_sub(worth);
        }
    }
    reduced
}
