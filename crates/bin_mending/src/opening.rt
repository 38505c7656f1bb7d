//! New bins for units that found no gap.

use crate::filling::most_copies;
use crate::groups::{Group, capacity};
use crate::sizes::Missing;
use arc_num::Memory;
use packing_laws::{Count, Instance};
use std::alloc::Global;

/// A type of bins, what is put into each of them, and what each costs.
#[derive(Clone, Copy, Debug)]
struct Opening {
    bin_type: u32,
    cost: u32,
    is_first: bool,
    count: Count,
}

impl Opening {
    /// Whether its type comes first, or else it costs less for each unit.
    fn is_before(&self, other: &Opening) -> bool {
        if self.is_first == other.is_first {
            let here = u64::from(self.cost).saturating_mul(u64::from(other.count.count));
            let there = u64::from(other.cost).saturating_mul(u64::from(self.count.count));
            here < there
        } else {
            self.is_first
        }
    }
}

/// Puts missing units into new bins, those of the first type before all others, and answers how many are left
/// that no free bin holds.
pub(crate) fn open_bins(
    alloc: Global,
    instance: &Instance,
    groups: &mut Vec<Group>,
    free: &mut [u32],
    first: Option<u32>,
    missing: Missing,
) -> Result<u32, Memory> {
    let mut units = missing.units;
    for _turn in 0..units {
        if units == 0 {
            return Ok(0);
        }
        let Some(opening) = best_opening(instance, free, first, missing.item, units) else {
            return Ok(units);
        };
        let bins = take_free(free, opening, units);
        let mut group = Group::empty(alloc, instance, opening.bin_type, bins)?;
        group.put(instance, opening.count)?;
        groups.push(group)?;
        units = units.saturating_sub(bins.saturating_mul(opening.count.count));
    }
    Ok(units)
}

/// Takes as many free bins as the units fill, and answers how many.
fn take_free(free: &mut [u32], opening: Opening, units: u32) -> u32 {
    let place = (opening.bin_type as usize).wrapping_sub(1);
    match units.checked_div(opening.count.count) {
        Some(most) if place < free.len() => {
            let bins = most.min(free[place]);
            free[place] -= bins;
            bins
        }
        _ => 0,
    }
}

/// The best type of which a bin is free and holds a unit, and what to put in.
fn best_opening(
    instance: &Instance,
    free: &[u32],
    first: Option<u32>,
    item: u32,
    units: u32,
) -> Option<Opening> {
    let most = instance.cap_of(item).unwrap_or(u32::MAX).min(units);
    let mut best: Option<Opening> = None;
    let mut number = 0u32;
    for (bin_type, left) in instance.types().iter().zip(free.iter()) {
        number = number.saturating_add(1);
        let opening = Opening {
            bin_type: number,
            cost: bin_type.cost,
            is_first: first == Some(number),
            count: most_copies(instance, capacity(instance, number), item, most),
        };
        if *left > 0 && opening.count.count > 0 {
            best = better(best, opening);
        }
    }
    best
}

fn better(best: Option<Opening>, next: Opening) -> Option<Opening> {
    match best {
        Some(found) if !next.is_before(&found) => Some(found),
        _ => Some(next),
    }
}
