//! Units above the demands are taken away.

use crate::groups::{Group, cut_off};
use arc_num::Memory;
use packing_laws::{Count, Instance};
use std::alloc::Global;

/// Takes away what is in the bins above the demands, from the last bins on, and answers how many units of each item are
/// missing, by number less 1.
pub(crate) fn take_surplus(
    alloc: Global,
    instance: &Instance,
    groups: &mut Vec<Group>,
) -> Result<Vec<u32>, Memory> {
    let held = held_units(alloc, instance, groups.as_slice())?;
    let mut missing = Vec::new(alloc);
    let mut number = 0u32;
    for (item, held) in instance.items().iter().zip(held.as_slice().iter()) {
        number = number.saturating_add(1);
        let demand = u64::from(item.demand);
        take_units(alloc, instance, groups, number, held.saturating_sub(demand))?;
        missing.push(missing_of(item.demand, *held))?;
    }
    Ok(missing)
}

/// By how much less than the demand is there.
fn missing_of(demand: u32, held: u64) -> u32 {
    demand.saturating_sub(u32::try_from(held).unwrap_or(u32::MAX))
}

/// How many units of each item are in all bins, by number less 1.
fn held_units(alloc: Global, instance: &Instance, groups: &[Group]) -> Result<Vec<u64>, Memory> {
    let mut held = vec![in alloc; 0u64; instance.item_count() as usize]?;
    for group in groups {
        add_units(held.as_mut_slice(), group);
    }
    Ok(held)
}

fn add_units(held: &mut [u64], group: &Group) {
    for count in group.counts.as_slice() {
        let units = u64::from(group.times).saturating_mul(u64::from(count.count));
        add_at(held, count.item, units);
    }
}

fn add_at(held: &mut [u64], item: u32, units: u64) {
    let place = (item as usize).wrapping_sub(1);
    if place < held.len() {
        held[place] = held[place].saturating_add(units);
    }
}

/// Takes so many units of an item away, from the last bins on.
fn take_units(
    alloc: Global,
    instance: &Instance,
    groups: &mut Vec<Group>,
    item: u32,
    units: u64,
) -> Result<(), Memory> {
    let mut units = units;
    for place in (0..groups.len()).rev() {
        if units == 0 {
            return Ok(());
        }
        units = take_from_group(alloc, instance, groups, place, item, units)?;
    }
    Ok(())
}

/// Takes so many units of an item out of the bins of a group, and answers how many are still to be taken.
fn take_from_group(
    alloc: Global,
    instance: &Instance,
    groups: &mut Vec<Group>,
    place: usize,
    item: u32,
    units: u64,
) -> Result<u64, Memory> {
    let mut units = units;
    for at in 0..count_of_counts(groups.as_slice(), place) {
        if let Some(count) = count_at(groups.as_slice(), place, at)
            && count.item == item
            && count.count > 0
        {
            units = take_whole(alloc, instance, groups, place, at, units)?;
            units = take_part(alloc, instance, groups, place, at, units)?;
        }
    }
    Ok(units)
}

fn count_of_counts(groups: &[Group], place: usize) -> usize {
    match groups.get(place) {
        Some(group) => group.counts.len(),
        None => 0,
    }
}

fn count_at(groups: &[Group], place: usize, at: usize) -> Option<Count> {
    let group = groups.get(place)?;
    group.counts.get(at).copied()
}

/// Takes all units at this place of the counts out of as many bins of the group as have not too many, and answers how many
/// are still to be taken.
fn take_whole(
    alloc: Global,
    instance: &Instance,
    groups: &mut Vec<Group>,
    place: usize,
    at: usize,
    units: u64,
) -> Result<u64, Memory> {
    let each = units_at(groups.as_slice(), place, at);
    let Some(most) = units.checked_div(u64::from(each)) else {
        return Ok(units);
    };
    let times = times_at(groups.as_slice(), place);
    let bins = u32::try_from(most).unwrap_or(u32::MAX).min(times);
    take_out(alloc, instance, groups, place, at, each, bins)?;
    Ok(units.saturating_sub(u64::from(each).saturating_mul(u64::from(bins))))
}

/// Takes what is less than all units at this place of the counts out of one bin of the group, and answers how many are still
/// to be taken.
fn take_part(
    alloc: Global,
    instance: &Instance,
    groups: &mut Vec<Group>,
    place: usize,
    at: usize,
    units: u64,
) -> Result<u64, Memory> {
    let each = units_at(groups.as_slice(), place, at);
    match u32::try_from(units) {
        Ok(part) if part > 0 && part < each => {
            take_out(alloc, instance, groups, place, at, part, 1)?;
            Ok(0)
        }
        _ => Ok(units),
    }
}

fn units_at(groups: &[Group], place: usize, at: usize) -> u32 {
    match count_at(groups, place, at) {
        Some(count) => count.count,
        None => 0,
    }
}

fn times_at(groups: &[Group], place: usize) -> u32 {
    match groups.get(place) {
        Some(group) => group.times,
        None => 0,
    }
}

/// Takes so many units out of each of so many bins of a group. The others stay as they are.
fn take_out(
    alloc: Global,
    instance: &Instance,
    groups: &mut Vec<Group>,
    place: usize,
    at: usize,
    units: u32,
    bins: u32,
) -> Result<(), Memory> {
    if bins == 0 {
        return Ok(());
    }
    let times = times_at(groups.as_slice(), place);
    let changed = if bins < times {
        cut_off(alloc, groups, place, bins)?;
        groups.len().saturating_sub(1)
    } else {
        place
    };
    if changed < groups.len() {
        groups[changed].take(instance, at, units);
    }
    Ok(())
}
