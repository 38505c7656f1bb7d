//! Missing units are put into the gaps of the bins.

use crate::groups::{Group, cut_off, weights};
use arc_num::Memory;
use packing_laws::{Count, Instance};
use std::alloc::Global;

/// Puts so many units of an item into the gaps of the bins, from the first bins on, and answers how many found no gap.
pub(crate) fn fill_gaps(
    alloc: Global,
    instance: &Instance,
    groups: &mut Vec<Group>,
    item: u32,
    units: u32,
) -> Result<u32, Memory> {
    let mut units = units;
    for place in 0..usize::MAX {
        if units == 0 || place >= groups.len() {
            return Ok(units);
        }
        units = fill_group(alloc, instance, groups, place, item, units)?;
    }
    Ok(units)
}

/// Puts units of an item into the bins of a group, in the form that fits most often, and answers how many are left. Bins
/// that get none are put behind all others.
fn fill_group(
    alloc: Global,
    instance: &Instance,
    groups: &mut Vec<Group>,
    place: usize,
    item: u32,
    units: u32,
) -> Result<u32, Memory> {
    let Some(group) = groups.get(place) else {
        return Ok(units);
    };
    let times = group.times;
    let count = most_within(instance, group, item, units);
    let Some(most) = units.checked_div(count.count) else {
        return Ok(units);
    };
    let bins = most.min(times);
    if bins < times {
        cut_off(alloc, groups, place, times - bins)?;
    }
    if place < groups.len() {
        groups[place].put(instance, count)?;
    }
    Ok(units.saturating_sub(bins.saturating_mul(count.count)))
}

/// As many units of an item as each bin of the group has room for, in the form that fits most often, but no more than these.
fn most_within(instance: &Instance, group: &Group, item: u32, units: u32) -> Count {
    let units = units.min(allowed(instance, group, item));
    most_copies(instance, group.room.as_slice(), item, units)
}

/// How many units of an item more its cap lets into each bin of the group.
fn allowed(instance: &Instance, group: &Group, item: u32) -> u32 {
    match instance.cap_of(item) {
        Some(cap) => cap.saturating_sub(group.held(item)),
        None => u32::MAX,
    }
}

/// The form of an item that fits most often into the room, and how often it does, but no more often than so.
pub(crate) fn most_copies(instance: &Instance, room: &[u32], item: u32, most: u32) -> Count {
    let mut best = Count {
        item,
        form: 1,
        count: 0,
    };
    let mut form = 0u32;
    for _ in 0..count_of_forms(instance, item) {
        form = form.saturating_add(1);
        let count = copies_within(room, weights(instance, item, form)).min(most);
        if count > best.count {
            best = Count { item, form, count };
        }
    }
    best
}

fn count_of_forms(instance: &Instance, item: u32) -> usize {
    match instance.item(item) {
        Some(found) => found.forms.as_slice().len(),
        None => 0,
    }
}

/// How often these weights fit into the room.
fn copies_within(room: &[u32], weights: &[u32]) -> u32 {
    let mut copies = u32::MAX;
    for (room, weight) in room.iter().zip(weights.iter()) {
        if let Some(most) = room.checked_div(*weight) {
            copies = copies.min(most);
        }
    }
    copies
}
