//! Bins take the cheapest type that holds what is in them.

use crate::groups::{Group, capacity, cut_off};
use arc_num::Memory;
use packing_laws::Instance;
use std::alloc::Global;

/// So often all bins are looked at at most.
const MOST_PASSES: u32 = 100;

/// Lets empty bins go, and lets each bin take the cheapest free type that holds what is in it, until nothing changes.
pub(crate) fn lower_types(
    alloc: Global,
    instance: &Instance,
    groups: &mut Vec<Group>,
    free: &mut [u32],
) -> Result<(), Memory> {
    for _pass in 0..MOST_PASSES {
        if !lower_each(alloc, instance, groups, free)? {
            return Ok(());
        }
    }
    Ok(())
}

/// Looks at all bins once. Whether anything changed.
fn lower_each(
    alloc: Global,
    instance: &Instance,
    groups: &mut Vec<Group>,
    free: &mut [u32],
) -> Result<bool, Memory> {
    let mut changed = false;
    for place in 0..groups.len() {
        if lower_group(alloc, instance, groups, place, free)? {
            changed = true;
        }
    }
    Ok(changed)
}

/// Lets the bins of a group go or take a cheaper type. Whether anything changed.
fn lower_group(
    alloc: Global,
    instance: &Instance,
    groups: &mut Vec<Group>,
    place: usize,
    free: &mut [u32],
) -> Result<bool, Memory> {
    let Some(group) = groups.get(place) else {
        return Ok(false);
    };
    if group.times == 0 {
        return Ok(false);
    }
    if group.is_empty() {
        let_go(groups.as_mut_slice(), place, free);
        return Ok(true);
    }
    match cheaper_type(instance, group, free) {
        Some(bin_type) => {
            change_type(alloc, instance, groups, place, free, bin_type)?;
            Ok(true)
        }
        None => Ok(false),
    }
}

/// The bins of a group are used no more.
fn let_go(groups: &mut [Group], place: usize, free: &mut [u32]) {
    if place < groups.len() {
        give_back(free, groups[place].bin_type, groups[place].times);
        groups[place].times = 0;
    }
}

/// The cheapest type that costs less than that of the group, holds what is in a bin of it, and has a free bin.
fn cheaper_type(instance: &Instance, group: &Group, free: &[u32]) -> Option<u32> {
    let own = instance.bin_type(group.bin_type)?;
    let mut least = own.cost;
    let mut found = None;
    let mut number = 0u32;
    for (bin_type, left) in instance.types().iter().zip(free.iter()) {
        number = number.saturating_add(1);
        if *left > 0 && bin_type.cost < least {
            if holds(
                bin_type.cap.as_slice(),
                own.cap.as_slice(),
                group.room.as_slice(),
            ) {
                least = bin_type.cost;
                found = Some(number);
            }
        }
    }
    found
}

/// Whether a capacity is enough for what leaves so much room of another one.
fn holds(cap: &[u32], own: &[u32], room: &[u32]) -> bool {
    for (cap, (own, room)) in cap.iter().zip(own.iter().zip(room.iter())) {
        if own.saturating_sub(*room) > *cap {
            return false;
        }
    }
    true
}

/// As many bins of a group as are free of a type take it.
fn change_type(
    alloc: Global,
    instance: &Instance,
    groups: &mut Vec<Group>,
    place: usize,
    free: &mut [u32],
    bin_type: u32,
) -> Result<(), Memory> {
    let times = match groups.get(place) {
        Some(group) => group.times,
        None => 0,
    };
    let bins = take_free(free, bin_type, times);
    if bins < times {
        cut_off(alloc, groups, place, times - bins)?;
    }
    if place < groups.len() {
        let before = groups[place].bin_type;
        give_back(free, before, bins);
        let own = capacity(instance, before);
        change_room(
            groups[place].room.as_mut_slice(),
            own,
            capacity(instance, bin_type),
        );
        groups[place].bin_type = bin_type;
    }
    Ok(())
}

/// The room under another capacity.
fn change_room(room: &mut [u32], own: &[u32], cap: &[u32]) {
    for (room, (own, cap)) in room.iter_mut().zip(own.iter().zip(cap.iter())) {
        *room = cap.saturating_sub(own.saturating_sub(*room));
    }
}

/// Takes as many free bins of a type as there are, but no more than so many.
fn take_free(free: &mut [u32], bin_type: u32, most: u32) -> u32 {
    let place = (bin_type as usize).wrapping_sub(1);
    if place < free.len() {
        let bins = most.min(free[place]);
        free[place] -= bins;
        bins
    } else {
        0
    }
}

fn give_back(free: &mut [u32], bin_type: u32, bins: u32) {
    let place = (bin_type as usize).wrapping_sub(1);
    if place < free.len() {
        free[place] = free[place].saturating_add(bins);
    }
}
