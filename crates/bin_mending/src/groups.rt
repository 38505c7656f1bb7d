//! Bins that are alike, and the room in each of them.

use arc_num::Memory;
use packing_laws::{Bin, Count, Counts, Instance, Item};
use std::alloc::Global;

/// So many bins of a type, what is in each of them, and what is left of the capacity in each dimension.
#[derive(Debug, Drop)]
pub(crate) struct Group {
    pub bin_type: u32,
    pub times: u32,
    pub counts: Vec<Count>,
    pub room: Vec<u32>,
}

impl Group {
    /// So many empty bins of a type.
    pub(crate) fn empty(
        alloc: Global,
        instance: &Instance,
        bin_type: u32,
        times: u32,
    ) -> Result<Group, Memory> {
        Ok(Group {
            bin_type,
            times,
            counts: Vec::new(alloc),
            room: Vec::from_slice(alloc, capacity(instance, bin_type))?,
        })
    }

    fn of_bin(alloc: Global, instance: &Instance, bin: &Bin) -> Result<Group, Memory> {
        let mut group = Group::empty(alloc, instance, bin.bin_type, bin.times)?;
        for count in bin.counts.as_slice() {
            group.put(instance, *count)?;
        }
        Ok(group)
    }

    /// Bins like these, but so many.
    pub(crate) fn like(&self, alloc: Global, times: u32) -> Result<Group, Memory> {
        Ok(Group {
            bin_type: self.bin_type,
            times,
            counts: Vec::from_slice(alloc, self.counts.as_slice())?,
            room: Vec::from_slice(alloc, self.room.as_slice())?,
        })
    }

    /// Puts units into each bin.
    pub(crate) fn put(&mut self, instance: &Instance, count: Count) -> Result<(), Memory> {
        let weights = weights(instance, count.item, count.form);
        for (room, weight) in self.room.iter_mut().zip(weights.iter()) {
            *room = room.saturating_sub(weight.saturating_mul(count.count));
        }
        self.counts.push(count)?;
        Ok(())
    }

    /// Takes so many units out of each bin, of those at this place among the counts.
    pub(crate) fn take(&mut self, instance: &Instance, place: usize, units: u32) {
        if place < self.counts.len() {
            let count = self.counts[place];
            self.counts[place].count = count.count.saturating_sub(units);
            let weights = weights(instance, count.item, count.form);
            for (room, weight) in self.room.iter_mut().zip(weights.iter()) {
                *room = room.saturating_add(weight.saturating_mul(units));
            }
        }
    }

    /// How many units of an item are in each bin.
    pub(crate) fn held(&self, item: u32) -> u32 {
        let mut units = 0u32;
        for count in self.counts.as_slice() {
            if count.item == item {
                units = units.saturating_add(count.count);
            }
        }
        units
    }

    /// Whether no units are in the bins.
    pub(crate) fn is_empty(&self) -> bool {
        self.counts.as_slice().iter().all(|count| count.count == 0)
    }

    fn to_bin(&self, alloc: Global) -> Result<Bin, Memory> {
        let mut counts = Vec::new(alloc);
        for count in self.counts.as_slice() {
            if count.count > 0 {
                counts.push(*count)?;
            }
        }
        Ok(Bin {
            bin_type: self.bin_type,
            times: self.times,
            counts: Counts::new(counts),
        })
    }
}

/// The bins, each with its room.
pub(crate) fn groups_of(
    alloc: Global,
    instance: &Instance,
    bins: &[Bin],
) -> Result<Vec<Group>, Memory> {
    let mut groups = Vec::new(alloc);
    for bin in bins {
        groups.push(Group::of_bin(alloc, instance, bin)?)?;
    }
    Ok(groups)
}

/// The bins that are used and not empty.
pub(crate) fn bins_from(alloc: Global, groups: &[Group]) -> Result<Vec<Bin>, Memory> {
    let mut bins = Vec::new(alloc);
    for group in groups {
        if group.times > 0 && !group.is_empty() {
            bins.push(group.to_bin(alloc)?)?;
        }
    }
    Ok(bins)
}

/// Cuts so many bins off a group, which are put behind all others and keep what they hold. Fewer where the group has no
/// more.
pub(crate) fn cut_off(
    alloc: Global,
    groups: &mut Vec<Group>,
    place: usize,
    times: u32,
) -> Result<(), Memory> {
    if place < groups.len() {
        let cut = times.min(groups[place].times);
        let other = groups[place].like(alloc, cut)?;
        groups[place].times -= cut;
        groups.push(other)?;
    }
    Ok(())
}

/// What a bin of a type holds in each dimension; nothing where there is no such type.
pub(crate) fn capacity<'a>(instance: &'a Instance, bin_type: u32) -> &'a [u32] {
    match instance.bin_type(bin_type) {
        Some(found) => found.cap.as_slice(),
        None => [].as_slice(),
    }
}

/// What a form of an item weighs in each dimension; nothing where there is none.
pub(crate) fn weights<'a>(instance: &'a Instance, item: u32, form: u32) -> &'a [u32] {
    match instance.item(item) {
        Some(found) => weights_at(found, form),
        None => [].as_slice(),
    }
}

fn weights_at<'a>(item: &'a Item, form: u32) -> &'a [u32] {
    match item.forms.as_slice().get((form as usize).wrapping_sub(1)) {
        Some(weights) => weights.as_slice(),
        None => [].as_slice(),
    }
}
