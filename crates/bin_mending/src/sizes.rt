//! Items with missing units, the largest first.

use arc_num::Memory;
use packing_laws::{Instance, Item};
use std::alloc::Global;
use std::cmp::Reverse;

/// An item, units of it that are missing, and the size of its smallest form. Larger ones come first.
#[derive(Clone, Copy, Debug, PartialEq, Eq, PartialOrd, Ord)]
pub(crate) struct Missing {
    size: Reverse<u64>,
    pub item: u32,
    pub units: u32,
}

impl Missing {
    pub(crate) fn with_units(self, units: u32) -> Missing {
        Missing { units, ..self }
    }
}

/// The items with missing units, the largest first.
pub(crate) fn missing_in_order(
    alloc: Global,
    instance: &Instance,
    missing: &[u32],
) -> Result<Vec<Missing>, Memory> {
    let room = greatest_room(alloc, instance)?;
    let mut listed = Vec::new(alloc);
    let mut number = 0u32;
    for (item, units) in instance.items().iter().zip(missing.iter()) {
        number = number.saturating_add(1);
        if *units > 0 {
            let size = Reverse(least_size(item, room.as_slice()));
            listed.push(Missing {
                size,
                item: number,
                units: *units,
            })?;
        }
    }
    listed.sort_unstable();
    Ok(listed)
}

fn least_size(item: &Item, room: &[u32]) -> u64 {
    let mut least = u64::MAX;
    for form in item.forms.as_slice() {
        least = least.min(size_of(form.as_slice(), room));
    }
    least
}

/// The parts of the room that the weights take, added up over the dimensions, in units of 2^-20.
fn size_of(weights: &[u32], room: &[u32]) -> u64 {
    let mut size = 0u64;
    for (weight, most) in weights.iter().zip(room.iter()) {
        let part = (u64::from(*weight) << 20) / u64::from(*most.max(&1));
        size = size.saturating_add(part);
    }
    size
}

/// In each dimension, the most that a bin of any type holds there.
fn greatest_room(alloc: Global, instance: &Instance) -> Result<Vec<u32>, Memory> {
    let mut room = Vec::new(alloc);
    for dimension in 0..instance.dims() as usize {
        room.push(greatest_in(instance, dimension))?;
    }
    Ok(room)
}

fn greatest_in(instance: &Instance, dimension: usize) -> u32 {
    let mut most = 0;
    for bin_type in instance.types() {
        if let Some(room) = bin_type.cap.as_slice().get(dimension) {
            most = most.max(*room);
        }
    }
    most
}
