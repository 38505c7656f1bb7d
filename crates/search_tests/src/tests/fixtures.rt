//! Instances in one dimension, from plain numbers.

use arc_num::Memory;
use packing_laws::{BinType, Instance, Item, Numbers, Vectors};
use std::alloc::Global;

/// Types of bins by capacity, cost and limit, and items by weight and demand, in one dimension.
pub type Told<'a> = (&'a [(u32, u32, Option<u32>)], &'a [(u32, u32)]);

/// Three units of 6 in bins of 10.
pub const THREE_LARGE: Told<'static> = (&[(10, 1, None)], &[(6, 3)]);

/// Three units of 5 in bins of 10 that cost 3 each.
pub const THREE_HALVES: Told<'static> = (&[(10, 3, None)], &[(5, 3)]);

/// One cheap bin beside dear ones, and two units that share no bin.
pub const ONE_CHEAP: Told<'static> = (&[(10, 1, Some(1)), (10, 5, None)], &[(6, 2)]);

pub fn instance_of(alloc: Global, told: Told<'_>) -> Result<Option<Instance>, Memory> {
    let mut types = Vec::new(alloc);
    for (cap, cost, limit) in told.0 {
        types.push(BinType {
            cap: Numbers::new(Vec::from_slice(alloc, &[*cap])?),
            cost: *cost,
            limit: *limit,
        })?;
    }
    let mut items = Vec::new(alloc);
    for (weight, demand) in told.1 {
        let form = Numbers::new(Vec::from_slice(alloc, &[*weight])?);
        items.push(Item {
            demand: *demand,
            forms: Vectors::new(vec![in alloc; form]?),
        })?;
    }
    Ok(Instance::new(1, types, items))
}
