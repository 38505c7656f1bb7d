//! Bins that become packings.

use super::*;
use arc_num::Memory;
use packing_laws::{
    Bin, BinType, Count, Counts, Instance, Item, ItemCap, Numbers, Packing, Vectors, cost,
};
use std::alloc::Global;
use std::test::Fail;

/// Types of bins by capacity and cost, items by weight and demand, and caps by item and count.
#[derive(Clone, Copy)]
struct Told {
    types: &'static [(u32, u32)],
    items: &'static [(u32, u32)],
    caps: &'static [(u32, u32)],
}

/// Bins of 10 and of 6, and units of 6, 4 and 3.
const TWO_TYPES: Told = Told {
    types: &[(10, 5), (6, 2)],
    items: &[(6, 2), (4, 2), (3, 1)],
    caps: &[],
};

const CAPPED: Told = Told {
    types: &[(10, 1)],
    items: &[(2, 6)],
    caps: &[(1, 2)],
};

fn instance_of(alloc: Global, told: Told) -> Result<Option<Instance>, Memory> {
    let mut types = Vec::new(alloc);
    for (cap, cost) in told.types {
        types.push(BinType {
            cap: Numbers::new(Vec::from_slice(alloc, &[*cap])?),
            cost: *cost,
            limit: None,
        })?;
    }
    let mut items = Vec::new(alloc);
    for (weight, demand) in told.items {
        let form = Numbers::new(Vec::from_slice(alloc, &[*weight])?);
        items.push(Item {
            demand: *demand,
            forms: Vectors::new(vec![in alloc; form]?),
        })?;
    }
    let mut caps = Vec::new(alloc);
    for (item, count) in told.caps {
        caps.push(ItemCap {
            item: *item,
            count: *count,
        })?;
    }
    Ok(Instance::with_caps(1, types, items, caps))
}

/// Bins of the first type with some units of one item each.
fn bins_of(alloc: Global, told: &[(u32, u32, u32)]) -> Result<Vec<Bin>, Memory> {
    let mut bins = Vec::new(alloc);
    for (times, item, count) in told {
        let count = Count {
            item: *item,
            form: 1,
            count: *count,
        };
        bins.push(Bin {
            bin_type: 1,
            times: *times,
            counts: Counts::new(Vec::from_slice(alloc, &[count])?),
        })?;
    }
    Ok(bins)
}

/// What the packing costs that the bins become.
fn mended_cost(
    alloc: Global,
    told: Told,
    bins: &[(u32, u32, u32)],
    below: u64,
) -> Result<Option<u128>, Memory> {
    let Some(instance) = instance_of(alloc, told)? else {
        return Ok(None);
    };
    let bins = bins_of(alloc, bins)?;
    match mend(alloc, &instance, bins.as_slice(), below)? {
        Some(packing) => Ok(Some(cost(&instance, &packing))),
        None => Ok(None),
    }
}

#[test]
fn bins_become_packings(rt: HostRuntime) -> Result<(), Fail> {
    let alloc = rt.alloc();
    // Gaps are filled, and the unit of 3 takes a small bin.
    assert_eq!(rt; mended_cost(alloc, TWO_TYPES, &[(2, 1, 1)], 100)?, Some(12));
    // Too many bins of one unit: those that are too much go.
    assert_eq!(rt;
        mended_cost(alloc, TWO_TYPES, &[(5, 1, 1), (1, 3, 9)], 100)?,
        Some(12)
    );
    // Nothing that keeps these bins costs less than 12.
    assert_eq!(rt; mended_cost(alloc, TWO_TYPES, &[(2, 1, 1)], 12)?, None);
    // No bin holds more than two units.
    assert_eq!(rt; mended_cost(alloc, CAPPED, &[(1, 1, 2)], 100)?, Some(3));
    Ok(())
}
