//! Instances and packings that are built from plain numbers.

ghost use Rattle.std.specs.Prelude.{◌≡◌, IfOk};

use arc_num::Memory;
use packing_laws::{Bin, BinType, Count, Counts, Instance, Item, ItemCap, Numbers, Vectors};
use std::alloc::Global;

/// Thirteen lengths with their demands. They are cut from bars of 5,600, of which 73 are the least number.
pub const CUTTING_LIST: [(u32, u32); 13] = [
    (1380, 22),
    (1520, 25),
    (1560, 12),
    (1710, 14),
    (1820, 18),
    (1880, 18),
    (1930, 20),
    (2000, 10),
    (2050, 12),
    (2100, 14),
    (2140, 16),
    (2150, 18),
    (2200, 20),
];

pub fn bin_type(
    alloc: Global,
    cap: &[u32],
    cost: u32,
    limit: Option<u32>,
) -> Result<BinType, Memory> {
    Ok(BinType {
        cap: Numbers::new(Vec::from_slice(alloc, cap)?),
        cost,
        limit,
    })
}

pub fn item(alloc: Global, demand: u32, forms: &[&[u32]]) -> Result<Item, Memory> {
    let mut all = Vectors::empty(alloc);
    for form in forms {
        all.push(Numbers::new(Vec::from_slice(alloc, form)?))?;
    }
    Ok(Item { demand, forms: all })
}

/// Items of one form in one dimension, each by its weight and its demand.
pub fn items(alloc: Global, listed: &[(u32, u32)]) -> Result<Vec<Item>, Memory> {
    let mut all = Vec::new(alloc);
    for (weight, demand) in listed {
        all.push(item(alloc, *demand, &[&[*weight]])?)?;
    }
    Ok(all)
}

/// Caps, each by its item and how many a bin may hold.
pub fn caps(alloc: Global, listed: &[(u32, u32)]) -> Result<Vec<ItemCap>, Memory> {
    let mut all = Vec::new(alloc);
    for (item, count) in listed {
        all.push(ItemCap {
            item: *item,
            count: *count,
        })?;
    }
    Ok(all)
}

/// An instance of one item, with a cap where it has one.
pub fn of_one_item(
    alloc: Global,
    dims: u32,
    types: Vec<BinType>,
    item: Item,
    cap: Option<u32>,
) -> Result<Option<Instance>, Memory> {
    let items = vec![in alloc; item]?;
    let caps = match cap {
        Some(count) => caps(alloc, &[(1, count)])?,
        None => Vec::new(alloc),
    };
    Ok(Instance::with_caps(dims, types, items, caps))
}

/// An instance of one type and one item with one form.
pub fn plain(
    alloc: Global,
    cap: &[u32],
    limit: Option<u32>,
    demand: u32,
    form: &[u32],
) -> Result<Option<Instance>, Memory> {
    let types = vec![in alloc; bin_type(alloc, cap, 1, limit)?]?;
    let items = vec![in alloc; item(alloc, demand, &[form])?]?;
    Ok(Instance::new(1, types, items))
}

/// An instance in one dimension of one type without limit.
pub fn of_one_type(
    alloc: Global,
    cap: u32,
    cost: u32,
    listed: &[(u32, u32)],
) -> Result<Option<Instance>, Memory> {
    let types = vec![in alloc; bin_type(alloc, &[cap], cost, None)?]?;
    Ok(Instance::new(1, types, items(alloc, listed)?))
}

/// Bins that hold so many units of items in their first form.
pub fn bin(alloc: Global, bin_type: u32, times: u32, units: &[(u32, u32)]) -> Result<Bin, Memory> {
    let mut counts = Vec::new(alloc);
    for (item, count) in units {
        counts.push(Count {
            item: *item,
            form: 1,
            count: *count,
        })?;
    }
    Ok(Bin {
        bin_type,
        times,
        counts: Counts::new(counts),
    })
}

pub fn count_of(item: u32, form: u32, count: u32) -> Count
    ensures { result ≡ record { item = item; form = form; count = count } }
{
    Count { item, form, count }
}

pub fn counted_bin(
    alloc: Global,
    bin_type: u32,
    times: u32,
    counts: &[Count],
) -> Result<Bin, Memory>
    ensures { IfOk result (λ b. b ≡ record { bin_type = bin_type; times = times; counts = counts.now }) }
{
    Ok(Bin {
        bin_type,
        times,
        counts: Counts::new(Vec::from_slice(alloc, counts)?),
    })
}

pub fn are_equal(left: &[Bin], right: &[Bin]) -> bool {
    if left.len() != right.len() {
        return false;
    }
    for (a, b) in left.iter().zip(right.iter()) {
        if a.bin_type != b.bin_type || a.times != b.times {
            return false;
        }
        if a.counts.as_slice() != b.counts.as_slice() {
            return false;
        }
    }
    true
}
