//! Packings by first fit, and how good they are.

use crate::tests::fixtures::{CUTTING_LIST, bin_type, caps, items};
use arc_num::Memory;
use first_fit::first_fit;
use packing_laws::{Instance, cost, is_packing, single_cost};
use std::alloc::Global;
use std::test::Fail;

/// An instance in one dimension: capacities, costs and limits of the types, weights and demands of the items, and
/// the cap of the first item, if it has one.
fn instance_of(
    alloc: Global,
    types: &[(u32, u32, Option<u32>)],
    listed: &[(u32, u32)],
    cap: Option<u32>,
) -> Result<Option<Instance>, Memory> {
    let mut all = Vec::new(alloc);
    for (cap, cost, limit) in types {
        all.push(bin_type(alloc, &[*cap], *cost, *limit)?)?;
    }
    let caps = match cap {
        Some(count) => caps(alloc, &[(1, count)])?,
        None => Vec::new(alloc),
    };
    Ok(Instance::with_caps(1, all, items(alloc, listed)?, caps))
}

/// What the first packing costs. None where there is none.
fn first_cost(
    alloc: Global,
    types: &[(u32, u32, Option<u32>)],
    items: &[(u32, u32)],
) -> Result<Option<u128>, Memory> {
    let Some(instance) = instance_of(alloc, types, items, None)? else {
        return Ok(None);
    };
    match first_fit(alloc, &instance)? {
        Some(packing) if is_packing(&instance, &packing) => Ok(Some(cost(&instance, &packing))),
        _ => Ok(None),
    }
}

#[test]
fn one_type_with_a_limit(rt: HostRuntime) -> Result<(), Fail> {
    let types = [(10, 1, Some(1))];
    let instance = instance_of(rt.alloc(), &types, &[(6, 2)], None)?.ok_or("an instance")?;
    assert_eq!(rt; single_cost(&instance), None);
    assert!(rt; first_fit(rt.alloc(), &instance)?.is_none());
    Ok(())
}

#[test]
fn a_limited_type_and_a_dear_one(rt: HostRuntime) -> Result<(), Fail> {
    let types = [(10, 1, Some(1)), (10, 5, None)];
    assert_eq!(rt; first_cost(rt.alloc(), &types, &[(6, 2)])?, Some(6));
    Ok(())
}

/// Each bin is full, so a unit that fits exactly has gone in.
#[test]
fn two_full_bins(rt: HostRuntime) -> Result<(), Fail> {
    let types = [(10, 1, None)];
    assert_eq!(rt; first_cost(rt.alloc(), &types, &[(4, 2), (3, 4)])?, Some(2));
    Ok(())
}

/// A greedy packing that costs just as much as a bin for each unit is taken: here both cost nothing.
#[test]
fn two_units_in_a_free_bin(rt: HostRuntime) -> Result<(), Fail> {
    let instance = instance_of(rt.alloc(), &[(10, 0, None)], &[(5, 2)], None)?.ok_or(
        "an instance",
    )?;
    let packing = first_fit(rt.alloc(), &instance)?.ok_or("a packing")?;
    assert!(rt; is_packing(&instance, &packing));
    assert_eq!(rt; packing.bins().len(), 1);
    assert_eq!(rt; packing.bins()[0].times, 1);
    Ok(())
}

/// Bins of 4 that cost 1 hold more for their cost than bins of 10 that cost 3.
#[test]
fn the_better_type_first(rt: HostRuntime) -> Result<(), Fail> {
    let types = [(10, 3, None), (4, 1, Some(2))];
    assert_eq!(rt; first_cost(rt.alloc(), &types, &[(4, 4)])?, Some(5));
    Ok(())
}

/// A 6 goes with two 2, and not with a 3, which would fill its bin less.
#[test]
fn the_better_filling_first(rt: HostRuntime) -> Result<(), Fail> {
    let types = [(10, 1, None)];
    assert_eq!(rt;
        first_cost(rt.alloc(), &types, &[(6, 1), (3, 2), (2, 4)])?,
        Some(2)
    );
    Ok(())
}

/// Eight larger items are packed first. Then those that are left are filled as well as if they were alone.
#[test]
fn eight_full_bins_before(rt: HostRuntime) -> Result<(), Fail> {
    let types = [(10, 1, None)];
    let items = [
        (10, 1),
        (10, 1),
        (10, 1),
        (10, 1),
        (10, 1),
        (10, 1),
        (10, 1),
        (10, 1),
        (6, 1),
        (3, 2),
        (2, 4),
    ];
    assert_eq!(rt; first_cost(rt.alloc(), &types, &items)?, Some(10));
    Ok(())
}

/// Lengths that are cut from bars of 5,600: the least number of bars is 73.
#[test]
fn cutting_list_of_thirteen_widths(rt: HostRuntime) -> Result<(), Fail> {
    let cost = first_cost(rt.alloc(), &[(5600, 1, None)], &CUTTING_LIST)?.ok_or("a packing")?;
    assert!(rt; cost <= 75);
    Ok(())
}

#[test]
fn a_million_of_each(rt: HostRuntime) -> Result<(), Fail> {
    let items = [(7, 1_000_000), (5, 1_000_000), (3, 1_000_000)];
    let types = [(10, 3, None), (5, 1, Some(600_000))];
    assert_eq!(rt; first_cost(rt.alloc(), &types, &items)?, Some(4_200_000));
    Ok(())
}

/// There is room for five units in a bin, but no more than two go in.
#[test]
fn two_of_an_item_a_bin(rt: HostRuntime) -> Result<(), Fail> {
    let instance = instance_of(rt.alloc(), &[(10, 1, None)], &[(2, 4)], Some(2))?.ok_or(
        "an instance",
    )?;
    let packing = first_fit(rt.alloc(), &instance)?.ok_or("a packing")?;
    assert!(rt; is_packing(&instance, &packing));
    assert_eq!(rt; packing.bins().len(), 1);
    assert_eq!(rt;
        (packing.bins()[0].bin_type, packing.bins()[0].times),
        (1, 2)
    );
    Ok(())
}
