//! What seeds give, by a calculation outside.
use crate::generated;
use arc_num::MAX_ITEMS;
use std::alloc::Global;
use std::test::Fail;

/// The weight and the demand of the item at this place, from 0, where it exists and weighs in one dimension.
fn told(alloc: Global, seed: u64, size: u32, place: usize) -> Option<(u32, u32)> {
    if size > MAX_ITEMS {
        return None;
    }
    let instance = generated(alloc, seed, size).ok()?;
    let item = instance.items().get(place)?;
    let form = item.forms.as_slice().first()?;
    let weight = form.as_slice().first()?;
    Some((*weight, item.demand))
}

#[test]
fn seeds_give_items(rt: HostRuntime) -> Result<(), Fail> {
    for (seed, size, place, item) in [
        (1, 1, 0, Some((2_356, 39))),
        (1, 1, 1, None),
        (1, 1_000, 1, Some((3_609, 5))),
        (1, 1_000, 2, Some((2_356, 21))),
        (u64::MAX, 3, 0, Some((4_166, 23))),
    ] {
        assert_eq!(rt; told(rt.alloc(), seed, size, place), item);
    }
    Ok(())
}
