//! Items of which a bin holds no more than so many.

use crate::tests::fixtures::{
    are_equal, bin, bin_type, caps, count_of, counted_bin, item, items, of_one_item,
};
use crate::tests::floors::expect_floors;
use crate::tests::joined::join_tidied;
use arc_num::Memory;
use packing_laws::{Instance, Packing, fits, is_packing, units_apart};
use std::alloc::Global;
use std::test::Fail;

/// An instance of three items, the caps of which are given.
fn three_items(alloc: Global, given: &[(u32, u32)]) -> Result<Option<Instance>, Memory> {
    let types = vec![in alloc; bin_type(alloc, &[10], 1, None)?]?;
    let items = items(alloc, &[(2, 4), (3, 1), (4, 1)])?;
    Ok(Instance::with_caps(1, types, items, caps(alloc, given)?))
}

#[test]
fn caps_of_items(rt: HostRuntime) -> Result<(), Fail> {
    let instance = three_items(rt.alloc(), &[(1, 2), (3, 1_000_000)])?.ok_or("an instance")?;
    assert_eq!(rt; instance.cap_count(), 2);
    assert_eq!(rt; instance.caps()[1].item, 3);
    for (item, cap) in [
        (0, None),
        (1, Some(2)),
        (2, None),
        (3, Some(1_000_000)),
        (4, None),
    ] {
        assert_eq!(rt; instance.cap_of(item), cap);
    }
    Ok(())
}

#[test]
fn caps_outside_the_limits(rt: HostRuntime) -> Result<(), Fail> {
    for caps in [
        [(0, 1)].as_slice(),
        [(4, 1)].as_slice(),
        [(1, 0)].as_slice(),
        [(1, 1_000_001)].as_slice(),
        [(1, 1), (1, 1)].as_slice(),
        [(2, 1), (1, 1)].as_slice(),
    ] {
        assert!(rt; three_items(rt.alloc(), caps)?.is_none());
    }
    Ok(())
}

/// So many times the number 1.
fn ones(alloc: Global, dims: u32) -> Result<Vec<u32>, Memory> {
    let mut numbers = Vec::new(alloc);
    for _place in 0..dims {
        numbers.push(1)?;
    }
    Ok(numbers)
}

#[test]
fn dimensions_and_caps_together(rt: HostRuntime) -> Result<(), Fail> {
    let alloc = rt.alloc();
    for (dims, cap, expected) in [
        (31, Some(1), true),
        (32, None, true),
        (32, Some(1), false),
        (33, None, false),
        (0, None, false),
    ] {
        let numbers = ones(alloc, dims)?;
        let types = vec![in alloc; bin_type(alloc, numbers.as_slice(), 1, None)?]?;
        let unit = item(alloc, 1, &[numbers.as_slice()])?;
        assert_eq!(rt;
            of_one_item(alloc, dims, types, unit, cap)?.is_some(),
            expected
        );
    }
    Ok(())
}

/// An item of two forms, of which a bin holds three units at most, though there is room for ten.
fn three_of_two_forms(alloc: Global) -> Result<Option<Instance>, Memory> {
    let types = vec![in alloc; bin_type(alloc, &[10], 1, None)?]?;
    of_one_item(alloc, 1, types, item(alloc, 7, &[&[1], &[1]])?, Some(3))
}

#[test]
fn a_cap_counts_all_forms(rt: HostRuntime) -> Result<(), Fail> {
    let alloc = rt.alloc();
    let instance = three_of_two_forms(alloc)?.ok_or("an instance")?;
    for (second, times, each, expected) in [(1, 2, 2, true), (2, 1, 3, false)] {
        let bin = counted_bin(alloc, 1, 1, &[count_of(1, 1, 2), count_of(1, 2, second)])?;
        assert_eq!(rt; fits(&instance, &bin), expected);
        let rest = counted_bin(alloc, 1, times, &[count_of(1, 1, each)])?;
        let packing = Packing::new(vec![in alloc; bin, rest]?);
        assert_eq!(rt; is_packing(&instance, &packing), expected);
    }
    Ok(())
}

#[test]
fn a_cap_keeps_bins_apart(rt: HostRuntime) -> Result<(), Fail> {
    let alloc = rt.alloc();
    let instance = three_of_two_forms(alloc)?.ok_or("an instance")?;
    expect_floors(&rt, &instance, 1, Some(7), None);
    let mut packing = units_apart(alloc, &instance)?.ok_or("a packing")?;
    assert!(rt; join_tidied(&instance, &mut packing)?);
    let expected = vec![in alloc; bin(alloc, 1, 2, &[(1, 2)])?, bin(alloc, 1, 1, &[(1, 3)])?]?;
    assert!(rt; are_equal(packing.bins(), expected.as_slice()));
    Ok(())
}
