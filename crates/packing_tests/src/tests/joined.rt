//! Packings in their printed form, and with their bins joined.

use crate::tests::fixtures::{
    are_equal, bin, bin_type, count_of, counted_bin, item, of_one_item, plain,
};
use arc_num::Memory;
use packing_laws::{Instance, Packing, is_packing, join_bins, packings_fit, tidy};
use std::test::Fail;

#[test]
fn two_alike_and_an_empty_one(rt: HostRuntime) -> Result<(), Fail> {
    let alloc = rt.alloc();
    let bins = vec![in alloc;
        counted_bin(alloc, 1, 1, &[count_of(1, 1, 1)])?,
        counted_bin(alloc, 1, 1, &[])?,
        counted_bin(alloc, 1, 1, &[count_of(1, 1, 1)])?,
    ]?;
    let mut packing = Packing::new(bins);
    tidy(&mut packing)?;
    let expected = vec![in alloc; counted_bin(alloc, 1, 2, &[count_of(1, 1, 1)])?]?;
    assert!(rt; are_equal(packing.bins(), expected.as_slice()));
    Ok(())
}

#[test]
fn counts_and_bins_out_of_order(rt: HostRuntime) -> Result<(), Fail> {
    let alloc = rt.alloc();
    let mixed = [
        count_of(2, 1, 1),
        count_of(1, 1, 2),
        count_of(2, 1, 1),
        count_of(1, 2, 0),
    ];
    let bins = vec![in alloc;
        counted_bin(alloc, 2, 1, &mixed)?,
        counted_bin(alloc, 1, 3, &[count_of(1, 1, 1)])?,
        counted_bin(alloc, 1, 0, &[count_of(1, 1, 5)])?,
    ]?;
    let mut packing = Packing::new(bins);
    tidy(&mut packing)?;
    let expected = vec![in alloc;
        counted_bin(alloc, 1, 3, &[count_of(1, 1, 1)])?,
        counted_bin(alloc, 2, 1, &[count_of(1, 1, 2), count_of(2, 1, 2)])?,
    ]?;
    assert!(rt; are_equal(packing.bins(), expected.as_slice()));
    Ok(())
}

/// Tidies a packing and joins its bins. False where it is none.
pub fn join_tidied(instance: &Instance, packing: &mut Packing) -> Result<bool, Memory> {
    instance.known();
    packings_fit();
    if is_packing(instance, packing) {
        tidy(packing)?;
        join_bins(instance, packing)?;
        Ok(true)
    } else {
        Ok(false)
    }
}

#[test]
fn bins_joined_with_their_like(rt: HostRuntime) -> Result<(), Fail> {
    let alloc = rt.alloc();
    let pair = bin(alloc, 1, 1, &[(1, 2)])?;
    let pairs = bin(alloc, 1, 2, &[(1, 2)])?;
    let single = bin(alloc, 1, 1, &[(1, 1)])?;
    for (times, expected) in [
        (2, vec![in alloc; pair]?),
        (5, vec![in alloc; single, pairs]?),
    ] {
        let instance = plain(alloc, &[10], None, times, &[5])?.ok_or("an instance")?;
        let mut packing = Packing::new(vec![in alloc; bin(alloc, 1, times, &[(1, 1)])?]?);
        assert!(rt; join_tidied(&instance, &mut packing)?);
        assert!(rt; are_equal(packing.bins(), expected.as_slice()));
    }
    Ok(())
}

#[test]
fn bins_of_two_types_joined_in_the_cheaper(rt: HostRuntime) -> Result<(), Fail> {
    let alloc = rt.alloc();
    let types = vec![in alloc;
        bin_type(alloc, &[10], 3, None)?,
        bin_type(alloc, &[12], 2, None)?,
    ]?;
    let five = item(alloc, 2, &[&[5]])?;
    let instance = of_one_item(alloc, 1, types, five, None)?.ok_or("an instance")?;
    let bins = vec![in alloc; bin(alloc, 1, 1, &[(1, 1)])?, bin(alloc, 2, 1, &[(1, 1)])?]?;
    let mut packing = Packing::new(bins);
    assert!(rt; join_tidied(&instance, &mut packing)?);
    let expected = vec![in alloc; bin(alloc, 2, 1, &[(1, 2)])?]?;
    assert!(rt; are_equal(packing.bins(), expected.as_slice()));
    Ok(())
}
