//! What a packing is, and what it costs.

use crate::tests::fixtures::{CUTTING_LIST, are_equal, bin, of_one_type, plain};
use arc_num::Memory;
use packing_laws::{
    Bin, Count, Counts, Packing, cost, empty_bins_can_go, fits, is_packing, packings_fit,
    units_apart, vector_fits,
};
use std::alloc::Global;
use std::test::Fail;

#[test]
fn units_of_six_apart(rt: HostRuntime) -> Result<(), Fail> {
    let alloc = rt.alloc();
    let instance = plain(alloc, &[10], None, 3, &[6])?.ok_or("an instance")?;
    let packing = units_apart(alloc, &instance)?.ok_or("a packing")?;
    let expected = vec![in alloc; bin(alloc, 1, 3, &[(1, 1)])?]?;
    assert!(rt; are_equal(packing.bins(), expected.as_slice()));
    assert_eq!(rt; cost(&instance, &packing), 3);
    Ok(())
}

#[test]
fn bins_of_types_that_do_not_exist(rt: HostRuntime) -> Result<(), Fail> {
    let alloc = rt.alloc();
    let instance = plain(alloc, &[10], None, 3, &[6])?.ok_or("an instance")?;
    let mut bins = Vec::new(alloc);
    for bin_type in [0, 1, 2] {
        bins.push(Bin {
            bin_type,
            times: 7,
            counts: Counts::new(Vec::new(alloc)),
        })?;
    }
    assert_eq!(rt; cost(&instance, &Packing::new(bins)), 7);
    Ok(())
}

/// How often bars of the cutting list are cut for which items, each once or twice, without one kind of bars.
const CUT_BARS: [(u32, &[(u32, u32)]); 9] = [
    (7, &[(1, 1), (10, 2)]),
    (3, &[(1, 1), (7, 1), (12, 1)]),
    (12, &[(1, 1), (9, 1), (12, 1)]),
    (8, &[(2, 1), (6, 1), (13, 1)]),
    (16, &[(2, 1), (7, 1), (11, 1)]),
    (12, &[(3, 1), (5, 1), (13, 1)]),
    (10, &[(4, 1), (6, 1), (8, 1)]),
    (2, &[(4, 2), (12, 1)]),
    (2, &[(5, 3)]),
];

/// Bars for the cutting list. Those of one more kind are to be cut so many times, where 1 is right.
fn cut_bars(alloc: Global, once: u32) -> Result<Packing, Memory> {
    let mut bins = Vec::new(alloc);
    for (times, units) in CUT_BARS {
        bins.push(bin(alloc, 1, times, units)?)?;
    }
    bins.push(bin(alloc, 1, once, &[(2, 1), (7, 1), (12, 1)])?)?;
    Ok(Packing::new(bins))
}

#[test]
fn seventy_three_bars(rt: HostRuntime) -> Result<(), Fail> {
    let instance = of_one_type(rt.alloc(), 5600, 1, &CUTTING_LIST)?.ok_or("an instance")?;
    for (once, expected) in [(0, false), (1, true), (2, false)] {
        let packing = cut_bars(rt.alloc(), once)?;
        assert_eq!(rt; is_packing(&instance, &packing), expected);
        assert_eq!(rt; cost(&instance, &packing), 72 + u128::from(once));
    }
    Ok(())
}

#[test]
fn bins_that_fit(rt: HostRuntime) -> Result<(), Fail> {
    for (cap, bin_type, item, form, expected) in [
        (33, 1, 1, 1, true),
        (32, 1, 1, 1, false),
        (33, 2, 1, 1, false),
        (33, 0, 1, 1, false),
        (33, 1, 2, 1, false),
        (33, 1, 1, 2, false),
        (33, 1, 1, 0, false),
    ] {
        let instance = plain(rt.alloc(), &[cap], None, 3, &[11])?.ok_or("an instance")?;
        let counts = vec![in rt.alloc();
            Count {
                item,
                form,
                count: 3
            },
        ]?;
        let bin = Bin {
            bin_type,
            times: 0,
            counts: Counts::new(counts),
        };
        assert_eq!(rt; fits(&instance, &bin), expected);
    }
    Ok(())
}

#[test]
fn limits_and_bins_that_are_not_used(rt: HostRuntime) -> Result<(), Fail> {
    let instance = plain(rt.alloc(), &[10], Some(1), 2, &[5])?.ok_or("an instance")?;
    for (times, count, idle, expected) in [(1, 2, 1, true), (2, 1, 1, false), (1, 2, 2, false)] {
        let bins = vec![in rt.alloc();
            bin(rt.alloc(), 1, times, &[(1, count)])?,
            bin(rt.alloc(), idle, 0, &[])?,
        ]?;
        assert_eq!(rt; is_packing(&instance, &Packing::new(bins)), expected);
    }
    Ok(())
}

#[test]
fn vectors_that_fit(rt: HostRuntime) {
    assert!(rt; vector_fits(&[3, 0], &[3, 3]));
    assert!(rt; !vector_fits(&[3, 4], &[3, 3]));
}

#[test]
fn laws_hold() {
    packings_fit();
    empty_bins_can_go();
}
