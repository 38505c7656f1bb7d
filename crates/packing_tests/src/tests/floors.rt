//! Instances, and the bounds that need nothing but them.

use crate::tests::fixtures::{bin_type, item, of_one_item, of_one_type, plain};
use arc_num::Memory;
use packing_laws::{
    Instance, best_type_gives_floor, floors_come_out, homeless_item, material_bound,
    material_is_floor, material_source, no_place_no_packing, single_cost, single_is_reached,
    units_apart,
};
use std::process::Abort;
use std::test::Fail;

pub fn expect_floors(
    rt: &impl Abort,
    instance: &Instance,
    material: u128,
    single: Option<u128>,
    homeless: Option<u32>,
) {
    assert_eq!(rt; material_bound(instance), material);
    assert_eq!(rt; single_cost(instance), single);
    assert_eq!(rt; homeless_item(instance), homeless);
}

fn needs_send<T: Send + Sync>(_shared: &T) {}

fn cost_of_type(instance: &Instance, t: u32) -> Option<u32> {
    match instance.bin_type(t) {
        Some(bin_type) => Some(bin_type.cost),
        None => None,
    }
}

fn demand_of_item(instance: &Instance, i: u32) -> Option<u32> {
    match instance.item(i) {
        Some(item) => Some(item.demand),
        None => None,
    }
}

#[test]
fn three_units_of_six(rt: HostRuntime) -> Result<(), Fail> {
    let instance = plain(rt.alloc(), &[10], None, 3, &[6])?.ok_or("an instance")?;
    expect_floors(&rt, &instance, 2, Some(3), None);
    needs_send(&instance);
    instance.known();
    let counts = (
        instance.dims(),
        instance.type_count(),
        instance.item_count(),
    );
    assert_eq!(rt; counts, (1, 1, 1));
    assert_eq!(rt; instance.units(), 3);
    assert_eq!(rt; (instance.types().len(), instance.items().len()), (1, 1));
    for (number, cost, demand) in [(0, None, None), (1, Some(1), Some(3)), (2, None, None)] {
        assert_eq!(rt; cost_of_type(&instance, number), cost);
        assert_eq!(rt; demand_of_item(&instance, number), demand);
    }
    Ok(())
}

#[test]
fn one_item_without_place(rt: HostRuntime) -> Result<(), Fail> {
    let instance = plain(rt.alloc(), &[10], None, 1, &[11])?.ok_or("an instance")?;
    expect_floors(&rt, &instance, 2, None, Some(1));
    assert!(rt; units_apart(rt.alloc(), &instance)?.is_none());
    let idle = plain(rt.alloc(), &[10], None, 0, &[11])?.ok_or("an instance")?;
    expect_floors(&rt, &idle, 0, Some(0), None);
    let limited = plain(rt.alloc(), &[10], Some(1), 2, &[6])?.ok_or("an instance")?;
    expect_floors(&rt, &limited, 2, None, None);
    Ok(())
}

#[test]
fn numbers_outside_the_limits(rt: HostRuntime) -> Result<(), Fail> {
    for (cap, limit, demand, form) in [
        (10, None, 1, 0),
        (2_147_483_648, None, 1, 6),
        (10, Some(2_147_483_648), 1, 6),
        (10, None, 1_000_001, 6),
    ] {
        assert!(rt; plain(rt.alloc(), &[cap], limit, demand, &[form])?.is_none());
    }
    assert!(rt; plain(rt.alloc(), &[10], None, 1, &[6, 6])?.is_none());
    assert!(rt; plain(rt.alloc(), &[10, 10], None, 1, &[6])?.is_none());
    Ok(())
}

#[test]
fn no_items(rt: HostRuntime) -> Result<(), Fail> {
    let instance = of_one_type(rt.alloc(), 10, 1, &[])?.ok_or("an instance")?;
    expect_floors(&rt, &instance, 0, Some(0), None);
    Ok(())
}

#[test]
fn a_limited_type_and_a_dear_one(rt: HostRuntime) -> Result<(), Fail> {
    let alloc = rt.alloc();
    let types = vec![in alloc;
        bin_type(alloc, &[10], 1, Some(1))?,
        bin_type(alloc, &[10], 5, None)?,
    ]?;
    let six = item(alloc, 2, &[&[6]])?;
    let instance = of_one_item(alloc, 1, types, six, None)?.ok_or("an instance")?;
    expect_floors(&rt, &instance, 2, Some(10), None);
    Ok(())
}

#[test]
fn two_forms_in_two_dimensions(rt: HostRuntime) -> Result<(), Fail> {
    let alloc = rt.alloc();
    let types = vec![in alloc; bin_type(alloc, &[3, 3], 1, None)?]?;
    let turned = item(alloc, 2, &[&[3, 0], &[0, 3]])?;
    let instance = of_one_item(alloc, 2, types, turned, None)?.ok_or("an instance")?;
    expect_floors(&rt, &instance, 0, Some(2), None);
    Ok(())
}

fn source_of(instance: &Instance) -> Option<(u32, u32)> {
    match material_source(instance) {
        Some(source) => Some((source.dim, source.bin_type)),
        None => None,
    }
}

#[test]
fn sources_of_material_bounds(rt: HostRuntime) -> Result<(), Fail> {
    let alloc = rt.alloc();
    for (first, second, form, expected) in [
        ((10, 10, 1), (10, 20, 1), (1, 9), Some((2, 2))),
        ((10, 10, 1), (20, 20, 2), (3, 3), Some((1, 1))),
        ((0, 10, 1), (5, 10, 9), (3, 2), Some((1, 2))),
        ((10, 10, 1), (10, 10, 0), (3, 3), None),
    ] {
        let types = vec![in alloc;
            bin_type(alloc, &[first.0, first.1], first.2, None)?,
            bin_type(alloc, &[second.0, second.1], second.2, None)?,
        ]?;
        let ten = item(alloc, 10, &[&[form.0, form.1]])?;
        let instance = of_one_item(alloc, 2, types, ten, None)?.ok_or("an instance")?;
        assert_eq!(rt; source_of(&instance), expected);
    }
    Ok(())
}

#[test]
fn laws_hold() {
    material_is_floor();
    best_type_gives_floor();
    no_place_no_packing();
    single_is_reached();
    floors_come_out();
}
