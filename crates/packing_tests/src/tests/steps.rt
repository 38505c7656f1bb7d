//! Bounds by step functions.

use crate::tests::fixtures::{CUTTING_LIST, bin_type, item, items, of_one_item, of_one_type};
use arc_num::Memory;
use packing_laws::Instance;
use std::alloc::Global;
use std::process::Abort;
use std::test::Fail;
use step_bounds::{
    StepFound, counts_keep_within, step_bound, step_rows_come_out, step_value,
    step_values_are_floors,
};

/// An instance of one type in two dimensions, and one item.
fn of_two_dims(
    alloc: Global,
    cap: &[u32],
    demand: u32,
    forms: &[&[u32]],
) -> Result<Option<Instance>, Memory> {
    let types = vec![in alloc; bin_type(alloc, cap, 1, None)?]?;
    let items = vec![in alloc; item(alloc, demand, forms)?]?;
    Ok(Instance::new(2, types, items))
}

fn expect_bound(rt: &impl Abort, instance: &Instance, value: u128, dim: u32, step: u32) {
    assert_eq!(rt; step_bound(instance), Some(StepFound { value, dim, step }));
    assert_eq!(rt; step_value(instance, dim, step), Some(value));
}

#[test]
fn three_units_of_six(rt: HostRuntime) -> Result<(), Fail> {
    let instance = of_one_type(rt.alloc(), 10, 1, &[(6, 3)])?.ok_or("an instance")?;
    expect_bound(&rt, &instance, 3, 1, 5);
    for (dim, step, value) in [
        (1, 0, Some(2)),
        (1, 4, Some(2)),
        (1, 6, None),
        (0, 0, None),
        (2, 0, None),
        (1, u32::MAX, None),
    ] {
        assert_eq!(rt; step_value(&instance, dim, step), value);
    }
    Ok(())
}

#[test]
fn bins_of_cost_three(rt: HostRuntime) -> Result<(), Fail> {
    let instance = of_one_type(rt.alloc(), 2, 3, &[(1, 3)])?.ok_or("an instance")?;
    expect_bound(&rt, &instance, 6, 1, 0);
    Ok(())
}

#[test]
fn cutting_list(rt: HostRuntime) -> Result<(), Fail> {
    let instance = of_one_type(rt.alloc(), 5600, 1, &CUTTING_LIST)?.ok_or("an instance")?;
    expect_bound(&rt, &instance, 73, 1, 0);
    Ok(())
}

#[test]
fn nothing_to_pack(rt: HostRuntime) -> Result<(), Fail> {
    let idle = of_one_type(rt.alloc(), 10, 1, &[(6, 0)])?.ok_or("an instance")?;
    expect_bound(&rt, &idle, 0, 1, 0);
    let empty = of_one_type(rt.alloc(), 10, 1, &[])?.ok_or("an instance")?;
    expect_bound(&rt, &empty, 0, 1, 0);
    let no_room = of_one_type(rt.alloc(), 0, 1, &[(1, 4)])?.ok_or("an instance")?;
    expect_bound(&rt, &no_room, 0, 1, 0);
    assert_eq!(rt; step_value(&no_room, 1, 1), None);
    Ok(())
}

#[test]
fn first_dimension_of_the_greatest_value(rt: HostRuntime) -> Result<(), Fail> {
    let both = of_two_dims(rt.alloc(), &[10, 10], 3, &[&[6, 7]])?.ok_or("an instance")?;
    expect_bound(&rt, &both, 3, 1, 5);
    let second = of_two_dims(rt.alloc(), &[10, 10], 3, &[&[5, 6]])?.ok_or("an instance")?;
    expect_bound(&rt, &second, 3, 2, 5);
    Ok(())
}

#[test]
fn least_of_the_forms_counts(rt: HostRuntime) -> Result<(), Fail> {
    let instance = of_two_dims(rt.alloc(), &[9, 9], 4, &[&[7, 1], &[1, 7]])?.ok_or("an instance")?;
    expect_bound(&rt, &instance, 1, 1, 0);
    Ok(())
}

#[test]
fn two_types(rt: HostRuntime) -> Result<(), Fail> {
    let alloc = rt.alloc();
    let types = vec![in alloc;
        bin_type(alloc, &[10], 1, None)?,
        bin_type(alloc, &[9], 1, None)?,
    ]?;
    let items = items(alloc, &[(6, 3)])?;
    let instance = Instance::new(1, types, items).ok_or("an instance")?;
    assert_eq!(rt; step_bound(&instance), None);
    assert_eq!(rt; step_value(&instance, 1, 0), None);
    Ok(())
}

#[test]
fn laws_can_be_called(_rt: HostRuntime) -> Result<(), Fail> {
    step_values_are_floors();
    counts_keep_within();
    step_rows_come_out();
    Ok(())
}
