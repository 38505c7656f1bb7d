//! Bounds and certificates of worked instances.

use arc_num::{Listed, MAX_PRICE, Memory};
use bound_certificates::{
    BoundKind, FoundBound, bound_certificate, find_bound, found_bounds_are_accepted,
    material_prices, material_prices_close,
};
use cert_text::{Certificate, Claim, ItemPrice, Prices, TreeLine};
use packing_laws::{BinType, Instance, Item, Numbers, Vectors};
use std::alloc::Global;
use std::process::Abort;
use std::test::Fail;

fn bin_type(alloc: Global, cap: &[u32], cost: u32) -> Result<BinType, Memory> {
    Ok(BinType {
        cap: Numbers::new(Vec::from_slice(alloc, cap)?),
        cost,
        limit: None,
    })
}

fn item(alloc: Global, demand: u32, form: &[u32]) -> Result<Item, Memory> {
    let mut forms = Vectors::empty(alloc);
    forms.push(Numbers::new(Vec::from_slice(alloc, form)?))?;
    Ok(Item { demand, forms })
}

/// An instance in one dimension, from the capacities and costs of types, and the weights and demands of items.
fn plain(
    alloc: Global,
    types: &[(u32, u32)],
    items: &[(u32, u32)],
) -> Result<Option<Instance>, Memory> {
    let mut all_types = Vec::new(alloc);
    for (cap, cost) in types {
        all_types.push(bin_type(alloc, &[*cap], *cost)?)?;
    }
    let mut all_items = Vec::new(alloc);
    for (weight, demand) in items {
        all_items.push(item(alloc, *demand, &[*weight])?)?;
    }
    Ok(Instance::new(1, all_types, all_items))
}

/// A certificate of a bound that is its goal too, with one place of the tree.
fn certificate_of(alloc: Global, bound: u64, line: TreeLine) -> Result<Certificate, Memory> {
    let mut lines = Listed::empty(alloc);
    lines.push(line)?;
    Ok(Certificate {
        version: 3,
        claim: Claim::Bound(bound),
        goal: Some(bound),
        lines,
    })
}

/// A leaf with prices of items alone.
fn leaf(alloc: Global, scale: u64, items: &[(u32, u64)]) -> Result<TreeLine, Memory> {
    let mut prices = Listed::empty(alloc);
    for (item, price) in items {
        prices.push(ItemPrice {
            item: *item,
            price: *price,
        })?;
    }
    Ok(TreeLine::Leaf(Prices {
        scale,
        items: prices,
        arcs: Listed::empty(alloc),
    }))
}

fn expect(
    rt: &impl Abort,
    alloc: Global,
    instance: &Instance,
    bound: u64,
    line: TreeLine,
) -> Result<(), Memory> {
    let found = find_bound(instance);
    assert_eq!(rt; found.bound, bound);
    assert_eq!(rt;
        bound_certificate(alloc, instance, found)?,
        certificate_of(alloc, bound, line)?
    );
    Ok(())
}

#[test]
fn steps_of_one_type(rt: HostRuntime) -> Result<(), Fail> {
    let alloc = rt.alloc();
    let sixes = plain(alloc, &[(10, 1)], &[(6, 3)])?.ok_or("an instance")?;
    expect(&rt, alloc, &sixes, 3, TreeLine::Step { dim: 1, step: 5 })?;
    let halves = plain(alloc, &[(2, 3)], &[(1, 3)])?.ok_or("an instance")?;
    expect(&rt, alloc, &halves, 6, TreeLine::Step { dim: 1, step: 0 })?;
    let idle = plain(alloc, &[(10, 1)], &[(6, 0)])?.ok_or("an instance")?;
    expect(&rt, alloc, &idle, 0, TreeLine::Step { dim: 1, step: 0 })?;
    Ok(())
}

#[test]
fn material_of_two_types(rt: HostRuntime) -> Result<(), Fail> {
    let alloc = rt.alloc();
    let two = plain(alloc, &[(10, 1), (10, 5)], &[(6, 2)])?.ok_or("an instance")?;
    expect(&rt, alloc, &two, 2, leaf(alloc, 10, &[(1, 6)])?)?;
    let idle = plain(alloc, &[(10, 1), (10, 5)], &[(6, 0)])?.ok_or("an instance")?;
    expect(&rt, alloc, &idle, 0, leaf(alloc, 1, &[])?)?;
    let unasked = plain(alloc, &[(3, 2), (4, 3)], &[(1, 4), (9, 0)])?.ok_or("an instance")?;
    expect(&rt, alloc, &unasked, 3, leaf(alloc, 3, &[(1, 2), (2, 18)])?)?;
    Ok(())
}

#[test]
fn material_bound_is_cut(rt: HostRuntime) -> Result<(), Fail> {
    let alloc = rt.alloc();
    let most = 2_147_483_647;
    let homeless = plain(alloc, &[(1, most)], &[(most, 1_000_000)])?.ok_or("an instance")?;
    let found = find_bound(&homeless);
    assert_eq!(rt;
        found,
        FoundBound {
            bound: MAX_PRICE,
            kind: BoundKind::Material
        }
    );
    let line = leaf(alloc, 1, &[(1, 4_611_686_014_132_420_609)])?;
    expect(&rt, alloc, &homeless, MAX_PRICE, line)?;
    Ok(())
}

#[test]
fn weightless_items_are_not_listed(rt: HostRuntime) -> Result<(), Fail> {
    let alloc = rt.alloc();
    let types = vec![in alloc; bin_type(alloc, &[2, 9], 1)?]?;
    let items = vec![in alloc; item(alloc, 1, &[0, 1])?, item(alloc, 3, &[2, 1])?]?;
    let instance = Instance::new(2, types, items).ok_or("an instance")?;
    let prices = material_prices(alloc, &instance)?;
    assert_eq!(rt; TreeLine::Leaf(prices), leaf(alloc, 2, &[(2, 2)])?);
    Ok(())
}

#[test]
fn laws_can_be_called(_rt: HostRuntime) -> Result<(), Fail> {
    material_prices_close();
    found_bounds_are_accepted();
    Ok(())
}
