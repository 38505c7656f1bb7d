//! Prices of drafts, and the test that makes them valid.

ghost use Rattle.std.specs.Prelude.{◌≡◌, ◌+◌, ◌<◌, ◌≤◌, IfOk, IsTrue, length, unsigned_abs};
ghost use Rattle.packing_laws.specs.Floors.{material_of};
ghost use Rattle.flow_graph.specs.Arcs.{numbered};
ghost use Rattle.flow_graph.specs.Faithful.{GraphOf, IsFaithful};
ghost use Rattle.cert_text.specs.Lines.{ArePrices, IsBetween, IsClaim};
ghost use Rattle.cert_text.specs.declared.lines.Claim.TheVariants.{Bound};
ghost use Rattle.cert_laws.specs.Shown.{Closes};
ghost use Rattle.path_prices.specs.Scratches.{IsScratchOf, NamesAmong};
ghost use Rattle.column_master.specs.NodePrices.{AreClosing, ArePricesOf};
ghost use Rattle.column_master.specs.inner.Listings.{AreListed};

use crate::drafts::Draft;
use crate::generator::lay;
use arc_num::{Listed, MAX_ITEMS, MAX_NUMBERED, MAX_PRICE, Memory};
use bound_certificates::{material_prices, material_prices_close};
use cert_text::{ArcPrice, Claim, ItemPrice, Prices};
use flow_graph::FlowGraph;
use flow_model::FlowBox;
use leaf_check::check_leaf;
use packing_laws::{Instance, material_bound};
use path_prices::Scratch;
use std::alloc::Global;

/// The greatest price that a line can tell.
const MOST: i64 = 1 << 62;

/// The prices of a draft where they close the box for the material bound, and else the material prices.
pub(crate) fn valid_prices(
    alloc: Global,
    instance: &Instance,
    graph: &FlowGraph,
    ranges: &FlowBox,
    draft: Option<&Draft>,
    scratch: &mut Scratch,
) -> Result<Prices, Memory>
    requires graph { IsFaithful instance.now graph.now }
    requires ranges { length ranges.now ≡ length (numbered graph.now) }
    requires items { scratch.old.items ≡ length instance.now.items }
    requires scratch { IsScratchOf graph.now scratch.old }
    ensures valid { IfOk result (ArePricesOf instance.now graph.now ranges.now) }
    ensures same { scratch.new ≡ scratch.old }
{
    if let Some(draft) = draft {
        let prices = prices_of(alloc, instance, graph, draft)?;
        if close_for_material(instance, graph, ranges, &prices, scratch) {
            return Ok(prices);
        }
    }
    known_prices(alloc, instance, graph, ranges)
}

/// The material prices, which close the box.
fn known_prices(
    alloc: Global,
    instance: &Instance,
    graph: &FlowGraph,
    ranges: &FlowBox,
) -> Result<Prices, Memory>
    requires { IsFaithful instance.now graph.now }
    ensures { IfOk result (ArePricesOf instance.now graph.now ranges.now) }
{
    let _ranges = ranges;
    material_prices_close();
    instance.known();
    graph.known();
    let prices = material_prices(alloc, instance)?;
    Ok(prices)
}

/// Whether no bin gains more than it costs, and the prices are worth enough for the material bound.
fn close_for_material(
    instance: &Instance,
    graph: &FlowGraph,
    ranges: &FlowBox,
    prices: &Prices,
    scratch: &mut Scratch,
) -> bool
    requires graph { GraphOf instance.now graph.now }
    requires ranges { length ranges.now ≡ length (numbered graph.now) }
    requires prices { ArePrices prices.now }
    requires names { NamesAmong (length instance.now.items) (length (numbered graph.now)) prices.now }
    requires items { scratch.old.items ≡ length instance.now.items }
    requires scratch { IsScratchOf graph.now scratch.old }
    ensures value { IsTrue result → Closes instance.now graph.now prices.now ranges.now (Bound (material_of instance.now)) }
    ensures same { scratch.new ≡ scratch.old }
{
    let material = material_bound(instance);
    if material > u128::from(MAX_PRICE) {
        return false;
    }
    let claim = Claim::Bound(material as u64);
    check_leaf(instance, graph, ranges, &claim, prices, scratch).is_none()
}

/// The prices of a draft where they close the box for the claim, and else the given ones.
pub(crate) fn closing_prices(
    alloc: Global,
    instance: &Instance,
    graph: &FlowGraph,
    ranges: &FlowBox,
    claim: &Claim,
    draft: Option<&Draft>,
    given: Prices,
    scratch: &mut Scratch,
) -> Result<Prices, Memory>
    requires graph { GraphOf instance.now graph.now }
    requires ranges { length ranges.now ≡ length (numbered graph.now) }
    requires claim { IsClaim claim.now }
    requires given { AreClosing instance.now graph.now ranges.now claim.now given }
    requires items { scratch.old.items ≡ length instance.now.items }
    requires scratch { IsScratchOf graph.now scratch.old }
    ensures closing { IfOk result (AreClosing instance.now graph.now ranges.now claim.now) }
    ensures same { scratch.new ≡ scratch.old }
{
    if let Some(draft) = draft {
        let prices = prices_of(alloc, instance, graph, draft)?;
        if check_leaf(instance, graph, ranges, claim, &prices, scratch).is_none() {
            return Ok(prices);
        }
    }
    Ok(given)
}

/// The prices of a draft, those of each arc added up. What no line can tell has no price.
fn prices_of(
    alloc: Global,
    instance: &Instance,
    graph: &FlowGraph,
    draft: &Draft,
) -> Result<Prices, Memory>
    ensures prices { IfOk result ArePrices }
    ensures names { IfOk result (NamesAmong (length instance.now.items) (length (numbered graph.now))) }
{
    let items = of_items(draft.items.as_slice(), instance.item_count() as usize);
    let mut own = vec![in alloc; 0; graph.arc_count() as usize]?;
    lay(own.as_mut_slice(), draft.arcs.as_slice());
    Ok(Prices {
        scale: told_scale(draft.scale),
        items: listed_items(alloc, items)?,
        arcs: listed_arcs(alloc, own.as_slice())?,
    })
}

/// The prices of so many items, from the first on.
fn of_items(prices: &[i64], count: usize) -> &[i64]
    ensures { length result.now ≤ count }
{
    if prices.len() > count && count > 0 {
        &prices[1..count + 1]
    } else {
        [].as_slice()
    }
}

fn told_scale(scale: i64) -> u64
    ensures { result ≤ MAX_PRICE }
{
    scale.clamp(0, MOST) as u64
}

/// The items that have a price.
fn listed_items(alloc: Global, prices: &[i64]) -> Result<Listed<ItemPrice>, Memory>
    requires { length prices.now ≤ MAX_ITEMS }
    ensures { IfOk result (AreListed (λ x. x.item) (λ x. IsBetween 1 MAX_PRICE x.price) (length prices.now)) }
{
    let mut listed = Listed::empty(alloc);
    for index in 0..prices.len() {
        list_item(&mut listed, index, prices[index])?;
    }
    Ok(listed)
}

/// Lists the next item where it has a price.
fn list_item(listed: &mut Listed<ItemPrice>, index: usize, price: i64) -> Result<(), Memory>
    requires small { index < MAX_ITEMS }
    requires before { AreListed (λ x. x.item) (λ x. IsBetween 1 MAX_PRICE x.price) index listed.old }
    ensures { IfOk result (λ _. AreListed (λ x. x.item) (λ x. IsBetween 1 MAX_PRICE x.price) (index + 1) listed.new) }
{
    if price < 1 || price > MOST {
        return Ok(());
    }
    listed.push(ItemPrice {
        item: index as u32 + 1,
        price: price as u64,
    })?;
    Ok(())
}

/// The arcs that have a price of their own.
fn listed_arcs(alloc: Global, prices: &[i64]) -> Result<Listed<ArcPrice>, Memory>
    requires { length prices.now ≤ MAX_NUMBERED }
    ensures { IfOk result (AreListed (λ x. x.arc) (λ x. IsBetween 1 MAX_PRICE (unsigned_abs x.price)) (length prices.now)) }
{
    let mut listed = Listed::empty(alloc);
    for index in 0..prices.len() {
        list_arc(&mut listed, index, prices[index])?;
    }
    Ok(listed)
}

/// Lists the next arc where it has a price.
fn list_arc(listed: &mut Listed<ArcPrice>, index: usize, price: i64) -> Result<(), Memory>
    requires small { index < MAX_NUMBERED }
    requires before { AreListed (λ x. x.arc) (λ x. IsBetween 1 MAX_PRICE (unsigned_abs x.price)) index listed.old }
    ensures { IfOk result (λ _. AreListed (λ x. x.arc) (λ x. IsBetween 1 MAX_PRICE (unsigned_abs x.price)) (index + 1) listed.new) }
{
    let size = price.unsigned_abs();
    if size == 0 || size > MAX_PRICE {
        return Ok(());
    }
    listed.push(ArcPrice {
        arc: index as u32 + 1,
        price,
    })?;
    Ok(())
}
