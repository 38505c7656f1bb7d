//! What prices are worth in a box, and for which claims that is enough.

ghost use Rattle.std.specs.Prelude.{◌≡◌, ◌↔◌, ℕ, ◌+◌, ◌-◌, ◌*◌, ◌^◌, ◌<◌, ◌≤◌, pos, ◌-ℤ◌, ◌*ℤ◌, List, All, IsTrue, length, map, slice_index_or, sum_by, unsigned_abs};
ghost use Rattle.packing_laws.specs.Instances.{IsAmong};
ghost use Rattle.flow_graph.specs.Chords.{range_at};
ghost use Rattle.cert_text.specs.Lines.{ArePrices, IsBetween, IsClaim};
ghost use Rattle.path_prices.specs.Scratches.{NamesAmong};
ghost use Rattle.path_prices.specs.Worth.{IsEnough, arcs_worth, least_worth, worth_of};
ghost use Rattle.path_prices.specs.inner.Tables.{IsWithin};

use crate::products::{product, signed_product};
use arc_num::{MAX_DEMAND, MAX_ITEMS, MAX_NUMBERED, MAX_PRICE};
use cert_text::{ArcPrice, Claim, ItemPrice, Prices};
use flow_model::FlowBox;
use packing_laws::Instance;

/// What every flow in the box that meets the demands costs at least at the prices: the dual bound, in units of their
/// scale.
pub fn worth(instance: &Instance, ranges: &FlowBox, prices: &Prices) -> i128
    requires prices { ArePrices prices.now }
    requires known { NamesAmong (length instance.now.items) (length ranges.now) prices.now }
    ensures { result ≡ worth_of (map (λ x. x.demand) instance.now.items) ranges.now prices.now }
{
    let items = items_worth(instance, prices.items.as_slice());
    let arcs = arcs_worth(ranges, prices.arcs.as_slice());
    items + arcs
}

/// Whether a worth, in units of one part in a scale of a cost, is enough for a claim.
pub fn is_enough(claim: &Claim, scale: u64, worth: i128) -> bool
    requires claim { IsClaim claim.now }
    requires scale { scale ≤ MAX_PRICE }
    ensures { IsTrue result ↔ IsEnough claim.now scale worth }
{
    if scale == 0 {
        return worth > 0;
    }
    match *claim {
        Claim::Bound(bound) => worth > below_bound(scale, bound),
        Claim::Empty => false,
    }
}

// The scale, as often as the bound less 1 says.
fn below_bound(scale: u64, bound: u64) -> i128
    requires scale { scale ≤ MAX_PRICE }
    requires bound { bound ≤ MAX_PRICE }
    ensures { result ≡ pos scale *ℤ (pos bound -ℤ pos 1) }
{
    i128::from(scale) * (i128::from(bound) - 1)
}

// What listed prices of items are worth.
fn items_worth(instance: &Instance, listed: &[ItemPrice]) -> i128
    requires few { length listed.now ≤ MAX_ITEMS }
    requires prices { All (λ x. (1 ≤ x.item) × IsBetween 1 MAX_PRICE x.price) listed.now }
    requires known { All (λ x. x.item ≤ length instance.now.items) listed.now }
    ensures value { result ≡ pos (sum_by (λ x. slice_index_or (map (λ x. x.demand) instance.now.items) (x.item - 1) 0 * x.price) listed.now) }
    ensures small { IsWithin (2 ^ 100) result }
{
    let mut total = 0u128;
    for price in listed {
        total += item_worth(instance, price);
    }
    total as i128
}

// What a price of an item is worth.
fn item_worth(instance: &Instance, listed: &ItemPrice) -> u128
    requires price { listed.now.price ≤ MAX_PRICE }
    requires item { IsAmong listed.now.item (length instance.now.items) }
    ensures value { result ≡ slice_index_or (map (λ x. x.demand) instance.now.items) (listed.now.item - 1) 0 * listed.now.price }
    ensures small { result ≤ 2 ^ 82 }
{
    u128::from(demand(instance, listed.item)) * u128::from(listed.price)
}

// The demand of an item.
fn demand(instance: &Instance, i: u32) -> u32
    requires { IsAmong i (length instance.now.items) }
    ensures value { result ≡ slice_index_or (map (λ x. x.demand) instance.now.items) (i - 1) 0 }
    ensures small { result ≤ MAX_DEMAND }
{
    match instance.item(i) {
        Some(item) => item.demand,
        None => unreachable!(),
    }
}

// What listed prices of arcs are worth in a box.
fn arcs_worth(ranges: &FlowBox, listed: &[ArcPrice]) -> i128
    requires few { length listed.now ≤ MAX_NUMBERED }
    requires prices { All (λ x. (1 ≤ x.arc) × IsBetween 1 MAX_PRICE (unsigned_abs x.price)) listed.now }
    requires known { All (λ x. x.arc ≤ length ranges.now) listed.now }
    ensures value { result ≡ arcs_worth ranges.now listed.now }
    ensures small { IsWithin (2 ^ 115) result }
{
    let mut total = 0;
    for index in (0..listed.len()).rev() {
        let part = arc_worth(ranges, &listed[index]);
        total = part + total;
    }
    total
}

// What a price of an arc is worth in a box.
fn arc_worth(ranges: &FlowBox, listed: &ArcPrice) -> i128
    requires price { unsigned_abs listed.now.price ≤ MAX_PRICE }
    requires arc { IsAmong listed.now.arc (length ranges.now) }
    ensures value { result ≡ least_worth (range_at ranges.now listed.now.arc) listed.now.price }
    ensures small { IsWithin (2 ^ 94) result }
{
    let (low, high) = match ranges.range(listed.arc) {
        Some(range) => range,
        None => unreachable!(),
    };
    if listed.price >= 0 {
        signed_product(listed.price, low)
    } else {
        signed_product(listed.price, high)
    }
}
