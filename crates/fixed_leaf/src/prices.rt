//! The prices that close a box.

ghost use Rattle.std.specs.Prelude.{◌≡◌, ℕ, ◌*◌, ◌^◌, ◌<◌, ◌≤◌, pos, All, unsigned_abs, IfOk, length};
ghost use Rattle.flow_graph.specs.Arcs.{numbered};
ghost use Rattle.flow_graph.specs.Faithful.{GraphOf};
ghost use Rattle.flow_model.specs.Flows.{arc_cost};
ghost use Rattle.flow_model.specs.inner.Known.{NamesType};
ghost use Rattle.fixed_leaf.specs.inner.Nets.{IsForest, IsNetOf};
ghost use Rattle.fixed_leaf.specs.inner.Priced.{ArePricesFor, ArePricesOf, height_in, items_for, listed_from, price_for, scale_for};

use crate::faults::Fault;
use crate::heights::{carried, tree_heights};
use crate::joints::{Joint, Net};
use arc_num::{Listed, MAX_NUMBERED, Memory};
use cert_text::{ArcPrice, ItemPrice, Prices};
use flow_graph::{ArcKind, FlowGraph};
use packing_laws::Instance;
use std::alloc::Global;

/// The prices that show a fault; without one those that show what the flow costs. No bin gains more than it costs.
pub(crate) fn leaf_prices(
    alloc: Global,
    instance: &Instance,
    graph: &FlowGraph,
    net: &Net,
    fault: Option<Fault>,
) -> Result<Prices, Memory>
    requires graph { GraphOf instance.now graph.now }
    requires net { IsNetOf graph.now net.now }
    ensures { IfOk result (ArePricesFor instance.now graph.now net.now.joints fault) }
{
    instance.known();
    graph.known();
    let row = graph.row();
    let joints = net.joints.as_slice();
    let heights = tree_heights(alloc, row, net, fault)?;
    let prices = arc_prices(alloc, instance, row, joints, heights.as_slice(), fault)?;
    let items = item_prices(alloc, fault)?;
    let arcs = listed(alloc, prices.as_slice())?;
    Ok(Prices {
        scale: scale(fault),
        items,
        arcs,
    })
}

// The prices of all arcs by place.
fn arc_prices(
    alloc: Global,
    instance: &Instance,
    row: &[ArcKind],
    joints: &[Joint],
    heights: &[i64],
    fault: Option<Fault>,
) -> Result<Vec<i64>, Memory>
    requires size { length row.now ≡ length joints.now }
    requires types { All (NamesType (length instance.now.types)) row.now }
    requires tails { All (λ j. j.tail < length heights.now) joints.now }
    requires heads { All (λ j. j.head < length heights.now) joints.now }
    requires small { (p : ℕ) → unsigned_abs (height_in heights.now p) ≤ 2 ^ 22 }
    ensures { IfOk result (λ prices. ArePricesOf instance.now row.now joints.now fault heights.now prices.items) }
{
    let mut prices = Vec::new(alloc);
    for index in 0..joints.len() {
        let price = arc_price(instance, &row[index], &joints[index], heights, fault);
        prices.push(price)?;
    }
    Ok(prices)
}

// What an arc rises and costs, less what it is priced for its item.
fn arc_price(
    instance: &Instance,
    kind: &ArcKind,
    joint: &Joint,
    heights: &[i64],
    fault: Option<Fault>,
) -> i64
    requires of_type { NamesType (length instance.now.types) kind.now }
    requires tail { joint.now.tail < length heights.now }
    requires head { joint.now.head < length heights.now }
    requires small { (p : ℕ) → unsigned_abs (height_in heights.now p) ≤ 2 ^ 22 }
    ensures value { result ≡ price_for instance.now fault heights.now kind.now joint.now }
    ensures small { unsigned_abs result ≤ 2 ^ 62 }
{
    let rise = heights[joint.head] - heights[joint.tail];
    let cost = scaled_cost(instance, kind, fault);
    rise + cost - carried(fault, kind)
}

// What a unit on an arc costs, in units of the scale.
fn scaled_cost(instance: &Instance, kind: &ArcKind, fault: Option<Fault>) -> i64
    requires { NamesType (length instance.now.types) kind.now }
    ensures value { result ≡ pos (scale_for fault * arc_cost instance.now kind.now) }
    ensures small { unsigned_abs result ≤ 2 ^ 32 }
{
    match fault {
        Some(_) => 0,
        None => i64::from(unit_cost(instance, kind)),
    }
}

/// What a unit on an arc costs.
pub(crate) fn unit_cost(instance: &Instance, kind: &ArcKind) -> u32
    requires { NamesType (length instance.now.types) kind.now }
    ensures { result ≡ arc_cost instance.now kind.now }
{
    match *kind {
        ArcKind::Bin { t } => match instance.bin_type(t) {
            Some(bin_type) => bin_type.cost,
            None => unreachable!(),
        },
        ArcKind::Loss { .. } | ArcKind::Piece { .. } => 0,
    }
}

// The prices that are not 0.
fn listed(alloc: Global, prices: &[i64]) -> Result<Listed<ArcPrice>, Memory>
    requires { length prices.now ≤ MAX_NUMBERED }
    ensures { IfOk result (λ listed. listed ≡ listed_from 1 prices.now) }
{
    let mut listed = Listed::empty(alloc);
    let mut arc = 0;
    for price in prices {
        arc += 1;
        if *price != 0 {
            listed.push(ArcPrice { arc, price: *price })?;
        }
    }
    Ok(listed)
}

// The price of an item that is carried too seldom.
fn item_prices(alloc: Global, fault: Option<Fault>) -> Result<Listed<ItemPrice>, Memory>
    ensures { IfOk result (λ items. items ≡ items_for fault) }
{
    let mut items = Listed::empty(alloc);
    if let Some(Fault::Unmet { item }) = fault {
        items.push(ItemPrice { item, price: 1 })?;
    }
    Ok(items)
}

// Bins are worth nothing where something is wrong.
fn scale(fault: Option<Fault>) -> u64
    ensures { result ≡ scale_for fault }
{
    if fault.is_none() { 1 } else { 0 }
}
