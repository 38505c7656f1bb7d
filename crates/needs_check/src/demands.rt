//! Whether values meet the demands.

ghost use Rattle.std.specs.Prelude.{◌≡◌, ◌↔◌, ℕ, ◌+◌, ◌-◌, ◌*◌, ◌^◌, ◌≤◌, All, IsTrue, length, slice_index, if◌then◌else◌};
ghost use Rattle.packing_laws.specs.Instances.{IsAmong, item_at};
ghost use Rattle.flow_graph.specs.Arcs.{numbered};
ghost use Rattle.flow_graph.specs.Faithful.{GraphOf};
ghost use Rattle.flow_model.specs.Flows.{carries};
ghost use Rattle.needs_check.specs.inner.Laid.{AreServed, CarriesAmong, HoldsCarried, IsClear};

use crate::known;
use arc_num::{MAX_ITEMS, MAX_NUMBERED};
use flow_graph::{ArcKind, FlowGraph};
use packing_laws::Instance;

/// Whether the arcs of each item carry its demand, in parts of one in the scale. The sums are left in `carried`.
pub(crate) fn are_served(
    instance: &Instance,
    graph: &FlowGraph,
    scale: u64,
    values: &[u64],
    carried: &mut [u128],
) -> bool
    requires graph { GraphOf instance.now graph.now }
    requires size { length values.now ≡ length (numbered graph.now) }
    requires room { length carried.old ≡ MAX_ITEMS }
    ensures { IsTrue result ↔ AreServed instance.now graph.now scale values.now }
{
    known::graph(instance, graph);
    take_carried(graph.row(), values, carried);
    reach_demands(instance, scale, carried)
}

// Takes the sums of what arcs carry of each item, whatever they were before.
fn take_carried(row: &[ArcKind], values: &[u64], carried: &mut [u128])
    requires size { length values.now ≡ length row.now }
    requires few { length row.now ≤ MAX_NUMBERED }
    requires room { length carried.old ≡ MAX_ITEMS }
    requires known { All (CarriesAmong MAX_ITEMS) row.now }
    ensures { HoldsCarried row.now values.now carried.new }
{
    clear(carried);
    for index in 0..row.len() {
        add_carried(&row[index], values[index], carried);
    }
}

// Makes all sums 0.
fn clear(carried: &mut [u128])
    ensures { IsClear carried.new }
{
    carried.fill(0);
}

// Adds what an arc carries to the sum of its item, if it has one.
fn add_carried(kind: &ArcKind, value: u64, carried: &mut [u128])
    requires room { length carried.old ≡ MAX_ITEMS }
    requires known { CarriesAmong MAX_ITEMS kind.now }
    requires below { (j : ℕ) → slice_index carried.old j ≤ 2 ^ 127 }
    ensures { (j : ℕ) → slice_index carried.new j ≡ slice_index carried.old j + (if carries (j + 1) kind.now then 1 else 0) * value }
{
    if let ArcKind::Piece { item, .. } = *kind {
        carried[item as usize - 1] += u128::from(value);
    }
}

// Whether each sum reaches the demand of its item, in parts of one in the scale.
fn reach_demands(instance: &Instance, scale: u64, carried: &[u128]) -> bool
    requires { length carried.now ≡ MAX_ITEMS }
    ensures { IsTrue result ↔ ((i : ℕ) → IsAmong i (length instance.now.items) → scale * (item_at instance.now i).demand ≤ slice_index carried.now (i - 1)) }
{
    for index in 0..instance.item_count() {
        let asked = u128::from(scale) * u128::from(demand(instance, index + 1));
        if carried[index as usize] < asked {
            return false;
        }
    }
    true
}

// The demand of an item.
fn demand(instance: &Instance, i: u32) -> u32
    requires { IsAmong i (length instance.now.items) }
    ensures { result ≡ (item_at instance.now i).demand }
{
    match instance.item(i) {
        Some(item) => item.demand,
        None => unreachable!(),
    }
}
