//! Gains and paths at prices that are laid out in tables.

ghost use Rattle.std.specs.Prelude.{◌≡◌, ◌+◌, ◌-◌, ◌*◌, ◌^◌, ◌<◌, ◌≤◌, [], pos, ◌+ℤ◌, unsigned_abs, All, length, slice_index_or, slice_range};
ghost use Rattle.std.specs.Vec.{vec_capacity};
ghost use Rattle.packing_laws.specs.Instances.{IsAmong};
ghost use Rattle.packing_laws.specs.Packings.{cost_at};
ghost use Rattle.flow_graph.specs.Arcs.{flow_type, numbered, first_arc, last_arc};
ghost use Rattle.flow_graph.specs.Faithful.{GraphOf, IsNumberedPath};
ghost use Rattle.cert_text.specs.declared.lines.Prices.{Prices};
ghost use Rattle.cert_text.specs.Lines.{ArePrices};
ghost use Rattle.path_prices.specs.Gains.{IsGain, bin_price};
ghost use Rattle.path_prices.specs.Excess.{FirstExcess};
ghost use Rattle.path_prices.specs.Scratches.{IsScratchOf};
ghost use Rattle.path_prices.specs.inner.Tables.{AreLaid, AreSmall, AreWithin, IsWithin, room_of};
ghost use Rattle.path_prices.specs.inner.Passes.{HoldsTypeBest, IsInRow};

use crate::passes::{push_best_way, raise_values, reset_values};
use crate::products::product;
use arc_num::{MAX_NUMBERED, MAX_PRICE};
use flow_graph::{FlowGraph, TypeArc};
use packing_laws::Instance;

// The gain of a type at the prices that are laid out.
pub(crate) fn laid_gain(
    graph: &FlowGraph,
    t: u32,
    items: &[u64],
    arcs: &[i64],
    values: &mut [i128],
) -> i128
    requires of_type { IsAmong t (length graph.now) }
    requires room { IsScratchOf graph.now (room_of items.now arcs.now values.old) }
    requires small { AreSmall items.now arcs.now }
    ensures { (p : Prices) → ArePrices p → AreLaid p items.now arcs.now → IsGain graph.now p t result }
{
    graph.known();
    let nodes = node_count(graph, t) as usize;
    let values = &mut values[..nodes + 1];
    find_values(graph, t, items, arcs, values);
    sum(bin_arc_price(graph, t, arcs), values[1])
}

// Appends the numbers of the arcs of a path of the greatest price at the prices that are laid out.
pub(crate) fn push_laid_path(
    graph: &FlowGraph,
    t: u32,
    items: &[u64],
    arcs: &[i64],
    values: &mut [i128],
    into: &mut Vec<u32>,
)
    requires of_type { IsAmong t (length graph.now) }
    requires room { IsScratchOf graph.now (room_of items.now arcs.now values.old) }
    requires small { AreSmall items.now arcs.now }
    requires empty { into.old.items ≡ [] }
    requires capacity { (flow_type graph.now t).nodes ≤ vec_capacity into.old }
    ensures path { (p : Prices) → ArePrices p → AreLaid p items.now arcs.now → IsNumberedPath graph.now t into.new.items }
    ensures greatest { (p : Prices) → ArePrices p → AreLaid p items.now arcs.now → IsGain graph.now p t (bin_price graph.now p t into.new.items) }
{
    graph.known();
    let nodes = node_count(graph, t) as usize;
    let values = &mut values[..nodes + 1];
    find_values(graph, t, items, arcs, values);
    let own = own_prices(graph, t, arcs);
    let (bin, _) = numbers(graph, t);
    push_best_way(type_arcs(graph, t), items, own, values, bin + 1, into);
}

// The first type of which a bin gains more than it costs at the prices that are laid out.
pub(crate) fn laid_excess(
    instance: &Instance,
    graph: &FlowGraph,
    scale: u64,
    items: &[u64],
    arcs: &[i64],
    values: &mut [i128],
) -> Option<u32>
    requires graph { GraphOf instance.now graph.now }
    requires room { IsScratchOf graph.now (room_of items.now arcs.now values.old) }
    requires small { AreSmall items.now arcs.now }
    requires scale { scale ≤ MAX_PRICE }
    ensures { (p : Prices) → ArePrices p → p.scale ≡ scale → AreLaid p items.now arcs.now → FirstExcess instance.now graph.now p result }
{
    graph.known();
    for t in 1..graph.type_count() + 1 {
        if laid_gain(graph, t, items, arcs, values) > scaled_cost(instance, t, scale) {
            return Some(t);
        }
    }
    None
}

// What a bin of a type costs, in units of a scale.
fn scaled_cost(instance: &Instance, t: u32, scale: u64) -> i128
    requires of_type { IsAmong t (length instance.now.types) }
    requires scale { scale ≤ MAX_PRICE }
    ensures { result ≡ pos (scale * cost_at instance.now t) }
{
    match instance.bin_type(t) {
        Some(bin_type) => product(scale, bin_type.cost),
        None => unreachable!(),
    }
}

// The price of a bin arc and the value of the source.
fn sum(own: i64, value: i128) -> i128
    requires own { unsigned_abs own ≤ MAX_PRICE }
    requires value { IsWithin (2 ^ 101) value }
    ensures { result ≡ own +ℤ value }
{
    i128::from(own) + value
}

// Makes the value of each node of a type the best of the ways from it to the target.
fn find_values(graph: &FlowGraph, t: u32, items: &[u64], arcs: &[i64], values: &mut [i128])
    requires of_type { IsAmong t (length graph.now) }
    requires carried { All (λ e. e.item ≤ length items.now) (flow_type graph.now t).arcs }
    requires size { length arcs.now ≡ length (numbered graph.now) }
    requires small { AreSmall items.now arcs.now }
    requires nodes { length values.old ≡ (flow_type graph.now t).nodes + 1 }
    ensures within { AreWithin (2 ^ 101) values.new }
    ensures size { length values.new ≡ (flow_type graph.now t).nodes + 1 }
    ensures source { 1 < length values.new }
    ensures best { (p : Prices) → ArePrices p → AreLaid p items.now arcs.now → HoldsTypeBest graph.now p t values.new }
{
    graph.known();
    reset_values(values);
    let own = own_prices(graph, t, arcs);
    raise_values(type_arcs(graph, t), items, own, values);
}

// The part of a table of prices that is that of a type, but for its bin arc.
fn own_prices<'a>(graph: &FlowGraph, t: u32, arcs: &'a [i64]) -> &'a [i64]
    requires of_type { IsAmong t (length graph.now) }
    requires size { length arcs.now ≡ length (numbered graph.now) }
    ensures value { result.now ≡ slice_range arcs.now (first_arc graph.now t) (last_arc graph.now t) }
    ensures size { length result.now ≡ length (flow_type graph.now t).arcs }
{
    let (first, last) = numbers(graph, t);
    &arcs[first as usize..last as usize]
}

// The price of the bin arc of a type.
fn bin_arc_price(graph: &FlowGraph, t: u32, arcs: &[i64]) -> i64
    requires of_type { IsAmong t (length graph.now) }
    requires size { length arcs.now ≡ length (numbered graph.now) }
    ensures { result ≡ slice_index_or arcs.now (first_arc graph.now t - 1) (pos 0) }
{
    let (first, _) = numbers(graph, t);
    arcs[first as usize - 1]
}

// The arcs of a type but for its bin arc.
fn type_arcs(graph: &FlowGraph, t: u32) -> &[TypeArc]
    requires { IsAmong t (length graph.now) }
    ensures { result.now ≡ (flow_type graph.now t).arcs }
{
    match graph.type_arcs(t) {
        Some(arcs) => arcs,
        None => unreachable!(),
    }
}

// The last node of a type.
fn node_count(graph: &FlowGraph, t: u32) -> u32
    requires { IsAmong t (length graph.now) }
    ensures { result ≡ (flow_type graph.now t).nodes }
{
    match graph.node_count(t) {
        Some(nodes) => nodes,
        None => unreachable!(),
    }
}

// The numbers of the first arc of a type, which is its bin arc, and of its last one.
fn numbers(graph: &FlowGraph, t: u32) -> (u32, u32)
    requires { IsAmong t (length graph.now) }
    ensures value { result ≡ (first_arc graph.now t, last_arc graph.now t) }
    ensures rise { IsInRow graph.now t }
    ensures few { last_arc graph.now t ≤ MAX_NUMBERED }
{
    graph.known();
    match graph.arcs_of(t) {
        Some(numbers) => numbers,
        None => unreachable!(),
    }
}
