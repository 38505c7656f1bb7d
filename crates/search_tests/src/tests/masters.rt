//! Bounds of worked instances, as exact prices show them.

ghost use Rattle.std.specs.Prelude.{◌≡◌, IfOk, length};
ghost use Rattle.flow_graph.specs.Arcs.{numbered};
ghost use Rattle.flow_graph.specs.Faithful.{GraphOf, IsFaithful};
ghost use Rattle.column_master.specs.NodePrices.{ArePricesOf};

use super::fixtures::{ONE_CHEAP, THREE_HALVES, THREE_LARGE, Told, instance_of};
use arc_compile::compile;
use arc_num::Memory;
use cert_text::{Need, Prices};
use column_master::Master;
use flow_graph::FlowGraph;
use flow_model::{FlowBox, flows_lie_in_root, root_box};
use packing_laws::Instance;
use path_prices::worth;
use std::alloc::Global;
use std::test::Fail;
use std::thread::Threads;

/// The cutting list of V. Chvatal, "Linear Programming" (1983), chapter 13: 452.25 bars are enough in fractions.
const PAPER_ROLLS: Told<'static> = (
    &[(100, 1, None)],
    &[(45, 97), (36, 610), (31, 395), (14, 211)],
);

/// What the prices of a box show.
#[derive(Clone, Copy, Debug, PartialEq, Eq)]
enum Seen {
    /// No solution costs less, in whole units.
    Bound(i128),
    Empty,
}

/// The range that the bin arc of the first type has in a box, if it is not that of the root box.
type Narrowed = Option<(u32, u32)>;

/// The root box of an instance, or a part of it.
fn box_of(
    alloc: Global,
    instance: &Instance,
    graph: &FlowGraph,
    narrowed: Narrowed,
) -> Result<FlowBox, Memory>
    requires { GraphOf instance.now graph.now }
    ensures { IfOk result (λ ranges. length ranges ≡ length (numbered graph.now)) }
{
    flows_lie_in_root();
    let mut ranges = root_box(alloc, instance, graph)?;
    narrow(&mut ranges, narrowed);
    Ok(ranges)
}

fn narrow(ranges: &mut FlowBox, narrowed: Narrowed)
    ensures { length ranges.new ≡ length ranges.old }
{
    if let Some((lower, upper)) = narrowed
        && lower <= upper
        && ranges.range(1).is_some()
    {
        ranges.set_range(1, lower, upper);
    }
}

/// What prices of a box show.
fn shown_by(instance: &Instance, graph: &FlowGraph, ranges: &FlowBox, prices: &Prices) -> Seen
    requires size { length ranges.now ≡ length (numbered graph.now) }
    requires valid { ArePricesOf instance.now graph.now ranges.now prices.now }
{
    let _graph = graph;
    let worth = worth(instance, ranges, prices);
    let scale = i128::from(prices.scale);
    if scale == 0 {
        return Seen::Empty;
    }
    Seen::Bound(worth.saturating_add(scale).saturating_sub(1) / scale)
}

/// What a box is priced at, and what its first arc carries, in units of 2^-10.
fn priced_in(
    alloc: Global,
    instance: &Instance,
    graph: &FlowGraph,
    narrowed: Narrowed,
) -> Result<(Seen, u64), Memory>
    requires { IsFaithful instance.now graph.now }
{
    let ranges = box_of(alloc, instance, graph, narrowed)?;
    let mut master = Master::new(alloc, instance, graph)?;
    let priced = master.price_node(&ranges, 80)?;
    let shown = shown_by(instance, graph, &ranges, &priced.prices);
    Ok((shown, first_carried(&priced.flow)))
}

fn first_carried(flow: &Need) -> u64 {
    let first = flow.parts.as_slice().first();
    first.map_or(0, |part| part.value.saturating_add(1 << 29) >> 30)
}

fn priced_at<R: Threads + Sync>(
    rt: &R,
    alloc: Global,
    told: Told<'_>,
    narrowed: Narrowed,
) -> Result<(Seen, u64), Fail> {
    let instance = instance_of(alloc, told)?.ok_or("no instance")?;
    let compiled = compile(rt, alloc, &instance, 1)?;
    Ok(priced_in(alloc, &instance, &compiled.graph, narrowed)?)
}

#[test]
fn roots_are_bounded_by_their_linear_programs(rt: HostRuntime) -> Result<(), Fail> {
    let alloc = rt.alloc();
    for (told, bound, carried) in [
        (THREE_LARGE, 3, 3 << 10),
        (THREE_HALVES, 5, 3 << 9),
        (ONE_CHEAP, 6, 1 << 10),
        (PAPER_ROLLS, 453, 463_104),
    ] {
        let shown = priced_at(&rt, alloc, told, None)?;
        assert_eq!(rt; shown, (Seen::Bound(bound), carried));
    }
    Ok(())
}

#[test]
fn split_boxes_are_bounded_by_their_ranges(rt: HostRuntime) -> Result<(), Fail> {
    let alloc = rt.alloc();
    let high = priced_at(&rt, alloc, THREE_HALVES, Some((2, 3)))?;
    assert_eq!(rt; high, (Seen::Bound(6), 2 << 10));
    let low = priced_at(&rt, alloc, THREE_HALVES, Some((0, 1)))?;
    assert_eq!(rt; low.0, Seen::Empty);
    Ok(())
}
