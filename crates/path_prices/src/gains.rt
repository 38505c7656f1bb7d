//! The greatest prices of bins that are filled along paths.

ghost use Rattle.std.specs.Prelude.{◌≡◌, ◌≤◌, [], length};
ghost use Rattle.std.specs.Vec.{vec_capacity};
ghost use Rattle.packing_laws.specs.Instances.{IsAmong};
ghost use Rattle.flow_graph.specs.Arcs.{flow_type};
ghost use Rattle.flow_graph.specs.Faithful.{GraphOf, IsNumberedPath};
ghost use Rattle.cert_text.specs.declared.lines.Prices.{Prices};
ghost use Rattle.cert_text.specs.Lines.{ArePrices};
ghost use Rattle.path_prices.specs.Gains.{IsGain, bin_price};
ghost use Rattle.path_prices.specs.Excess.{FirstExcess};
ghost use Rattle.path_prices.specs.Scratches.{IsScratchOf, NamesAmong};
ghost use Rattle.path_prices.specs.inner.Tables.{AreClear, AreLaid, AreSmall, room_of};

use crate::laid::{laid_excess, laid_gain, push_laid_path};
use crate::scratch::Scratch;
use crate::tables::{clear_arcs, clear_items, lay_arcs, lay_items};
use cert_text::Prices;
use flow_graph::FlowGraph;
use packing_laws::Instance;

/// The greatest price of a bin of type t that is filled along a path: what a column of the type has as reduced cost, but
/// for the cost of the bin, with its sign turned.
pub fn gain(graph: &FlowGraph, prices: &Prices, t: u32, scratch: &mut Scratch) -> i128
    requires of_type { IsAmong t (length graph.now) }
    requires scratch { IsScratchOf graph.now scratch.old }
    requires prices { ArePrices prices.now }
    requires known { NamesAmong scratch.old.items scratch.old.arcs prices.now }
    ensures gain { IsGain graph.now prices.now t result }
    ensures scratch { scratch.new ≡ scratch.old }
{
    gain_in(
        graph,
        prices,
        t,
        scratch.items.as_mut_slice(),
        scratch.arcs.as_mut_slice(),
        scratch.values.as_mut_slice(),
    )
}

fn gain_in(
    graph: &FlowGraph,
    prices: &Prices,
    t: u32,
    items: &mut [u64],
    arcs: &mut [i64],
    values: &mut [i128],
) -> i128
    requires of_type { IsAmong t (length graph.now) }
    requires room { IsScratchOf graph.now (room_of items.old arcs.old values.old) }
    requires prices { ArePrices prices.now }
    requires known { NamesAmong (length items.old) (length arcs.old) prices.now }
    requires clear { AreClear items.old arcs.old }
    ensures gain { IsGain graph.now prices.now t result }
    ensures clear { AreClear items.new arcs.new }
{
    lay(prices, items, arcs);
    let gain = laid_gain(graph, t, items, arcs, values);
    clear(prices, items, arcs);
    gain
}

/// Appends the numbers of the arcs of a path of type t whose bin has the greatest price, in order, the bin arc aside.
pub fn best_path(
    graph: &FlowGraph,
    prices: &Prices,
    t: u32,
    scratch: &mut Scratch,
    into: &mut Vec<u32>,
)
    requires of_type { IsAmong t (length graph.now) }
    requires scratch { IsScratchOf graph.now scratch.old }
    requires prices { ArePrices prices.now }
    requires known { NamesAmong scratch.old.items scratch.old.arcs prices.now }
    requires empty { into.old.items ≡ [] }
    requires room { (flow_type graph.now t).nodes ≤ vec_capacity into.old }
    ensures path { IsNumberedPath graph.now t into.new.items }
    ensures greatest { IsGain graph.now prices.now t (bin_price graph.now prices.now t into.new.items) }
    ensures scratch { scratch.new ≡ scratch.old }
{
    path_in(
        graph,
        prices,
        t,
        scratch.items.as_mut_slice(),
        scratch.arcs.as_mut_slice(),
        scratch.values.as_mut_slice(),
        into,
    );
}

fn path_in(
    graph: &FlowGraph,
    prices: &Prices,
    t: u32,
    items: &mut [u64],
    arcs: &mut [i64],
    values: &mut [i128],
    into: &mut Vec<u32>,
)
    requires of_type { IsAmong t (length graph.now) }
    requires room { IsScratchOf graph.now (room_of items.old arcs.old values.old) }
    requires prices { ArePrices prices.now }
    requires known { NamesAmong (length items.old) (length arcs.old) prices.now }
    requires clear { AreClear items.old arcs.old }
    requires empty { into.old.items ≡ [] }
    requires capacity { (flow_type graph.now t).nodes ≤ vec_capacity into.old }
    ensures path { IsNumberedPath graph.now t into.new.items }
    ensures greatest { IsGain graph.now prices.now t (bin_price graph.now prices.now t into.new.items) }
    ensures clear { AreClear items.new arcs.new }
{
    lay(prices, items, arcs);
    push_laid_path(graph, t, items, arcs, values, into);
    clear(prices, items, arcs);
}

/// The first type of which a bin gains more than it costs at the prices, in units of their scale. None where the prices
/// pass for all types.
pub fn first_excess(
    instance: &Instance,
    graph: &FlowGraph,
    prices: &Prices,
    scratch: &mut Scratch,
) -> Option<u32>
    requires graph { GraphOf instance.now graph.now }
    requires scratch { IsScratchOf graph.now scratch.old }
    requires prices { ArePrices prices.now }
    requires known { NamesAmong scratch.old.items scratch.old.arcs prices.now }
    ensures excess { FirstExcess instance.now graph.now prices.now result }
    ensures scratch { scratch.new ≡ scratch.old }
{
    excess_in(
        instance,
        graph,
        prices,
        scratch.items.as_mut_slice(),
        scratch.arcs.as_mut_slice(),
        scratch.values.as_mut_slice(),
    )
}

fn excess_in(
    instance: &Instance,
    graph: &FlowGraph,
    prices: &Prices,
    items: &mut [u64],
    arcs: &mut [i64],
    values: &mut [i128],
) -> Option<u32>
    requires graph { GraphOf instance.now graph.now }
    requires room { IsScratchOf graph.now (room_of items.old arcs.old values.old) }
    requires prices { ArePrices prices.now }
    requires known { NamesAmong (length items.old) (length arcs.old) prices.now }
    requires clear { AreClear items.old arcs.old }
    ensures excess { FirstExcess instance.now graph.now prices.now result }
    ensures clear { AreClear items.new arcs.new }
{
    lay(prices, items, arcs);
    let excess = laid_excess(instance, graph, prices.scale, items, arcs, values);
    clear(prices, items, arcs);
    excess
}

// Lays prices out in clear tables.
fn lay(prices: &Prices, items: &mut [u64], arcs: &mut [i64])
    requires prices { ArePrices prices.now }
    requires known { NamesAmong (length items.old) (length arcs.old) prices.now }
    requires clear { AreClear items.old arcs.old }
    ensures laid { AreLaid prices.now items.new arcs.new }
    ensures small { AreSmall items.new arcs.new }
{
    lay_items(items, prices.items.as_slice());
    lay_arcs(arcs, prices.arcs.as_slice());
}

// Clears the tables of these prices.
fn clear(prices: &Prices, items: &mut [u64], arcs: &mut [i64])
    requires prices { ArePrices prices.now }
    requires known { NamesAmong (length items.old) (length arcs.old) prices.now }
    requires laid { AreLaid prices.now items.old arcs.old }
    ensures { AreClear items.new arcs.new }
{
    clear_items(items, prices.items.as_slice());
    clear_arcs(arcs, prices.arcs.as_slice());
}
