//! Boxes that are worked by hand: three units of an item, bins that hold two of them for 3, and bins that hold none for 5.

ghost use Rattle.std.specs.Prelude.{◌≡◌, ◌≤◌, ◌∷◌, [], None, IfOk, IfSome};
ghost use Rattle.search_tests.specs.Worked.{both_graphs, box_of, three_in_two};

use arc_num::{Listed, Memory};
use cert_text::{ArcPrice, ItemPrice, Prices};
use fixed_leaf::{FixedLeaf, OnlyFlow, fixed_leaf};
use flow_graph::FlowGraph;
use flow_model::{Flow, FlowBox, graph_of_two, root_box};
use packing_laws::{BinType, Instance, Item, Numbers, Vectors};
use std::alloc::Global;
use std::process::Abort;
use std::test::Fail;

fn needs_send<T: Send + Sync>(_value: &T) {}

fn bin_type(alloc: Global, cap: u32, cost: u32) -> Result<BinType, Memory>
    ensures { IfOk result (λ b. b ≡ record { cap = cap ∷ []; cost = cost; limit = None }) }
{
    Ok(BinType {
        cap: Numbers::new(vec![in alloc; cap]?),
        cost,
        limit: None,
    })
}

fn instance_of_two(alloc: Global) -> Result<Option<Instance>, Memory>
    ensures { IfOk result (λ o. IfSome o (λ I. I ≡ three_in_two)) }
{
    let weight = Numbers::new(vec![in alloc; 1]?);
    let item = Item {
        demand: 3,
        forms: Vectors::new(vec![in alloc; weight]?),
    };
    let types = vec![in alloc; bin_type(alloc, 2, 3)?, bin_type(alloc, 0, 5)?]?;
    Ok(Instance::new(1, types, vec![in alloc; item]?))
}

fn both_graphs(alloc: Global) -> Result<FlowGraph, Memory>
    ensures { IfOk result (λ graph. graph ≡ both_graphs) }
{
    let mut graph = graph_of_two(alloc)?;
    flow_graph::examples_come_out();
    graph.add_type(1, &[])?;
    Ok(graph)
}

/// The values of the chords: of the bins that hold two, of the arc on which a second place stays empty, of that on which it
/// is filled, and of the bins that hold none; and what each tree arc carries at most.
#[derive(Clone, Copy)]
struct Chords {
    bins: u32,
    loss: u32,
    piece: u32,
    others: u32,
    most: u32,
}

fn box_of(
    alloc: Global,
    instance: &Instance,
    graph: &FlowGraph,
    chords: Chords,
) -> Result<FlowBox, Memory>
    requires instance { instance.now ≡ three_in_two }
    requires graph { graph.now ≡ both_graphs }
    ensures { IfOk result (λ b. b ≡ box_of chords.bins chords.loss chords.piece chords.others chords.most) }
{
    let mut ranges = root_box(alloc, instance, graph)?;
    ranges.set_range(1, chords.bins, chords.bins);
    ranges.set_range(2, 0, chords.most);
    ranges.set_range(3, 0, chords.most);
    ranges.set_range(4, chords.loss, chords.loss);
    ranges.set_range(5, chords.piece, chords.piece);
    ranges.set_range(6, chords.others, chords.others);
    Ok(ranges)
}

fn leaf_of(alloc: Global, chords: Chords) -> Result<Option<FixedLeaf>, Memory>
    requires bins { chords.bins ≤ 3 }
    requires loss { chords.loss ≤ 3 }
    requires piece { chords.piece ≤ 3 }
    requires others { chords.others ≤ 3 }
    requires most { chords.most ≤ 3 }
{
    let Some(instance) = instance_of_two(alloc)? else {
        return Ok(None);
    };
    let graph = both_graphs(alloc)?;
    let ranges = box_of(alloc, &instance, &graph, chords)?;
    Ok(Some(fixed_leaf(alloc, &instance, &graph, &ranges)?))
}

fn prices(
    alloc: Global,
    scale: u64,
    items: &[ItemPrice],
    arcs: &[(u32, i64)],
) -> Result<Prices, Memory> {
    let mut listed = Listed::empty(alloc);
    for (arc, price) in arcs {
        listed.push(ArcPrice {
            arc: *arc,
            price: *price,
        })?;
    }
    Ok(Prices {
        scale,
        items: Listed::new(Vec::from_slice(alloc, items)?),
        arcs: listed,
    })
}

fn expect(rt: &impl Abort, alloc: Global, chords: Chords, leaf: FixedLeaf) -> Result<(), Fail>
    requires bins { chords.bins ≤ 3 }
    requires loss { chords.loss ≤ 3 }
    requires piece { chords.piece ≤ 3 }
    requires others { chords.others ≤ 3 }
    requires most { chords.most ≤ 3 }
{
    let found = leaf_of(alloc, chords)?.ok_or("the numbers are those of an instance")?;
    assert_eq!(rt; found, leaf);
    needs_send(&found);
    Ok(())
}

#[test]
fn flow_of_a_box_is_found_and_its_cost_shown(rt: HostRuntime) -> Result<(), Fail> {
    let alloc = rt.alloc();
    let chords = Chords {
        bins: 2,
        loss: 1,
        piece: 1,
        others: 1,
        most: 3,
    };
    let values = Listed::new(Vec::from_slice(alloc, &[2, 2, 0, 1, 1, 1])?);
    let leaf = FixedLeaf {
        prices: prices(alloc, 1, &[], &[(1, 3), (6, 5)])?,
        flow: Some(OnlyFlow {
            flow: Flow { values },
            cost: 11,
        }),
    };
    expect(&rt, alloc, chords, leaf)
}

#[test]
fn item_that_is_carried_too_seldom_is_priced(rt: HostRuntime) -> Result<(), Fail> {
    let alloc = rt.alloc();
    let chords = Chords {
        bins: 1,
        loss: 0,
        piece: 1,
        others: 0,
        most: 3,
    };
    let leaf = FixedLeaf {
        prices: prices(
            alloc,
            0,
            &[ItemPrice { item: 1, price: 1 }],
            &[(4, -1), (5, -2)],
        )?,
        flow: None,
    };
    expect(&rt, alloc, chords, leaf)
}

#[test]
fn value_below_its_range_is_priced_up(rt: HostRuntime) -> Result<(), Fail> {
    let alloc = rt.alloc();
    let chords = Chords {
        bins: 0,
        loss: 1,
        piece: 0,
        others: 3,
        most: 3,
    };
    let leaf = FixedLeaf {
        prices: prices(alloc, 0, &[], &[(1, -1), (3, 1), (4, 1), (5, 1)])?,
        flow: None,
    };
    expect(&rt, alloc, chords, leaf)
}

#[test]
fn value_above_its_range_is_priced_down(rt: HostRuntime) -> Result<(), Fail> {
    let alloc = rt.alloc();
    let chords = Chords {
        bins: 2,
        loss: 1,
        piece: 1,
        others: 0,
        most: 1,
    };
    let leaf = FixedLeaf {
        prices: prices(alloc, 0, &[], &[(2, -1), (4, 1), (5, 1)])?,
        flow: None,
    };
    expect(&rt, alloc, chords, leaf)
}
