//! Instances with an item that fits nowhere.

ghost use Rattle.std.specs.Prelude.{◌≡◌, ◌≤◌, [], ◌∷◌, IfOk};
ghost use Rattle.packing_laws.specs.Floors.{IsFirstHomeless};
ghost use Rattle.cert_text.specs.Lines.{ArePrices};
ghost use Rattle.flow_graph.specs.Faithful.{IsFaithful};
ghost use Rattle.branch_search.specs.Outcomes.{IsOutcome};

use crate::certificates::certificate_of;
use crate::outcomes::Outcome;
use arc_num::{Listed, MAX_SPLITS, Memory};
use cert_text::{Claim, ItemPrice, Prices};
use flow_graph::FlowGraph;
use flow_model::root_box;
use packing_laws::Instance;
use search_tree::{Shown, Target, Tree};
use std::alloc::Global;

/// The answer where an item with a demand fits nowhere: no path carries it, so that a price of it alone shows that the root box
/// is empty.
pub(crate) fn homeless_outcome(
    alloc: Global,
    instance: &Instance,
    graph: &FlowGraph,
    item: u32,
    budget: u32,
) -> Result<Outcome, Memory>
    requires faithful { IsFaithful instance.now graph.now }
    requires homeless { IsFirstHomeless instance.now item }
    requires budget { budget ≤ MAX_SPLITS }
    ensures { IfOk result (IsOutcome instance.now graph.now budget) }
{
    instance.known();
    graph.known();
    let root = root_box(alloc, instance, graph)?;
    let shown = Shown {
        prices: price_of_one(alloc, item)?,
        claim: Claim::Empty,
    };
    let tree = Tree::new(alloc, root, shown)?;
    let target = Target {
        claim: Claim::Empty,
        goal: None,
        is_pruned: true,
    };
    let certificate = certificate_of(alloc, instance, graph, &tree, target, budget)?;
    Ok(Outcome::Infeasible { certificate })
}

// A price of one item, without a scale.
fn price_of_one(alloc: Global, item: u32) -> Result<Prices, Memory>
    requires { 1 ≤ item }
    ensures told { IfOk result (λ p. ArePrices p) }
    ensures value { IfOk result (λ p. p ≡ record { scale = 0; items = record { item = item; price = 1 } ∷ []; arcs = [] }) }
{
    let mut items = Listed::empty(alloc);
    items.push(ItemPrice { item, price: 1 })?;
    Ok(Prices {
        scale: 0,
        items,
        arcs: Listed::empty(alloc),
    })
}
