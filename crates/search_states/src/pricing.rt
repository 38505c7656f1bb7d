//! What prices show of a box.

ghost use Rattle.std.specs.Prelude.{◌≡◌, ◌↔◌, IfOk, IsTrue, length};
ghost use Rattle.flow_graph.specs.Arcs.{numbered};
ghost use Rattle.flow_graph.specs.Faithful.{GraphOf};
ghost use Rattle.cert_text.specs.Lines.{ArePrices, IsClaim};
ghost use Rattle.cert_text.specs.declared.lines.TreeLine.{TreeLine};
ghost use Rattle.cert_laws.specs.Rules.{IsStrong};
ghost use Rattle.path_prices.specs.Scratches.{NamesAmong};
ghost use Rattle.search_tree.specs.Trees.{Reaches};
ghost use Rattle.column_master.specs.NodePrices.{ArePricesOf};
ghost use Rattle.search_states.specs.States.{IsMasterOf, IsValued};

use arc_num::{MAX_PRICE, Memory};
use cert_text::{Claim, Need, Prices};
use column_master::{BasicName, Effort, Master, NodePrices};
use flow_graph::FlowGraph;
use flow_model::FlowBox;
use packing_laws::Instance;
use path_prices::{is_enough, worth};
use search_tree::{Shown, reaches};

/// So many rounds a box is priced for at most.
const ROUNDS: u32 = 3_000;

/// What the master shows of a box.
#[derive(Debug, Drop)]
pub(crate) struct Priced {
    pub shown: Shown,
    pub flow: Need,
}

/// Prices a box, and keeps what shows more of it: its prices, or what was known.
pub(crate) fn price(
    instance: &Instance,
    graph: &FlowGraph,
    master: &mut Master,
    ranges: &FlowBox,
    known: Shown,
    names: &[BasicName],
    cut: u64,
) -> Result<Priced, Memory>
    requires master { IsMasterOf instance.now graph.now master.old }
    requires graph { GraphOf instance.now graph.now }
    requires size { length ranges.now ≡ length (numbered graph.now) }
    requires valued { IsValued instance.now graph.now ranges.now known }
    ensures valued { IfOk result (λ p. IsValued instance.now graph.now ranges.now p.shown) }
    ensures master { master.new ≡ master.old }
{
    let effort = Effort {
        rounds: ROUNDS,
        cut,
    };
    let NodePrices { prices, flow } = master.price_from(ranges, names, &effort)?;
    let shown = stronger(instance, graph, ranges, prices, known);
    Ok(Priced { shown, flow })
}

// Prices that close a box for the material bound, where they show no less of it than what is known.
fn stronger(
    instance: &Instance,
    graph: &FlowGraph,
    ranges: &FlowBox,
    prices: Prices,
    known: Shown,
) -> Shown
    requires graph { GraphOf instance.now graph.now }
    requires size { length ranges.now ≡ length (numbered graph.now) }
    requires priced { ArePricesOf instance.now graph.now ranges.now prices }
    requires valued { IsValued instance.now graph.now ranges.now known }
    ensures { IsValued instance.now graph.now ranges.now result }
{
    let claim = greatest_claim(prices.scale, worth(instance, ranges, &prices));
    if is_better(instance, ranges, &prices, &claim, &known.claim) {
        Shown { prices, claim }
    } else {
        known
    }
}

// Whether prices are enough for a claim, and that is no less than another.
fn is_better(
    instance: &Instance,
    ranges: &FlowBox,
    prices: &Prices,
    claim: &Claim,
    other: &Claim,
) -> bool
    requires prices { ArePrices prices.now }
    requires names { NamesAmong (length instance.now.items) (length ranges.now) prices.now }
    requires claim { IsClaim claim.now }
    ensures { IsTrue result → IsStrong instance.now ranges.now claim.now (TreeLine.Leaf prices.now) × Reaches claim.now other.now }
{
    is_strong(instance, ranges, prices, claim) && reaches(claim, other)
}

// Whether prices are worth enough in a box for a claim.
fn is_strong(instance: &Instance, ranges: &FlowBox, prices: &Prices, claim: &Claim) -> bool
    requires prices { ArePrices prices.now }
    requires names { NamesAmong (length instance.now.items) (length ranges.now) prices.now }
    requires claim { IsClaim claim.now }
    ensures { IsTrue result ↔ IsStrong instance.now ranges.now claim.now (TreeLine.Leaf prices.now) }
{
    let worth = worth(instance, ranges, prices);
    is_enough(claim, prices.scale, worth)
}

// The greatest claim that prices of this worth may be enough for.
fn greatest_claim(scale: u64, worth: i128) -> Claim
    ensures { IsClaim result }
{
    if scale == 0 {
        return Claim::Empty;
    }
    let whole = u128::try_from(worth).unwrap_or(0);
    let bound = whole.div_ceil(u128::from(scale));
    Claim::Bound(bound.min(u128::from(MAX_PRICE)) as u64)
}
