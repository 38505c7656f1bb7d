ghost use Rattle.std.specs.Prelude.{◌≡◌, ◌↔◌, IfSome, IsNone, IsTrue, length};
ghost use Rattle.flow_graph.specs.Arcs.{numbered};
ghost use Rattle.flow_graph.specs.Faithful.{GraphOf};
ghost use Rattle.cert_text.specs.Lines.{ArePrices, IsClaim};
ghost use Rattle.cert_text.specs.declared.lines.TreeLine.{TreeLine};
ghost use Rattle.cert_laws.specs.Rules.{IsStrong};
ghost use Rattle.cert_laws.specs.Shown.{Closes};
ghost use Rattle.path_prices.specs.Scratches.{IsScratchOf, NamesAmong};
ghost use Rattle.leaf_check.specs.Leaves.{IsLeafFault};

use cert_text::{Claim, Prices};
use flow_graph::FlowGraph;
use flow_model::FlowBox;
use packing_laws::Instance;
use path_prices::{Scratch, first_excess, is_enough, worth};

/// Why prices do not close a box.
#[derive(Clone, Copy, Debug, PartialEq, Eq)]
pub enum LeafFault {
    /// The first type, by its number from 1, of which a bin gains more than it costs.
    Gain { t: u32 },
    /// No bin does, but the prices are worth too little in the box.
    Weak,
}

/// Looks whether prices close a box for a claim. None where they do.
pub fn check_leaf(
    instance: &Instance,
    graph: &FlowGraph,
    ranges: &FlowBox,
    claim: &Claim,
    prices: &Prices,
    scratch: &mut Scratch,
) -> Option<LeafFault>
    requires graph { GraphOf instance.now graph.now }
    requires ranges { length ranges.now ≡ length (numbered graph.now) }
    requires claim { IsClaim claim.now }
    requires prices { ArePrices prices.now }
    requires names { NamesAmong (length instance.now.items) (length (numbered graph.now)) prices.now }
    requires items { scratch.old.items ≡ length instance.now.items }
    requires scratch { IsScratchOf graph.now scratch.old }
    ensures same { scratch.new ≡ scratch.old }
    ensures none { IsNone result ↔ Closes instance.now graph.now prices.now ranges.now claim.now }
    ensures some { IfSome result (IsLeafFault instance.now graph.now prices.now ranges.now claim.now) }
{
    if let Some(t) = first_excess(instance, graph, prices, scratch) {
        return Some(LeafFault::Gain { t });
    }
    if is_strong(instance, ranges, claim, prices) {
        return None;
    }
    Some(LeafFault::Weak)
}

// Whether prices are worth enough for a claim.
fn is_strong(instance: &Instance, ranges: &FlowBox, claim: &Claim, prices: &Prices) -> bool
    requires prices { ArePrices prices.now }
    requires claim { IsClaim claim.now }
    requires names { NamesAmong (length instance.now.items) (length ranges.now) prices.now }
    ensures { IsTrue result ↔ IsStrong instance.now ranges.now claim.now (TreeLine.Leaf prices.now) }
{
    let worth = worth(instance, ranges, prices);
    is_enough(claim, prices.scale, worth)
}
