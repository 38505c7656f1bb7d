//! The certificate of a search.

ghost use Rattle.std.specs.Prelude.{◌≡◌, ◌≤◌, false, IfOk};
ghost use Rattle.flow_graph.specs.Faithful.{GraphOf};
ghost use Rattle.flow_model.specs.Boxes.{root_ranges};
ghost use Rattle.cert_text.specs.Lines.{IsClaim, IsGoal};
ghost use Rattle.search_tree.specs.Trees.{AreShown, KeepsNeeds, LeavesReach, splits_in, splits_of};
ghost use Rattle.branch_search.specs.Outcomes.{IsCertificateOf};

use arc_num::{MAX_SPLITS, Memory};
use cert_text::Certificate;
use flow_graph::FlowGraph;
use packing_laws::Instance;
use search_tree::{Target, Tree, tree_certificate};
use std::alloc::Global;
use written_verdicts::few_splits_are_shown;

/// The certificate of a tree of no more than so many splits. Its text has what the certificate claims as the verdict.
pub(crate) fn certificate_of(
    alloc: Global,
    instance: &Instance,
    graph: &FlowGraph,
    tree: &Tree,
    target: Target,
    budget: u32,
) -> Result<Certificate, Memory>
    requires graph { GraphOf instance.now graph.now }
    requires root { tree.now.root ≡ root_ranges instance.now graph.now }
    requires shown { AreShown instance.now graph.now tree.now }
    requires needs { KeepsNeeds graph.now tree.now }
    requires reached { LeavesReach target.claim tree.now }
    requires claim { IsClaim target.claim }
    requires goal { IsGoal 2 target.claim target.goal }
    requires splits { splits_of tree.now.places ≤ budget }
    requires budget { budget ≤ MAX_SPLITS }
    ensures told { IfOk result (λ c. IsCertificateOf instance.now graph.now budget target.claim target.goal c) }
    ensures all { target.is_pruned ≡ false → IfOk result (λ c. splits_in c.lines ≡ splits_of tree.now.places) }
{
    instance.known();
    graph.known();
    few_splits_are_shown();
    tree_certificate(alloc, instance, graph, tree, target)
}
