//! What a search answers at its end.

ghost use Rattle.std.specs.Prelude.{◌≡◌, ◌≤◌, IfOk};
ghost use Rattle.std.specs.Option.{option_map};
ghost use Rattle.packing_laws.specs.Floors.{HasPlaces};
ghost use Rattle.flow_graph.specs.Faithful.{GraphOf};
ghost use Rattle.search_tree.specs.Trees.{LeavesReach, splits_of};
ghost use Rattle.search_states.specs.States.{IsOpenLeaf, IsState, goal_of};
ghost use Rattle.branch_search.specs.Outcomes.{IsOutcome};
ghost use Rattle.branch_search.specs.inner.Bounds.{IsBoundOf, IsLeastBound};

use crate::certificates::certificate_of;
use crate::outcomes::Outcome;
use arc_num::{MAX_PRICE, MAX_SPLITS, Memory};
use cert_text::Claim;
use flow_graph::FlowGraph;
use flow_model::flows_lie_in_root;
use packing_laws::{Instance, Packing};
use search_states::{Known, State};
use search_tree::{Place, Target, open_trees_have_points};
use std::alloc::Global;

/// The answer where each leaf is closed: the cheapest packing is optimal, or there is none.
pub(crate) fn closed_outcome(
    alloc: Global,
    instance: &Instance,
    graph: &FlowGraph,
    state: State,
    budget: u32,
) -> Result<Outcome, Memory>
    requires graph { GraphOf instance.now graph.now }
    requires state { IsState instance.now graph.now state }
    requires closed { LeavesReach (goal_of state.best) state.tree }
    requires splits { splits_of state.tree.places ≤ budget }
    requires budget { budget ≤ MAX_SPLITS }
    ensures { IfOk result (IsOutcome instance.now graph.now budget) }
{
    let State { tree, best, .. } = state;
    match best {
        None => {
            let target = Target {
                claim: Claim::Empty,
                goal: None,
                is_pruned: true,
            };
            let certificate = certificate_of(alloc, instance, graph, &tree, target, budget)?;
            Ok(Outcome::Infeasible { certificate })
        }
        Some(known) => {
            let target = Target {
                claim: Claim::Bound(known.cost),
                goal: Some(known.cost),
                is_pruned: true,
            };
            let certificate = certificate_of(alloc, instance, graph, &tree, target, budget)?;
            Ok(Outcome::Optimal {
                packing: known.packing,
                certificate,
            })
        }
    }
}

/// The answer where all splits are made and a leaf is still open.
pub(crate) fn open_outcome(
    alloc: Global,
    instance: &Instance,
    graph: &FlowGraph,
    state: State,
    index: usize,
    budget: u32,
) -> Result<Outcome, Memory>
    requires graph { GraphOf instance.now graph.now }
    requires places { HasPlaces instance.now }
    requires state { IsState instance.now graph.now state }
    requires leaf { IsOpenLeaf state index }
    requires splits { splits_of state.tree.places ≡ budget }
    requires budget { budget ≤ MAX_SPLITS }
    ensures { IfOk result (IsOutcome instance.now graph.now budget) }
{
    graph.known();
    flows_lie_in_root();
    open_trees_have_points();
    state.tree.known();
    let State { tree, best, .. } = state;
    let lower = least_bound(tree.places());
    let target = Target {
        claim: Claim::Bound(lower),
        goal: Some(lower + 1),
        is_pruned: false,
    };
    let certificate = certificate_of(alloc, instance, graph, &tree, target, budget)?;
    Ok(Outcome::Bracket {
        lower,
        packing: packing_of(best),
        certificate,
    })
}

// The packing that is known.
fn packing_of(best: Option<Known>) -> Option<Packing>
    ensures { result ≡ option_map (λ k. k.packing) best }
{
    match best {
        Some(known) => Some(known.packing),
        None => None,
    }
}

// The least bound that a place shows which is not split; the greatest bound there may be where none shows one.
fn least_bound(places: &[Place]) -> u64
    ensures { IsLeastBound places.now result }
{
    let mut least = MAX_PRICE;
    for place in places {
        least = least.min(bound_of(place));
    }
    least
}

// The bound that a place shows, or the greatest bound where it is split or shows that its box is empty.
fn bound_of(place: &Place) -> u64
    ensures { IsBoundOf place.now result }
{
    match (place.split, place.shown.claim) {
        (None, Claim::Bound(bound)) => bound.min(MAX_PRICE),
        _ => MAX_PRICE,
    }
}
