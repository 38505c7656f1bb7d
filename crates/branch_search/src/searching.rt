//! The search.

ghost use Rattle.std.specs.Prelude.{◌≡◌, ◌≤◌, ◌<◌, ◌⊎◌, IfOk};
ghost use Rattle.packing_laws.specs.Floors.{HasPlaces};
ghost use Rattle.flow_graph.specs.Faithful.{IsFaithful};
ghost use Rattle.search_tree.specs.Trees.{LeavesReach, splits_of};
ghost use Rattle.search_states.specs.States.{IsMasterOf, IsState, goal_of};
ghost use Rattle.branch_search.specs.Outcomes.{IsOutcome};

use crate::endings::{closed_outcome, open_outcome};
use crate::homeless::homeless_outcome;
use crate::outcomes::Outcome;
use arc_num::{MAX_SPLITS, Memory};
use column_master::Master;
use flow_graph::FlowGraph;
use packing_laws::{Instance, homeless_item};
use search_states::{State, first_state, open_leaf, shortened, split_leaf};
use std::alloc::Global;

/// Searches for a cheapest packing with so many splits at most: it splits the leaf of least bound each time, until each is closed.
/// The prices of the leaves become short at the end.
pub fn search(
    alloc: Global,
    instance: &Instance,
    graph: &FlowGraph,
    budget: u32,
) -> Result<Outcome, Memory>
    requires faithful { IsFaithful instance.now graph.now }
    requires budget { budget ≤ MAX_SPLITS }
    ensures { IfOk result (IsOutcome instance.now graph.now budget) }
{
    match homeless_item(instance) {
        Some(item) => homeless_outcome(alloc, instance, graph, item, budget),
        None => search_placed(alloc, instance, graph, budget),
    }
}

// The search where each item with a demand fits somewhere.
fn search_placed(
    alloc: Global,
    instance: &Instance,
    graph: &FlowGraph,
    budget: u32,
) -> Result<Outcome, Memory>
    requires faithful { IsFaithful instance.now graph.now }
    requires places { HasPlaces instance.now }
    requires budget { budget ≤ MAX_SPLITS }
    ensures { IfOk result (IsOutcome instance.now graph.now budget) }
{
    let mut master = Master::new(alloc, instance, graph)?;
    let first = first_state(alloc, instance, graph, &mut master)?;
    let last = grown(alloc, instance, graph, &mut master, first, budget)?;
    let state = shortened(instance, graph, &mut master, last)?;
    match open_leaf(&state) {
        None => closed_outcome(alloc, instance, graph, state, budget),
        Some(index) => open_outcome(alloc, instance, graph, state, index, budget),
    }
}

// The state after so many splits, or as soon as each leaf is closed.
fn grown(
    alloc: Global,
    instance: &Instance,
    graph: &FlowGraph,
    master: &mut Master,
    first: State,
    budget: u32,
) -> Result<State, Memory>
    requires faithful { IsFaithful instance.now graph.now }
    requires master { IsMasterOf instance.now graph.now master.old }
    requires state { IsState instance.now graph.now first }
    requires none { splits_of first.tree.places ≡ 0 }
    ensures state { IfOk result (IsState instance.now graph.now) }
    ensures few { IfOk result (λ s. splits_of s.tree.places ≤ budget) }
    ensures all { IfOk result (λ s. (splits_of s.tree.places ≡ budget) ⊎ LeavesReach (goal_of s.best) s.tree) }
    ensures master { master.new ≡ master.old }
{
    let mut state = first;
    for made in 0..budget {
        match open_leaf(&state) {
            None => return Ok(state),
            Some(index) => state = split_leaf(alloc, instance, graph, master, state, index)?,
        }
    }
    Ok(state)
}
