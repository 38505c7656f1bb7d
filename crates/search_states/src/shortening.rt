//! Prices in small numbers, so that the lines of a certificate are short.

ghost use Rattle.std.specs.Prelude.{◌≡◌, ◌<◌, IfOk, length};
ghost use Rattle.search_states.specs.States.{IsMasterOf, IsRepriced, IsState};

use crate::growing::shown_again;
use crate::keeping::with_prices;
use crate::known::goal_of;
use crate::states::{State, open_leaf};
use arc_num::Memory;
use cert_text::Claim;
use column_master::Master;
use flow_graph::FlowGraph;
use flow_model::flows_lie_in_root;
use packing_laws::Instance;
use search_tree::{Place, reaches};

/// So many arcs are passed over at most by all that is tried.
const MOST_WORK: u64 = 1 << 32;

/// So often the arcs are passed over for the prices of one place at most.
const TRIES: u64 = 48;

/// A walk over the places of a tree in preorder.
#[derive(Clone, Copy, Debug, PartialEq, Eq)]
struct Walk {
    goal: Claim,
    /// Whether a place that shows the goal becomes a leaf even though it is split.
    is_pruned: bool,
    /// So many trees are passed over, since they stand below a leaf.
    passed: usize,
    /// So many places may still be tried.
    left: u64,
}

impl Walk {
    fn new(state: &State, graph: &FlowGraph) -> Walk {
        let arcs = u64::from(graph.arc_count()).max(1);
        Walk {
            goal: goal_of(&state.best),
            is_pruned: open_leaf(state).is_none(),
            passed: 0,
            left: MOST_WORK / (TRIES * arcs),
        }
    }

    /// Whether the next place, if there is one, becomes a leaf and may be tried.
    fn meets(&mut self, place: Option<&Place>) -> bool {
        let Some(place) = place else {
            return false;
        };
        let parts = if place.split.is_some() { 2 } else { 0 };
        if self.passed > 0 {
            self.passed = (self.passed - 1).saturating_add(parts);
            return false;
        }
        if parts > 0 && !(self.is_pruned && reaches(&place.shown.claim, &self.goal)) {
            return false;
        }
        self.passed = parts;
        let is_due = self.left > 0;
        self.left = self.left.saturating_sub(1);
        is_due
    }
}

/// The state with prices in small numbers at the places that become leaves of its certificate, where such are found that show
/// the same.
pub fn shortened(
    instance: &Instance,
    graph: &FlowGraph,
    master: &mut Master,
    first: State,
) -> Result<State, Memory>
    requires master { IsMasterOf instance.now graph.now master.old }
    requires state { IsState instance.now graph.now first }
    ensures state { IfOk result (IsState instance.now graph.now) }
    ensures same { IfOk result (IsRepriced first) }
    ensures master { master.new ≡ master.old }
{
    let mut walk = Walk::new(&first, graph);
    let count = first.tree.places().len();
    let mut state = first;
    for index in 0..count {
        let is_due = walk.meets(state.tree.places().get(index));
        state = shortened_if(instance, graph, master, state, index, is_due)?;
    }
    Ok(state)
}

// The state with other prices at a place, where that is due.
fn shortened_if(
    instance: &Instance,
    graph: &FlowGraph,
    master: &mut Master,
    state: State,
    index: usize,
    is_due: bool,
) -> Result<State, Memory>
    requires master { IsMasterOf instance.now graph.now master.old }
    requires state { IsState instance.now graph.now state }
    ensures state { IfOk result (IsState instance.now graph.now) }
    ensures same { IfOk result (IsRepriced state) }
    ensures master { master.new ≡ master.old }
{
    if is_due && index < state.tree.places().len() {
        shortened_at(instance, graph, master, state, index)
    } else {
        Ok(state)
    }
}

// The state with prices at a place that show the same, in small numbers where such are found.
fn shortened_at(
    instance: &Instance,
    graph: &FlowGraph,
    master: &mut Master,
    state: State,
    index: usize,
) -> Result<State, Memory>
    requires inside { index < length state.tree.places }
    requires master { IsMasterOf instance.now graph.now master.old }
    requires state { IsState instance.now graph.now state }
    ensures state { IfOk result (IsState instance.now graph.now) }
    ensures same { IfOk result (IsRepriced state) }
    ensures master { master.new ≡ master.old }
{
    let _instance = instance;
    let _graph = graph;
    flows_lie_in_root();
    let ranges = state.tree.box_at(index)?;
    let shown = shown_again(&state.tree.places()[index].shown)?;
    let prices = master.shorten(&ranges, shown.prices, &shown.claim)?;
    Ok(with_prices(state, index, prices))
}
