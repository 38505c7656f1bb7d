//! How far a search is.

ghost use Rattle.std.specs.Prelude.{◌≡◌, ◌≤◌, ◌<◌, ◌⊎◌, ◌↔◌, IfOk, IfSome, IsNone, IsTrue, Some, length};
ghost use Rattle.packing_laws.specs.Floors.{HasPlaces, material_of};
ghost use Rattle.flow_graph.specs.Faithful.{IsFaithful};
ghost use Rattle.search_tree.specs.Trees.{LeavesReach, splits_of};
ghost use Rattle.search_states.specs.States.{IsMasterOf, IsOpen, IsOpenLeaf, IsState, IsValued, goal_of};
ghost use Rattle.flow_model.specs.Boxes.{root_ranges};

use crate::findings::{Given, look_at};
use crate::keeping::keep_need;
use crate::known::{Known, first_known, goal_of};
use crate::notes::Notes;
use arc_num::{Listed, MAX_PRICE, Memory};
use bound_certificates::{material_prices, material_prices_close};
use cert_text::Claim;
use column_master::Master;
use fixed_leaf::chords_of;
use flow_graph::FlowGraph;
use flow_model::{flows_lie_in_root, root_box};
use packing_laws::{Instance, material_bound, material_is_floor, single_is_reached};
use search_tree::{Place, Shown, Tree, reaches};
use std::alloc::Global;

/// The tree of a search with a note beside each place, the cheapest packing by now, and for each arc whether it is a chord.
#[derive(Debug, Drop)]
pub struct State {
    pub tree: Tree,
    pub best: Option<Known>,
    pub chords: Listed<bool>,
    pub notes: Notes,
}

/// The first state: one place, and the first packing.
pub fn first_state(
    alloc: Global,
    instance: &Instance,
    graph: &FlowGraph,
    master: &mut Master,
) -> Result<State, Memory>
    requires faithful { IsFaithful instance.now graph.now }
    requires places { HasPlaces instance.now }
    requires master { IsMasterOf instance.now graph.now master.old }
    ensures state { IfOk result (IsState instance.now graph.now) }
    ensures splits { IfOk result (λ s. splits_of s.tree.places ≡ 0) }
    ensures master { master.new ≡ master.old }
{
    let chords = chords_of(alloc, instance, graph)?;
    let root = root_box(alloc, instance, graph)?;
    flows_lie_in_root();
    let given = Given {
        shown: material_shown(alloc, instance, graph)?,
        best: first_known(alloc, instance)?,
        names: Vec::new(alloc),
        turn: 0,
    };
    let found = look_at(
        alloc,
        instance,
        graph,
        master,
        chords.as_slice(),
        &root,
        given,
    )?;
    let tree = Tree::new(alloc, root, found.shown)?;
    let notes = Notes::new(alloc, found.note)?;
    let state = State {
        tree,
        best: found.best,
        chords,
        notes,
    };
    Ok(keep_need(state, 0, found.need))
}

// What material prices show of the root box.
fn material_shown(alloc: Global, instance: &Instance, graph: &FlowGraph) -> Result<Shown, Memory>
    requires faithful { IsFaithful instance.now graph.now }
    requires places { HasPlaces instance.now }
    ensures { IfOk result (IsValued instance.now graph.now (root_ranges instance.now graph.now)) }
{
    instance.known();
    graph.known();
    material_prices_close();
    let prices = material_prices(alloc, instance)?;
    let claim = Claim::Bound(small_material(instance));
    Ok(Shown { prices, claim })
}

// The material bound of an instance in which each item with a demand fits somewhere.
fn small_material(instance: &Instance) -> u64
    requires { HasPlaces instance.now }
    ensures value { result ≡ material_of instance.now }
    ensures small { result ≤ MAX_PRICE }
{
    instance.known();
    single_is_reached();
    material_is_floor();
    material_bound(instance) as u64
}

/// The leaf of least bound that is not closed yet, by its index; the newest where several show the same. None where each leaf is
/// closed.
pub fn open_leaf(state: &State) -> Option<usize>
    ensures some { IfSome result (IsOpenLeaf state.now) }
    ensures inside { IfSome result (λ i. i < length state.now.tree.places) }
    ensures none { IsNone result → LeavesReach (goal_of state.now.best) state.now.tree }
{
    let goal = goal_of(&state.best);
    let places = state.tree.places();
    let mut open: Option<usize> = None;
    for index in 0..places.len() {
        if is_open(&places[index], &goal) {
            open = Some(next_of(places, &state.notes, open, index));
        }
    }
    open
}

// Whether a place is not split and not closed.
fn is_open(place: &Place, goal: &Claim) -> bool
    ensures { IsTrue result ↔ IsOpen place.now goal.now }
{
    place.split.is_none() && !reaches(&place.shown.claim, goal)
}

// Of an index, if there is one, and a later one that of the place which is split first: less is shown of it, or it is the newer one.
fn next_of(places: &[Place], notes: &Notes, first: Option<usize>, later: usize) -> usize
    requires first { IfSome first (λ i. i < length places.now) }
    requires later { later < length places.now }
    ensures { (Some result ≡ first) ⊎ (result ≡ later) }
{
    let Some(index) = first else {
        return later;
    };
    let is_no_less = reaches(&places[later].shown.claim, &places[index].shown.claim);
    let is_no_more = reaches(&places[index].shown.claim, &places[later].shown.claim);
    if is_no_less && !(is_no_more && notes.is_newer(later, index)) {
        index
    } else {
        later
    }
}
