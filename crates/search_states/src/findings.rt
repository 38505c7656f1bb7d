//! What is found out of a box.

ghost use Rattle.std.specs.Prelude.{◌≡◌, ◌≤◌, IfOk, IfSome, length};
ghost use Rattle.flow_graph.specs.Arcs.{numbered};
ghost use Rattle.flow_graph.specs.Faithful.{IsFaithful};
ghost use Rattle.flow_model.specs.Boxes.{LiesWithin, root_ranges};
ghost use Rattle.fixed_leaf.specs.Leaves.{AreTold, ChordsAreFixed, IsOnlyFlow, Settles, TellsChords};
ghost use Rattle.search_tree.specs.Points.{HasOpenChord};
ghost use Rattle.search_states.specs.States.{IsMasterOf, IsBest, IsFinding, IsKnown, IsNeedIn, IsValued};

use crate::choosing::fractional_chord;
use crate::diving::dive_in;
use crate::known::{Known, better_of, cost_of, goal_of, known_from};
use crate::notes::{Note, names_of};
use crate::pricing::{Priced, price};
use crate::splitting::open_chord;
use crate::wholes::better_of_flow;
use arc_num::Memory;
use cert_text::{Claim, Need};
use column_master::{BasicName, Master};
use fixed_leaf::{FixedLeaf, OnlyFlow, fixed_leaf};
use flow_graph::FlowGraph;
use flow_model::FlowBox;
use packing_laws::{Instance, material_is_floor};
use pattern_extract::{ExtractFault, extract};
use search_tree::{Shown, reaches};
use std::alloc::Global;

/// What is known of a box before it is looked at, and the cheapest packing by then.
#[derive(Debug, Drop)]
pub struct Given {
    pub shown: Shown,
    pub best: Option<Known>,
    /// The names of a basis to start from; none for the first basis.
    pub names: Vec<BasicName>,
    /// How many boxes were looked at before.
    pub turn: u32,
}

/// What is known of a box, and the cheapest packing by then.
#[derive(Debug, Drop)]
pub struct Finding {
    pub shown: Shown,
    pub best: Option<Known>,
    /// A flow that may show that no prices spare a split of the box.
    pub need: Option<Need>,
    pub note: Note,
}

/// Looks at a box of which this is known. A box in which each chord has one value is closed.
pub fn look_at(
    alloc: Global,
    instance: &Instance,
    graph: &FlowGraph,
    master: &mut Master,
    chords: &[bool],
    ranges: &FlowBox,
    given: Given,
) -> Result<Finding, Memory>
    requires master { IsMasterOf instance.now graph.now master.old }
    requires faithful { IsFaithful instance.now graph.now }
    requires told { TellsChords graph.now chords.now }
    requires within { LiesWithin ranges.now (root_ranges instance.now graph.now) }
    requires valued { IsValued instance.now graph.now ranges.now given.shown }
    requires best { IsBest instance.now given.best }
    ensures found { IfOk result (IsFinding instance.now graph.now ranges.now given.best) }
    ensures master { master.new ≡ master.old }
{
    let _few = graph.arc_count();
    match open_chord(chords, ranges) {
        Some(_) => look_inside(alloc, instance, graph, master, chords, ranges, given),
        None => close(alloc, instance, graph, ranges, given.best),
    }
}

// Prices a box that can be split, dives for packings, and where it is still open notes how to go on.
fn look_inside(
    alloc: Global,
    instance: &Instance,
    graph: &FlowGraph,
    master: &mut Master,
    chords: &[bool],
    ranges: &FlowBox,
    given: Given,
) -> Result<Finding, Memory>
    requires master { IsMasterOf instance.now graph.now master.old }
    requires faithful { IsFaithful instance.now graph.now }
    requires size { length ranges.now ≡ length (numbered graph.now) }
    requires chord { HasOpenChord graph.now ranges.now }
    requires valued { IsValued instance.now graph.now ranges.now given.shown }
    requires best { IsBest instance.now given.best }
    ensures found { IfOk result (IsFinding instance.now graph.now ranges.now given.best) }
    ensures master { master.new ≡ master.old }
{
    let Given {
        shown,
        best,
        names,
        turn,
    } = given;
    let cut = cost_of(&best);
    let Priced { shown, flow } = price(
        instance,
        graph,
        master,
        ranges,
        shown,
        names.as_slice(),
        cut,
    )?;
    let split = fractional_chord(graph, chords, ranges, &flow);
    let whole = better_of_flow(alloc, instance, graph, best, &flow, split)?;
    let best = dive_in(alloc, instance, master, whole, &shown.claim, turn)?;
    if reaches(&shown.claim, &goal_of(&best)) {
        return Ok(Finding {
            shown,
            best,
            need: None,
            note: Note::nothing(alloc),
        });
    }
    let need = need_of(master, ranges, &best)?;
    let note = Note {
        names: names_of(alloc, master)?,
        split,
    };
    Ok(Finding {
        shown,
        best,
        need,
        note,
    })
}

// A flow that shows that no prices close the box that was priced last: for one more than the master shows of it, or else for what
// the cheapest packing costs.
fn need_of(
    master: &mut Master,
    ranges: &FlowBox,
    best: &Option<Known>,
) -> Result<Option<Need>, Memory>
    requires { length ranges.now ≡ length (numbered master.old.graph) }
    ensures need { IfOk result (λ n. IfSome n (IsNeedIn master.old.graph)) }
    ensures master { master.new ≡ master.old }
{
    let least = master.least_goal();
    let found = need_for(master, ranges, Some(least))?;
    if found.is_some() {
        return Ok(found);
    }
    let goal = match best {
        Some(known) => Some(known.cost),
        None => None,
    };
    need_for(master, ranges, goal)
}

// A flow that shows that no prices close the box that was priced last for a goal.
fn need_for(
    master: &mut Master,
    ranges: &FlowBox,
    goal: Option<u64>,
) -> Result<Option<Need>, Memory>
    requires { length ranges.now ≡ length (numbered master.old.graph) }
    ensures need { IfOk result (λ n. IfSome n (IsNeedIn master.old.graph)) }
    ensures master { master.new ≡ master.old }
{
    master.need(ranges, goal)
}

// Closes a box in which each chord has one value: no flow lies in it, or one that gives a packing.
fn close(
    alloc: Global,
    instance: &Instance,
    graph: &FlowGraph,
    ranges: &FlowBox,
    best: Option<Known>,
) -> Result<Finding, Memory>
    requires faithful { IsFaithful instance.now graph.now }
    requires within { LiesWithin ranges.now (root_ranges instance.now graph.now) }
    requires fixed { ChordsAreFixed graph.now ranges.now }
    requires best { IsBest instance.now best }
    ensures { IfOk result (IsFinding instance.now graph.now ranges.now best) }
{
    let leaf = fixed_leaf(alloc, instance, graph, ranges)?;
    closed(alloc, instance, graph, ranges, leaf, best)
}

// A box that prices close, and the packing of the one flow that may lie in it.
fn closed(
    alloc: Global,
    instance: &Instance,
    graph: &FlowGraph,
    ranges: &FlowBox,
    leaf: FixedLeaf,
    best: Option<Known>,
) -> Result<Finding, Memory>
    requires faithful { IsFaithful instance.now graph.now }
    requires size { length ranges.now ≡ length (numbered graph.now) }
    requires told { AreTold instance.now graph.now leaf.prices }
    requires settles { Settles instance.now graph.now ranges.now leaf.prices leaf.flow }
    requires best { IsBest instance.now best }
    ensures { IfOk result (IsFinding instance.now graph.now ranges.now best) }
{
    let FixedLeaf { prices, flow } = leaf;
    match flow {
        None => {
            let claim = Claim::Empty;
            let shown = Shown { prices, claim };
            Ok(Finding {
                shown,
                best,
                need: None,
                note: Note::nothing(alloc),
            })
        }
        Some(only) => {
            material_is_floor();
            let known = packing_of(alloc, instance, graph, ranges, &only)?;
            let claim = Claim::Bound(known.cost);
            let shown = Shown { prices, claim };
            let best = better_of(best, known);
            Ok(Finding {
                shown,
                best,
                need: None,
                note: Note::nothing(alloc),
            })
        }
    }
}

// The packing that the one flow in a box gives.
fn packing_of(
    alloc: Global,
    instance: &Instance,
    graph: &FlowGraph,
    ranges: &FlowBox,
    only: &OnlyFlow,
) -> Result<Known, Memory>
    requires faithful { IsFaithful instance.now graph.now }
    requires size { length ranges.now ≡ length (numbered graph.now) }
    requires only { IsOnlyFlow instance.now graph.now ranges.now only.now }
    ensures known { IfOk result (IsKnown instance.now) }
    ensures cost { IfOk result (λ k. k.cost ≤ only.now.cost) }
{
    match extract(alloc, instance, graph, &only.flow) {
        Ok(packing) => known_from(instance, packing),
        Err(ExtractFault::Memory) => Err(Memory),
        Err(ExtractFault::NotFlow { .. }) => unreachable!(),
    }
}
