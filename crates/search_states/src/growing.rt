//! How a search goes on.

ghost use Rattle.std.specs.Prelude.{◌≡◌, ◌+◌, ◌<◌, ◌≤◌, true, List, IfOk, Some, length, slice_get};
ghost use Rattle.flow_graph.specs.Arcs.{TypeValue, numbered};
ghost use Rattle.flow_graph.specs.Faithful.{IsFaithful};
ghost use Rattle.flow_graph.specs.Chords.{IsGenuine, high_part, is_chord, low_part};
ghost use Rattle.fixed_leaf.specs.Leaves.{TellsChords};
ghost use Rattle.search_tree.specs.declared.places.Place.{Place};
ghost use Rattle.search_tree.specs.Points.{HasOpenChord};
ghost use Rattle.search_tree.specs.Trees.{splits_of};
ghost use Rattle.search_states.specs.States.{IsMasterOf, IsOpenLeaf, IsState};

use crate::choosing::genuine_split;
use crate::findings::{Given, look_at};
use crate::keeping::keep_need;
use crate::known::Known;
use crate::notes::Notes;
use crate::splitting::open_chord;
use crate::states::State;
use arc_num::{Listed, MAX_NUMBERED, Memory};
use cert_text::Prices;
use column_master::Master;
use flow_graph::FlowGraph;
use flow_model::{FlowBox, boxes_split, flows_lie_in_root};
use packing_laws::Instance;
use search_tree::{Shown, SplitAt, Tree, parts_are_shown};
use std::alloc::Global;

/// Splits an open leaf on a chord, and looks at both parts.
pub fn split_leaf(
    alloc: Global,
    instance: &Instance,
    graph: &FlowGraph,
    master: &mut Master,
    state: State,
    index: usize,
) -> Result<State, Memory>
    requires faithful { IsFaithful instance.now graph.now }
    requires master { IsMasterOf instance.now graph.now master.old }
    requires state { IsState instance.now graph.now state }
    requires inside { index < length state.tree.places }
    requires leaf { IsOpenLeaf state index }
    ensures state { IfOk result (IsState instance.now graph.now) }
    ensures splits { IfOk result (λ s. splits_of s.tree.places ≡ splits_of state.tree.places + 1) }
    ensures master { master.new ≡ master.old }
{
    boxes_split();
    flows_lie_in_root();
    parts_are_shown();
    let _few = graph.arc_count();
    let State {
        mut tree,
        best,
        chords,
        mut notes,
    } = state;
    let ranges = tree.box_at(index)?;
    ranges.known();
    let split = chord_in(chords.as_slice(), &ranges, notes.split_at(index));
    let part = low_box(&ranges, split)?;
    let given = given_at(alloc, &tree, &mut notes, index, best)?;
    let low = look_at(
        alloc,
        instance,
        graph,
        master,
        chords.as_slice(),
        &part,
        given,
    )?;
    let part = high_box(&ranges, split)?;
    let given = given_at(alloc, &tree, &mut notes, index, low.best)?;
    let high = look_at(
        alloc,
        instance,
        graph,
        master,
        chords.as_slice(),
        &part,
        given,
    )?;
    tree.split(alloc, index, split, low.shown, high.shown)?;
    notes.split(alloc, index, low.note, high.note)?;
    let grown = State {
        tree,
        best: high.best,
        chords,
        notes,
    };
    let grown = keep_need(grown, index.saturating_add(1), low.need);
    Ok(keep_need(grown, index.saturating_add(2), high.need))
}

// What is known of a part of the box of a place before it is looked at.
fn given_at(
    alloc: Global,
    tree: &Tree,
    notes: &mut Notes,
    index: usize,
    best: Option<Known>,
) -> Result<Given, Memory>
    requires inside { index < length tree.now.places }
    ensures shown { (p : Place) → slice_get tree.now.places index ≡ Some p → IfOk result (λ d. d.shown ≡ p.shown) }
    ensures best { IfOk result (λ d. d.best ≡ best) }
{
    let turn = notes.next_turn();
    Ok(Given {
        shown: shown_again(&tree.places()[index].shown)?,
        best,
        names: notes.names_at(alloc, index)?,
        turn,
    })
}

// The split of a box on a chord: the one that is noted, if it is one of this box.
fn chord_in(chords: &[bool], ranges: &FlowBox, noted: Option<SplitAt>) -> SplitAt
    requires few { length chords.now ≤ MAX_NUMBERED }
    requires some { (g : List TypeValue) × TellsChords g chords.now × HasOpenChord g ranges.now × (length ranges.now ≡ length (numbered g)) }
    ensures chord { (g : List TypeValue) → TellsChords g chords.now → is_chord g result.arc ≡ true }
    ensures genuine { IsGenuine ranges.now result.arc result.k }
{
    if let Some(split) = noted
        && let Some(split) = genuine_split(chords, ranges, split)
    {
        return split;
    }
    match open_chord(chords, ranges) {
        Some(split) => split,
        None => unreachable!(),
    }
}

// The low part of a box.
fn low_box(ranges: &FlowBox, split: SplitAt) -> Result<FlowBox, Memory>
    requires { IsGenuine ranges.now split.arc split.k }
    ensures { IfOk result (λ b. b ≡ low_part ranges.now split.arc split.k) }
{
    let mut part = ranges.clone()?;
    if let Some((lower, _)) = ranges.range(split.arc) {
        part.set_range(split.arc, lower, split.k);
    }
    Ok(part)
}

// The high part of a box.
fn high_box(ranges: &FlowBox, split: SplitAt) -> Result<FlowBox, Memory>
    requires { IsGenuine ranges.now split.arc split.k }
    ensures { IfOk result (λ b. b ≡ high_part ranges.now split.arc split.k) }
{
    let mut part = ranges.clone()?;
    if let Some((_, upper)) = ranges.range(split.arc) {
        part.set_range(split.arc, split.k + 1, upper);
    }
    Ok(part)
}

/// What is known, once more.
pub(crate) fn shown_again(shown: &Shown) -> Result<Shown, Memory>
    ensures { IfOk result (λ s. s ≡ shown.now) }
{
    let prices = &shown.prices;
    let items = Vec::from_slice(prices.items.allocator(), prices.items.as_slice())?;
    let arcs = Vec::from_slice(prices.arcs.allocator(), prices.arcs.as_slice())?;
    let prices = Prices {
        scale: prices.scale,
        items: Listed::new(items),
        arcs: Listed::new(arcs),
    };
    Ok(Shown {
        prices,
        claim: shown.claim,
    })
}
