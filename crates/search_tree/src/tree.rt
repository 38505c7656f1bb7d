//! A tree that grows by splits.

ghost use Rattle.std.specs.Prelude.{◌≡◌, ◌+◌, ◌<◌, ◌≤◌, All, IfOk, OnOk, OnErr, length, vec_len, vec_capacity};
ghost use Rattle.std.specs.List.{insert};
ghost use Rattle.search_tree.specs.Trees.{IsCut, cut_box, part_place};
ghost use Rattle.search_tree.specs.inner.Spread.{IsSplitInto, IsSpread};
ghost use Rattle.flow_graph.specs.Chords.{IsGenuine, range_at};

use crate::places::{Cut, Place, Shown, SplitAt};
use arc_num::{Listed, Memory};
use cert_text::Need;
use flow_model::FlowBox;
use std::alloc::Global;
use std::marker::Model;

/// A tree of boxes with its places in preorder. It keeps the box of its root, and of each other box the cuts that lead to it.
#[derive(Debug, Drop)]
pub struct Tree {
    root: FlowBox,
    places: Vec<Place>,
}

impl Model for Tree {
    ghost use Rattle.search_tree.specs.Trees.{TreeValue, IsTree};

    ghost Value = { TreeValue };

    ghost view = { λ t. record { root = t.root; places = t.places.items } };

    ghost invariant = { λ t. IsTree t.root t.places.items };
}

impl Tree {
    ghost use Rattle.std.specs.Prelude.{◌≡◌, [], ◌∷◌, ◌++◌, ◌↔◌, ◌+◌, ◌<◌, ◌≤◌, All, IfOk, OnOk, OnErr, Some, None, true, List, length, slice_get, slice_set};
    ghost use Rattle.packing_laws.specs.Instances.{IsAmong};
    ghost use Rattle.flow_graph.specs.Arcs.{TypeValue};
    ghost use Rattle.flow_graph.specs.Chords.{IsGenuine, is_chord};
    ghost use Rattle.cert_text.specs.declared.lines.Need.{Need};
    ghost use Rattle.search_tree.specs.declared.places.Place.{Place};
    ghost use Rattle.search_tree.specs.declared.places.SplitAt.{SplitAt};
    ghost use Rattle.search_tree.specs.Trees.{IsGrown, IsTree, KeepsNeeds, SplitsChords, box_of, splits_of};

    /// A tree of one place, of which this is known.
    pub fn new(alloc: Global, root: FlowBox, shown: Shown) -> Result<Tree, Memory>
        ensures { IfOk result (λ t. t ≡ record { root = root; places = record { cuts = []; shown = shown; split = None; need = None } ∷ [] }) }
    {
        let mut places = Vec::new(alloc);
        places.push(Place {
            cuts: Listed::empty(alloc),
            shown,
            split: None,
            need: None,
        })?;
        Ok(Tree { root, places })
    }

    /// A call that costs nothing: the places fill the root box.
    pub fn known(&self)
        ensures { IsTree self.now.root self.now.places }
    {
        let _places = &self.places;
    }

    /// The box of the root.
    pub fn root(&self) -> &FlowBox
        ensures { result.now ≡ self.now.root }
    {
        &self.root
    }

    /// The places in preorder.
    pub fn places(&self) -> &[Place]
        ensures { result.now ≡ self.now.places }
    {
        self.places.as_slice()
    }

    /// The box of a place, by its index. It takes as many steps as there are splits on the way there.
    pub fn box_at(&self, index: usize) -> Result<FlowBox, Memory>
        requires { index < length self.now.places }
        ensures value { IfOk result (λ b. (p : Place) → slice_get self.now.places index ≡ Some p → b ≡ box_of self.now.root p) }
        ensures size { IfOk result (λ b. length b ≡ length self.now.root) }
    {
        let mut ranges = self.root.clone()?;
        cut(&mut ranges, self.places[index].cuts.as_slice());
        Ok(ranges)
    }

    /// Keeps what is now known of the box of a place.
    pub fn show(&mut self, index: usize, shown: Shown)
        requires { index < length self.old.places }
        ensures { (p : Place) → slice_get self.old.places index ≡ Some p → self.new ≡ record self.old { places = slice_set self.old.places index (record p { shown = shown }) } }
    {
        self.places[index].shown = shown;
    }

    /// Keeps a flow that may show that no prices spare the split of a place.
    pub fn keep_need(&mut self, index: usize, need: Need)
        requires { index < length self.old.places }
        ensures { (p : Place) → slice_get self.old.places index ≡ Some p → self.new ≡ record self.old { places = slice_set self.old.places index (record p { need = Some need }) } }
    {
        self.places[index].need = Some(need);
    }

    /// Splits a place that is not split yet, in two parts of which this is known.
    pub fn split(
        &mut self,
        alloc: Global,
        index: usize,
        split: SplitAt,
        low: Shown,
        high: Shown,
    ) -> Result<(), Memory>
        requires leaf { (p : Place) → slice_get self.old.places index ≡ Some p → p.split ≡ None }
        requires genuine { (p : Place) → slice_get self.old.places index ≡ Some p → IsGenuine (box_of self.old.root p) split.arc split.k }
        requires inside { index < length self.old.places }
        ensures ok { OnOk result (IsGrown self.old index split low high self.new) }
        ensures chords { OnOk result ((g : List TypeValue) → is_chord g split.arc ≡ true → SplitsChords g self.old → SplitsChords g self.new) }
        ensures needs { OnOk result ((g : List TypeValue) → KeepsNeeds g self.old → KeepsNeeds g self.new) }
        ensures more { OnOk result (splits_of self.new.places ≡ splits_of self.old.places + 1) }
        ensures err { OnErr result (self.new ≡ self.old) }
    {
        let ranges = self.box_at(index)?;
        ranges.known();
        split_place(alloc, &mut self.places, index, &ranges, split, low, high)
    }
}

// Gives the arcs of a box the ranges of cuts, one after the other.
fn cut(ranges: &mut FlowBox, cuts: &[Cut])
    requires { All (IsCut (length ranges.old)) cuts.now }
    ensures made { ranges.new ≡ cut_box ranges.old cuts.now }
    ensures size { length ranges.new ≡ length ranges.old }
{
    for cut in cuts {
        ranges.set_range(cut.arc, cut.lower, cut.upper);
    }
}

// A part of a place, which has one cut more and of which this is known.
fn part(alloc: Global, place: &Place, cut: Cut, shown: Shown) -> Result<Place, Memory>
    ensures { IfOk result (λ p. p ≡ part_place place.now cut.arc (cut.lower, cut.upper) shown) }
{
    let mut cuts = Listed::new(Vec::from_slice(alloc, place.cuts.as_slice())?);
    cuts.push(cut)?;
    Ok(Place {
        cuts,
        shown,
        split: None,
        need: None,
    })
}

// Splits a place in two, which has this box.
fn split_place(
    alloc: Global,
    places: &mut Vec<Place>,
    index: usize,
    ranges: &FlowBox,
    split: SplitAt,
    low: Shown,
    high: Shown,
) -> Result<(), Memory>
    requires inside { index < length places.old.items }
    requires genuine { IsGenuine ranges.now split.arc split.k }
    ensures ok { OnOk result (IsSplitInto ranges.now places.old.items index split low high places.new.items) }
    ensures err { OnErr result (places.new.items ≡ places.old.items) }
{
    let SplitAt { arc, k } = split;
    let (lower, upper) = range_of(ranges, split);
    let place = &places[index];
    let low = part(
        alloc,
        place,
        Cut {
            arc,
            lower,
            upper: k,
        },
        low,
    )?;
    let high = part(
        alloc,
        place,
        Cut {
            arc,
            lower: k + 1,
            upper,
        },
        high,
    )?;
    grow(places, index, split, low, high)
}

// The range that is split.
fn range_of(ranges: &FlowBox, split: SplitAt) -> (u32, u32)
    requires { IsGenuine ranges.now split.arc split.k }
    ensures range { result ≡ range_at ranges.now split.arc }
    ensures above { split.k < result.1 }
{
    match ranges.range(split.arc) {
        Some(range) => range,
        None => unreachable!(),
    }
}

// Puts the parts of a place behind it.
fn grow(
    places: &mut Vec<Place>,
    index: usize,
    split: SplitAt,
    low: Place,
    high: Place,
) -> Result<(), Memory>
    requires { index < length places.old.items }
    ensures ok { OnOk result (IsSpread places.old.items index split low high places.new.items) }
    ensures err { OnErr result (places.new.items ≡ places.old.items) }
{
    places.reserve(2)?;
    put(places, index + 1, high);
    put(places, index + 1, low);
    places[index].split = Some(split);
    Ok(())
}

// Puts a place to the others, where there is room for it.
fn put(places: &mut Vec<Place>, index: usize, place: Place)
    requires inside { index ≤ vec_len places.old }
    requires room { vec_len places.old < vec_capacity places.old }
    ensures items { places.new.items ≡ insert places.old.items index place }
    ensures size { vec_len places.new ≡ vec_len places.old + 1 }
    ensures capacity { vec_capacity places.old ≤ vec_capacity places.new }
{
    let Ok(()) = places.insert(index, place) else {
        unreachable!()
    };
}
