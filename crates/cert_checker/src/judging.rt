//! The first rule that a place of the tree breaks, for the first open box.

ghost use Rattle.std.specs.Prelude.{◌≡◌, ◌↔◌, ◌≤◌, ℕ, All, IsTrue, List, Option, length};
ghost use Rattle.packing_laws.specs.Instances.{InstanceValue};
ghost use Rattle.flow_graph.specs.Arcs.{TypeValue, numbered};
ghost use Rattle.flow_graph.specs.Chords.{IsGenuine};
ghost use Rattle.flow_graph.specs.Faithful.{GraphOf};
ghost use Rattle.cert_text.specs.declared.lines.Claim.{Claim};
ghost use Rattle.cert_text.specs.declared.lines.TreeLine.{TreeLine};
ghost use Rattle.cert_text.specs.Lines.{ArePrices, IsNeed, IsClaim, IsTreeLine};
ghost use Rattle.cert_laws.specs.Rules.{Box, ClaimsAtMost, SplitsBox};
ghost use Rattle.path_prices.specs.Scratches.{IsScratchOf};
ghost use Rattle.needs_check.specs.Rooms.{IsNeedRoomOf};
ghost use Rattle.cert_checker.specs.inner.Judging.{KeepsPlace, IsFirstCause};

use cert_laws::Cause;
use cert_text::{ArcPart, ArcPrice, Claim, ItemPrice, Need, Prices, TreeLine};
use flow_graph::FlowGraph;
use flow_model::FlowBox;
use leaf_check::{LeafFault, check_leaf};
use needs_check::{NeedRoom, check_need};
use packing_laws::Instance;
use path_prices::Scratch;
use step_bounds::step_value;

/// Whether a split leaves numbers of the range of an arc on both sides.
fn is_genuine(ranges: &FlowBox, arc: u32, cut: u32) -> bool
    ensures { IsTrue result ↔ IsGenuine ranges.now arc cut }
{
    match ranges.range(arc) {
        Some((lower, upper)) => lower <= cut && cut < upper,
        None => false,
    }
}

/// Whether a place of the tree splits no range, or leaves numbers of it on both sides.
pub(crate) fn splits(ranges: &FlowBox, line: &TreeLine) -> bool
    ensures { IsTrue result ↔ SplitsBox ranges.now line.now }
{
    match line {
        TreeLine::Split { arc, k } => is_genuine(ranges, *arc, *k),
        TreeLine::Needed { arc, k, .. } => is_genuine(ranges, *arc, *k),
        TreeLine::Leaf(_) | TreeLine::Step { .. } => true,
    }
}

fn split_cause(graph: &FlowGraph, ranges: &FlowBox, arc: u32, cut: u32) -> Option<Cause>
    ensures { (I : InstanceValue) (goal : Option ℕ) (claim : Claim) → IsFirstCause (KeepsPlace I graph.now ranges.now goal claim (TreeLine.Split arc cut)) graph.now result }
{
    if arc > graph.arc_count() {
        return Some(Cause::NoArc);
    }
    if !is_genuine(ranges, arc, cut) {
        return Some(Cause::NotSplit);
    }
    None
}

/// Whether the arc of a split and all arcs of its need exist.
fn names_arcs(graph: &FlowGraph, arc: u32, parts: &[ArcPart]) -> bool
    ensures { IsTrue result ↔ ((arc ≤ length (numbered graph.now)) × All (λ x. x.arc ≤ length (numbered graph.now)) parts.now) }
{
    let count = graph.arc_count();
    if arc > count {
        return false;
    }
    parts_exist(count, parts)
}

fn parts_exist(count: u32, parts: &[ArcPart]) -> bool
    ensures { IsTrue result ↔ All (λ x. x.arc ≤ count) parts.now }
{
    parts.iter().all(|part| part.arc <= count)
}

fn prices_exist(count: u32, prices: &[ArcPrice]) -> bool
    ensures { IsTrue result ↔ All (λ x. x.arc ≤ count) prices.now }
{
    prices.iter().all(|listed| listed.arc <= count)
}

fn items_exist(count: u32, prices: &[ItemPrice]) -> bool
    ensures { IsTrue result ↔ All (λ x. x.item ≤ count) prices.now }
{
    prices.iter().all(|listed| listed.item <= count)
}

fn need_cause(
    instance: &Instance,
    graph: &FlowGraph,
    ranges: &FlowBox,
    goal: Option<u64>,
    arc: u32,
    cut: u32,
    need: &Need,
    room: &mut NeedRoom,
) -> Option<Cause>
    requires graph { GraphOf instance.now graph.now }
    requires room { IsNeedRoomOf graph.now room.old }
    requires ranges { length ranges.now ≡ length (numbered graph.now) }
    requires need { IsNeed need.now }
    ensures room { IsNeedRoomOf graph.now room.new }
    ensures first { (claim : Claim) → IsFirstCause (KeepsPlace instance.now graph.now ranges.now goal claim (TreeLine.Needed arc cut need.now)) graph.now result }
{
    if !names_arcs(graph, arc, need.parts.as_slice()) {
        return Some(Cause::NoArc);
    }
    if !is_genuine(ranges, arc, cut) {
        return Some(Cause::NotSplit);
    }
    if !check_need(instance, graph, ranges, goal, need, room) {
        return Some(Cause::NotNeeded);
    }
    None
}

fn leaf_cause(
    instance: &Instance,
    graph: &FlowGraph,
    ranges: &FlowBox,
    claim: &Claim,
    prices: &Prices,
    scratch: &mut Scratch,
) -> Option<Cause>
    requires graph { GraphOf instance.now graph.now }
    requires ranges { length ranges.now ≡ length (numbered graph.now) }
    requires claim { IsClaim claim.now }
    requires prices { ArePrices prices.now }
    requires items { scratch.old.items ≡ length instance.now.items }
    requires scratch { IsScratchOf graph.now scratch.old }
    ensures same { scratch.new ≡ scratch.old }
    ensures first { (goal : Option ℕ) → IsFirstCause (KeepsPlace instance.now graph.now ranges.now goal claim.now (TreeLine.Leaf prices.now)) graph.now result }
{
    if !items_exist(instance.item_count(), prices.items.as_slice()) {
        return Some(Cause::NoItem);
    }
    if !prices_exist(graph.arc_count(), prices.arcs.as_slice()) {
        return Some(Cause::NoArc);
    }
    match check_leaf(instance, graph, ranges, claim, prices, scratch) {
        None => None,
        Some(LeafFault::Gain { t }) => Some(Cause::Gain { t }),
        Some(LeafFault::Weak) => Some(Cause::Weak),
    }
}

/// Whether a claim is a bound of at most this value.
fn claims_at_most(value: u128, claim: &Claim) -> bool
    ensures { IsTrue result ↔ ClaimsAtMost value claim.now }
{
    match *claim {
        Claim::Bound(bound) => u128::from(bound) <= value,
        Claim::Empty => false,
    }
}

fn step_cause(instance: &Instance, claim: &Claim, dim: u32, step: u32) -> Option<Cause>
    ensures { (g : List TypeValue) (ranges : Box) (goal : Option ℕ) → IsFirstCause (KeepsPlace instance.now g ranges goal claim.now (TreeLine.Step dim step)) g result }
{
    match step_value(instance, dim, step) {
        None => Some(Cause::NotStep),
        Some(value) => {
            if claims_at_most(value, claim) {
                None
            } else {
                Some(Cause::Weak)
            }
        }
    }
}

/// The first rule that a place of the tree breaks, but for those on where it stands.
pub(crate) fn place_cause(
    instance: &Instance,
    graph: &FlowGraph,
    ranges: &FlowBox,
    claim: &Claim,
    goal: Option<u64>,
    line: &TreeLine,
    scratch: &mut Scratch,
    room: &mut NeedRoom,
) -> Option<Cause>
    requires graph { GraphOf instance.now graph.now }
    requires ranges { length ranges.now ≡ length (numbered graph.now) }
    requires claim { IsClaim claim.now }
    requires line { (version : ℕ) × IsTreeLine version line.now }
    requires items { scratch.old.items ≡ length instance.now.items }
    requires scratch { IsScratchOf graph.now scratch.old }
    requires room { IsNeedRoomOf graph.now room.old }
    ensures scratch { scratch.new ≡ scratch.old }
    ensures room { IsNeedRoomOf graph.now room.new }
    ensures first { IsFirstCause (KeepsPlace instance.now graph.now ranges.now goal claim.now line.now) graph.now result }
{
    match line {
        TreeLine::Split { arc, k } => split_cause(graph, ranges, *arc, *k),
        TreeLine::Needed { arc, k, need } => {
            need_cause(instance, graph, ranges, goal, *arc, *k, need, room)
        }
        TreeLine::Leaf(prices) => leaf_cause(instance, graph, ranges, claim, prices, scratch),
        TreeLine::Step { dim, step } => step_cause(instance, claim, *dim, *step),
    }
}
