//! The certificate that a tree makes.

ghost use Rattle.std.specs.Prelude.{◌≡◌, ◌↔◌, ◌<◌, ◌≤◌, false, true, All, IfOk, IfSome, IsNone, IsTrue, None, Some, length, slice_get, if◌then◌else◌};
ghost use Rattle.flow_graph.specs.Faithful.{GraphOf};
ghost use Rattle.flow_model.specs.Boxes.{root_ranges};
ghost use Rattle.cert_text.specs.Lines.{IsClaim, IsGoal, lines_of};
ghost use Rattle.cert_laws.specs.Needs.{IsNeeded};
ghost use Rattle.cert_laws.specs.Shown.{IsCertified};
ghost use Rattle.needs_check.specs.Rooms.{IsNeedRoomOf};
ghost use Rattle.search_tree.specs.declared.places.Place.{Place};
ghost use Rattle.search_tree.specs.Trees.{AreShown, HasFewParts, KeepsNeeds, LeavesReach, Reaches, box_of, splits_box, splits_in, splits_of};
ghost use Rattle.search_tree.specs.inner.Emitted.{IsLineOf, MakesLeaf, IsSplitLine, IsWritten, parts_of};

use crate::copies::{need_again, prices_again};
use crate::places::{Place, SplitAt};
use crate::tree::Tree;
use arc_num::{Listed, Memory};
use cert_text::{Certificate, Claim, TreeLine};
use flow_graph::FlowGraph;
use needs_check::{NeedRoom, check_need};
use packing_laws::Instance;
use std::alloc::Global;

/// How many parts a need may have that a line carries. So the text of a tree with as many splits as there may be is no longer than
/// a certificate may be.
pub const MAX_PARTS: usize = 500_000;

/// What the certificate of a tree is to show.
#[derive(Clone, Copy, Debug, PartialEq, Eq)]
pub struct Target {
    pub claim: Claim,
    pub goal: Option<u64>,
    /// Whether a place that shows the claim becomes a leaf even though it is split.
    pub is_pruned: bool,
}

/// The certificate of version 2 that a tree makes for a claim that each of its leaves shows. Splits carry their needs where these
/// hold for the goal and have few parts.
pub fn tree_certificate(
    alloc: Global,
    instance: &Instance,
    graph: &FlowGraph,
    tree: &Tree,
    target: Target,
) -> Result<Certificate, Memory>
    requires graph { GraphOf instance.now graph.now }
    requires root { tree.now.root ≡ root_ranges instance.now graph.now }
    requires shown { AreShown instance.now graph.now tree.now }
    requires needs { KeepsNeeds graph.now tree.now }
    requires reached { LeavesReach target.claim tree.now }
    requires claim { IsClaim target.claim }
    requires goal { IsGoal 2 target.claim target.goal }
    ensures told { IfOk result (λ c. (c.version ≡ 2) × (c.claim ≡ target.claim) × (c.goal ≡ target.goal)) }
    ensures certified { IfOk result (λ c. IsCertified instance.now graph.now (lines_of c) target.claim) }
    ensures fewer { IfOk result (λ c. splits_in c.lines ≤ splits_of tree.now.places) }
    ensures all { target.is_pruned ≡ false → IfOk result (λ c. splits_in c.lines ≡ splits_of tree.now.places) }
    ensures parts { IfOk result (λ c. All HasFewParts c.lines) }
{
    instance.known();
    graph.known();
    let room = NeedRoom::new(alloc, graph, instance)?;
    let lines = tree_lines(alloc, instance, graph, tree, target, room)?;
    Ok(Certificate {
        version: 2,
        claim: target.claim,
        goal: target.goal,
        lines,
    })
}

// The lines of all places that are not passed over.
fn tree_lines(
    alloc: Global,
    instance: &Instance,
    graph: &FlowGraph,
    tree: &Tree,
    target: Target,
    mut room: NeedRoom,
) -> Result<Listed<TreeLine>, Memory>
    requires graph { GraphOf instance.now graph.now }
    requires root { tree.now.root ≡ root_ranges instance.now graph.now }
    requires shown { AreShown instance.now graph.now tree.now }
    requires needs { KeepsNeeds graph.now tree.now }
    requires reached { LeavesReach target.claim tree.now }
    requires room { IsNeedRoomOf graph.now room }
    ensures written { IfOk result (λ lines. IsWritten instance.now graph.now target tree.now lines) }
    ensures parts { IfOk result (λ lines. All HasFewParts lines) }
{
    tree.known();
    let mut lines = Listed::empty(alloc);
    let mut passed: usize = 0;
    for index in 0..tree.places().len() {
        let parts = parts_of(&tree.places()[index]);
        if passed > 0 {
            passed = passed - 1 + parts;
        } else {
            let line = line_at(instance, graph, tree, index, target, &mut room)?;
            passed = passed_behind(&line, parts);
            lines.push(line)?;
        }
    }
    Ok(lines)
}

// How many parts a place is split into.
fn parts_of(place: &Place) -> usize
    ensures { result ≡ parts_of place.now.split }
{
    match place.split {
        Some(_) => 2,
        None => 0,
    }
}

// How many trees are passed over behind the line of a place that has so many parts: none behind a split, all behind a leaf.
fn passed_behind(line: &TreeLine, parts: usize) -> usize
    ensures { result ≡ (if splits_box line.now then 0 else parts) }
{
    match line {
        TreeLine::Split { .. } | TreeLine::Needed { .. } => 0,
        TreeLine::Leaf(_) | TreeLine::Step { .. } => parts,
    }
}

// The line of a place: a leaf where it is not split or shows the claim and the tree is pruned.
fn line_at(
    instance: &Instance,
    graph: &FlowGraph,
    tree: &Tree,
    index: usize,
    target: Target,
    room: &mut NeedRoom,
) -> Result<TreeLine, Memory>
    requires inside { index < length tree.now.places }
    requires graph { GraphOf instance.now graph.now }
    requires root { tree.now.root ≡ root_ranges instance.now graph.now }
    requires needs { KeepsNeeds graph.now tree.now }
    requires reached { LeavesReach target.claim tree.now }
    requires room { IsNeedRoomOf graph.now room.old }
    ensures line { IfOk result (λ l. (p : Place) → slice_get tree.now.places index ≡ Some p → IsLineOf instance.now graph.now (box_of tree.now.root p) target p l) }
    ensures parts { IfOk result HasFewParts }
    ensures room { IsNeedRoomOf graph.now room.new }
{
    let place = &tree.places()[index];
    match told_split(place, target) {
        Some(split) => split_line(instance, graph, tree, index, split, target.goal, room),
        None => Ok(TreeLine::Leaf(prices_again(&place.shown.prices)?)),
    }
}

// The split that the line of a place tells; none where the line is a leaf.
fn told_split(place: &Place, target: Target) -> Option<SplitAt>
    requires { place.now.split ≡ None → Reaches place.now.shown.claim target.claim }
    ensures some { IfSome result (λ s. place.now.split ≡ Some s) }
    ensures none { IsNone result → MakesLeaf target place.now }
{
    match place.split {
        Some(_) if target.is_pruned && reaches(&place.shown.claim, &target.claim) => None,
        split => split,
    }
}

// The line of a split, with its need where that holds for the goal and has few parts.
fn split_line(
    instance: &Instance,
    graph: &FlowGraph,
    tree: &Tree,
    index: usize,
    split: SplitAt,
    goal: Option<u64>,
    room: &mut NeedRoom,
) -> Result<TreeLine, Memory>
    requires inside { index < length tree.now.places }
    requires graph { GraphOf instance.now graph.now }
    requires root { tree.now.root ≡ root_ranges instance.now graph.now }
    requires needs { KeepsNeeds graph.now tree.now }
    requires room { IsNeedRoomOf graph.now room.old }
    ensures line { IfOk result (λ l. (p : Place) → slice_get tree.now.places index ≡ Some p → IsSplitLine instance.now graph.now (box_of tree.now.root p) goal split l) }
    ensures parts { IfOk result HasFewParts }
    ensures room { IsNeedRoomOf graph.now room.new }
{
    let SplitAt { arc, k } = split;
    if let Some(need) = &tree.places()[index].need {
        if need.parts.as_slice().len() <= MAX_PARTS {
            let ranges = tree.box_at(index)?;
            if check_need(instance, graph, &ranges, goal, need, room) {
                let need = need_again(need)?;
                return Ok(TreeLine::Needed { arc, k, need });
            }
        }
    }
    Ok(TreeLine::Split { arc, k })
}

/// Whether what is shown is at least what is claimed: that a box is empty shows every bound.
pub fn reaches(shown: &Claim, claim: &Claim) -> bool
    ensures { IsTrue result ↔ Reaches shown.now claim.now }
{
    match (shown, claim) {
        (Claim::Empty, _) => true,
        (Claim::Bound(_), Claim::Empty) => false,
        (Claim::Bound(shown), Claim::Bound(bound)) => bound <= shown,
    }
}
