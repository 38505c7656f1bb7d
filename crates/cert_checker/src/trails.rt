//! Walks through the boxes of a tree: one box, and a branch for each split on the way to it.

ghost use Rattle.std.specs.Prelude.{◌≡◌, [], ◌∷◌, ◌++◌, ◌<◌, List, OnErr, OnOk, true, false, length, reverse};
ghost use Rattle.flow_graph.specs.Chords.{IsGenuine};
ghost use Rattle.cert_checker.specs.Trails.{LeadsTo, IsBranch, root_of, waiting, open_boxes, beside};
ghost use Rattle.cert_checker.specs.inner.Turns.{IsLowBranch, other_branch};
ghost use Rattle.cert_checker.specs.declared.trails.Branch.{Branch};

use arc_num::Memory;
use cert_text::TreeLine;
use flow_model::FlowBox;
use std::alloc::Global;
use std::marker::Model;

/// A split on the way to the first open box.
#[derive(Clone, Copy, Debug, PartialEq, Eq)]
pub(crate) struct Branch {
    /// The arc whose range was split.
    pub(crate) arc: u32,
    /// The range that comes back: from here
    pub(crate) lower: u32,
    /// to here.
    pub(crate) upper: u32,
    /// Whether the low part is open, so that the high part waits.
    pub(crate) low: bool,
}

/// The open boxes of a tree.
#[derive(Debug, Drop)]
pub(crate) struct Walk {
    first: FlowBox,
    trail: Vec<Branch>,
    is_open: bool,
}

impl Model for Walk {
    ghost use Rattle.std.specs.Prelude.{◌≡◌, false, [], reverse};
    ghost use Rattle.cert_checker.specs.Trails.{WalkValue, LeadsTo, open_boxes, root_of};

    ghost Value = { WalkValue };

    ghost view = { λ w. record { root = root_of w.first (reverse w.trail.items); boxes = open_boxes w.is_open w.first (reverse w.trail.items) } };

    ghost invariant = { λ w. LeadsTo w.first (reverse w.trail.items) × (w.is_open ≡ false → w.trail.items ≡ []) };
}

impl Walk {
    ghost use Rattle.std.specs.Prelude.{◌≡◌, [], ◌∷◌, ◌↔◌, ◌<◌, IfOk, OnErr, OnOk, IsTrue, length};
    ghost use Rattle.flow_graph.specs.Chords.{IsGenuine};
    ghost use Rattle.cert_text.specs.declared.lines.TreeLine.{TreeLine};
    ghost use Rattle.cert_laws.specs.Rules.{first_box, opened_by, SplitsBox};

    /// A walk that begins in this box.
    pub(crate) fn new(alloc: Global, root: FlowBox) -> Walk
        ensures root { result.root ≡ root }
        ensures boxes { result.boxes ≡ root ∷ [] }
    {
        Walk {
            first: root,
            trail: Vec::new(alloc),
            is_open: true,
        }
    }

    /// The same walk once more.
    pub(crate) fn copied(&self) -> Result<Walk, Memory>
        ensures { IfOk result (λ walk. walk ≡ self.now) }
    {
        Ok(Walk {
            first: self.first.clone()?,
            trail: self.trail.clone()?,
            is_open: self.is_open,
        })
    }

    /// Whether a box is open.
    pub(crate) fn is_open(&self) -> bool
        ensures { IsTrue result ↔ (0 < length self.now.boxes) }
    {
        self.is_open
    }

    /// The first open box.
    pub(crate) fn first(&self) -> &FlowBox
        requires { 0 < length self.now.boxes }
        ensures value { result.now ≡ first_box self.now.boxes }
        ensures size { length result.now ≡ length self.now.root }
    {
        &self.first
    }

    /// Goes on behind a place of the tree: to the low part of a split, or to the next box.
    pub(crate) fn pass(&mut self, line: &TreeLine) -> Result<(), Memory>
        requires some { 0 < length self.old.boxes }
        requires genuine { SplitsBox (first_box self.old.boxes) line.now }
        ensures root { self.new.root ≡ self.old.root }
        ensures ok { OnOk result (self.new.boxes ≡ opened_by line.now self.old.boxes) }
        ensures err { OnErr result (self.new.boxes ≡ self.old.boxes) }
    {
        match line {
            TreeLine::Split { arc, k } => self.split(*arc, *k),
            TreeLine::Needed { arc, k, .. } => self.split(*arc, *k),
            TreeLine::Leaf(_) | TreeLine::Step { .. } => {
                self.close();
                Ok(())
            }
        }
    }

    /// Puts the two parts of the first box into its place.
    fn split(&mut self, arc: u32, cut: u32) -> Result<(), Memory>
        requires some { 0 < length self.old.boxes }
        requires genuine { IsGenuine (first_box self.old.boxes) arc cut }
        ensures root { self.new.root ≡ self.old.root }
        ensures ok { OnOk result (self.new.boxes ≡ opened_by (TreeLine.Split arc cut) self.old.boxes) }
        ensures err { OnErr result (self.new.boxes ≡ self.old.boxes) }
    {
        go_down(&mut self.first, &mut self.trail, arc, cut)
    }

    /// Takes the first box away.
    fn close(&mut self)
        requires some { 0 < length self.old.boxes }
        ensures root { self.new.root ≡ self.old.root }
        ensures boxes { self.old.boxes ≡ first_box self.old.boxes ∷ self.new.boxes }
    {
        self.is_open = go_back(&mut self.first, &mut self.trail);
    }
}

// Goes on to the low part of a split of the box.
fn go_down(first: &mut FlowBox, trail: &mut Vec<Branch>, arc: u32, cut: u32) -> Result<(), Memory>
    requires { IsGenuine first.old arc cut }
    ensures ok { OnOk result (IsLowBranch first.old arc cut first.new (reverse trail.old.items) (reverse trail.new.items)) }
    ensures err { OnErr result ((first.new ≡ first.old) × (trail.new.items ≡ trail.old.items)) }
{
    let Some((lower, upper)) = first.range(arc) else {
        unreachable!()
    };
    trail.push(Branch {
        arc,
        lower,
        upper,
        low: true,
    })?;
    first.set_range(arc, lower, cut);
    Ok(())
}

// Goes back to the innermost low part, and on to the high part beside it. Tells whether there is one.
fn go_back(first: &mut FlowBox, trail: &mut Vec<Branch>) -> bool
    requires { LeadsTo first.old (reverse trail.old.items) }
    ensures leads { LeadsTo first.new (reverse trail.new.items) }
    ensures root { root_of first.new (reverse trail.new.items) ≡ root_of first.old (reverse trail.old.items) }
    ensures none { result ≡ false → trail.new.items ≡ [] }
    ensures boxes { waiting first.old (reverse trail.old.items) ≡ open_boxes result first.new (reverse trail.new.items) }
{
    while let Some(branch) = trail.last().copied() {
        if branch.low {
            turn(first, trail, branch);
            return true;
        }
        trail.pop();
        first.set_range(branch.arc, branch.lower, branch.upper);
    }
    false
}

// Goes over from the low part of the innermost branch to its high part.
fn turn(first: &mut FlowBox, trail: &mut Vec<Branch>, branch: Branch)
    requires last { (outer : List Branch) × (trail.old.items ≡ outer ++ branch ∷ []) }
    requires low { branch.low ≡ true }
    requires leads { IsBranch branch first.old }
    ensures first { first.new ≡ beside branch first.old }
    ensures trail { (outer : List Branch) → trail.old.items ≡ outer ++ branch ∷ [] → trail.new.items ≡ outer ++ other_branch branch ∷ [] }
{
    let Some((_, cut)) = first.range(branch.arc) else {
        unreachable!()
    };
    first.set_range(branch.arc, cut + 1, branch.upper);
    let last = trail.len() - 1;
    trail[last].low = false;
}
