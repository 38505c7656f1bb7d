//! How far a certificate was read.

use crate::judging;
use crate::lines::LineRef;
use crate::places::{is_claim_place, is_head_place, is_tree_place};
use crate::trails::Walk;
use arc_num::Memory;
use cert_laws::Cause;
use cert_text::{Claim, TreeLine};
use flow_graph::FlowGraph;
use flow_model::FlowBox;
use needs_check::NeedRoom;
use packing_laws::Instance;
use path_prices::Scratch;
use std::alloc::Global;
use std::marker::Model;

/// What the lines so far have told, and which boxes they leave open.
#[derive(Debug, Drop)]
pub(crate) struct Standing {
    count: u64,
    version: u32,
    claim: Claim,
    goal: Option<u64>,
    walk: Walk,
    is_ended: bool,
}

impl Model for Standing {
    ghost use Rattle.std.specs.Prelude.{◌≤◌};
    ghost use Rattle.cert_text.specs.Lines.{IsClaim};
    ghost use Rattle.cert_checker.specs.inner.Standing.{StandingValue, most_lines};

    ghost Value = { StandingValue };

    ghost view = { λ s. record { root = s.walk.root; progress = record { count = s.count; version = s.version; claim = s.claim; goal = s.goal; boxes = s.walk.boxes; ended = s.is_ended } } };

    ghost invariant = { λ s. IsClaim s.claim × (s.count ≤ most_lines) };
}

impl Standing {
    ghost use Rattle.std.specs.Prelude.{◌≡◌, ◌+◌, ◌≤◌, ◌<◌, true, List, [], ◌∷◌, IfOk, OnOk, OnErr, length};
    ghost use Rattle.packing_laws.specs.Instances.{InstanceValue};
    ghost use Rattle.flow_graph.specs.Arcs.{TypeValue, numbered};
    ghost use Rattle.flow_graph.specs.Faithful.{GraphOf};
    ghost use Rattle.cert_text.specs.declared.lines.CertLine.{CertLine};
    ghost use Rattle.cert_laws.specs.Rules.{after_line, first_box, SplitsBox};
    ghost use Rattle.path_prices.specs.Scratches.{IsScratchOf};
    ghost use Rattle.needs_check.specs.Rooms.{IsNeedRoomOf};
    ghost use Rattle.cert_checker.specs.inner.Judging.{IsVerdict};
    ghost use Rattle.cert_checker.specs.inner.Standing.{IsTold, first_progress, most_lines};
    ghost use Rattle.cert_checker.specs.inner.Runs.{behind};
    ghost use Rattle.cert_checker.specs.inner.LineRefs.{line_of};

    /// Before the first line, with the root box open.
    pub(crate) fn new(alloc: Global, root: FlowBox) -> Standing
        ensures root { result.root ≡ root }
        ensures progress { result.progress ≡ first_progress root }
    {
        Standing {
            count: 0,
            version: 0,
            claim: Claim::Empty,
            goal: None,
            walk: Walk::new(alloc, root),
            is_ended: false,
        }
    }

    /// The same once more.
    pub(crate) fn copied(&self) -> Result<Standing, Memory>
        ensures { IfOk result (λ standing. standing ≡ self.now) }
    {
        Ok(Standing {
            count: self.count,
            version: self.version,
            claim: self.claim,
            goal: self.goal,
            walk: self.walk.copied()?,
            is_ended: self.is_ended,
        })
    }

    /// How many lines count.
    pub(crate) fn count(&self) -> u64
        ensures value { result ≡ self.now.progress.count }
        ensures known { result ≤ most_lines }
    {
        self.count
    }

    /// Whether the end counts.
    pub(crate) fn is_ended(&self) -> bool
        ensures { result ≡ self.now.progress.ended }
    {
        self.is_ended
    }

    /// What is claimed.
    pub(crate) fn claim(&self) -> Claim
        ensures { result ≡ self.now.progress.claim }
    {
        self.claim
    }

    /// Tells the head.
    pub(crate) fn tell_head(&mut self, version: u32) -> Option<Cause>
        requires { self.old.progress.count < most_lines }
        ensures { (I : InstanceValue) (g : List TypeValue) → IsTold I g self.old (CertLine.Head version) result self.new }
    {
        if self.is_ended {
            return Some(Cause::Extra);
        }
        if !is_head_place(self.count, version) {
            return Some(Cause::Text);
        }
        self.version = version;
        self.count += 1;
        None
    }

    /// Tells the claim.
    pub(crate) fn tell_claim(&mut self, claim: Claim, goal: Option<u64>) -> Option<Cause>
        requires { self.old.progress.count < most_lines }
        ensures { (I : InstanceValue) (g : List TypeValue) → IsTold I g self.old (CertLine.Claim claim goal) result self.new }
    {
        if self.is_ended {
            return Some(Cause::Extra);
        }
        if !is_claim_place(self.count, self.version, &claim, goal) {
            return Some(Cause::Text);
        }
        self.claim = claim;
        self.goal = goal;
        self.count += 1;
        None
    }

    /// Tells the end.
    pub(crate) fn tell_end(&mut self) -> Option<Cause>
        requires { self.old.progress.count < most_lines }
        ensures { (I : InstanceValue) (g : List TypeValue) → IsTold I g self.old CertLine.End result self.new }
    {
        if self.is_ended {
            return Some(Cause::Extra);
        }
        if self.count < 2 {
            return Some(Cause::Text);
        }
        if self.walk.is_open() {
            return Some(Cause::Unfinished);
        }
        self.is_ended = true;
        self.count += 1;
        None
    }

    /// The first rule that a place of the tree breaks as the next line.
    fn place_cause(
        &self,
        instance: &Instance,
        graph: &FlowGraph,
        line: &TreeLine,
        scratch: &mut Scratch,
        room: &mut NeedRoom,
    ) -> Option<Cause>
        requires graph { GraphOf instance.now graph.now }
        requires root { length self.now.root ≡ length (numbered graph.now) }
        requires items { scratch.old.items ≡ length instance.now.items }
        requires scratch { IsScratchOf graph.now scratch.old }
        requires room { IsNeedRoomOf graph.now room.old }
        ensures scratch { scratch.new ≡ scratch.old }
        ensures room { IsNeedRoomOf graph.now room.new }
        ensures verdict { IsVerdict instance.now graph.now self.now.progress (CertLine.Tree line.now) result }
    {
        if self.is_ended {
            return Some(Cause::Extra);
        }
        if !is_tree_place(self.count, self.version, line) {
            return Some(Cause::Text);
        }
        if !self.walk.is_open() {
            return Some(Cause::Extra);
        }
        let first = self.walk.first();
        judging::place_cause(
            instance,
            graph,
            first,
            &self.claim,
            self.goal,
            line,
            scratch,
            room,
        )
    }

    /// Tells a place of the tree.
    pub(crate) fn tell_place(
        &mut self,
        instance: &Instance,
        graph: &FlowGraph,
        line: &TreeLine,
        scratch: &mut Scratch,
        room: &mut NeedRoom,
    ) -> Result<Option<Cause>, Memory>
        requires count { self.old.progress.count < most_lines }
        requires graph { GraphOf instance.now graph.now }
        requires root { length self.old.root ≡ length (numbered graph.now) }
        requires items { scratch.old.items ≡ length instance.now.items }
        requires scratch { IsScratchOf graph.now scratch.old }
        requires room { IsNeedRoomOf graph.now room.old }
        ensures scratch { scratch.new ≡ scratch.old }
        ensures room { IsNeedRoomOf graph.now room.new }
        ensures told { IfOk result (λ verdict. IsTold instance.now graph.now self.old (CertLine.Tree line.now) verdict self.new) }
        ensures err { OnErr result (self.new ≡ self.old) }
    {
        if let Some(cause) = self.place_cause(instance, graph, line, scratch, room) {
            return Ok(Some(cause));
        }
        self.pass(line)?;
        Ok(None)
    }

    /// Goes on behind a place of the tree.
    fn pass(&mut self, line: &TreeLine) -> Result<(), Memory>
        requires count { self.old.progress.count < most_lines }
        requires some { 0 < length self.old.progress.boxes }
        requires genuine { SplitsBox (first_box self.old.progress.boxes) line.now }
        ensures ok { OnOk result (self.new ≡ record { root = self.old.root; progress = after_line self.old.progress (CertLine.Tree line.now) }) }
        ensures err { OnErr result (self.new ≡ self.old) }
    {
        self.walk.pass(line)?;
        self.count += 1;
        Ok(())
    }

    /// Goes on behind a line as if it were accepted, and tells whether it could.
    pub(crate) fn skip(&mut self, line: LineRef<'_>) -> Result<bool, Memory>
        requires { self.old.progress.count < most_lines }
        ensures { IfOk result (λ done. done ≡ true → self.new ≡ behind self.old (line_of line.entry ∷ [])) }
    {
        match line {
            LineRef::Head { version } => Ok(self.tell_head(version).is_none()),
            LineRef::Claim { claim, goal } => Ok(self.tell_claim(claim, goal).is_none()),
            LineRef::Place(line) => self.skip_place(line),
            LineRef::End => Ok(self.tell_end().is_none()),
        }
    }

    /// Goes on behind a place of the tree, and tells whether it could.
    fn skip_place(&mut self, line: &TreeLine) -> Result<bool, Memory>
        requires { self.old.progress.count < most_lines }
        ensures { IfOk result (λ done. done ≡ true → self.new ≡ behind self.old (CertLine.Tree line.now ∷ [])) }
    {
        if !self.walk.is_open() || !judging::splits(self.walk.first(), line) {
            return Ok(false);
        }
        self.pass(line)?;
        Ok(true)
    }
}
