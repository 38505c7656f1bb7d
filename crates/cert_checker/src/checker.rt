//! The checker, which takes the lines one after the other.

ghost use Rattle.std.specs.Prelude.{◌≡◌, Some};
ghost use Rattle.cert_checker.specs.Faults.{refusal_of};

use crate::faults::CheckFault;
use crate::lines::Line;
use crate::runs::side_by_side;
use crate::standing::Standing;
use arc_num::{Gate, MAX_WORKERS, Memory, NoGate};
use cert_laws::{Cause, certified_is_so};
use cert_text::{CertLine, Claim, TreeLine};
use flow_graph::FlowGraph;
use flow_model::{flows_lie_in_root, root_box};
use needs_check::NeedRoom;
use packing_laws::Instance;
use path_prices::Scratch;
use std::alloc::Global;
use std::marker::Model;
use std::thread::Threads;

/// Takes the lines of a certificate one after the other. It keeps one box and a branch for each split on the way to it, and no
/// list of lines. After a refusal each later call answers the same.
#[derive(Debug, Drop)]
pub struct Checker<'a> {
    alloc: Global,
    instance: &'a Instance,
    graph: &'a FlowGraph,
    standing: Standing,
    scratch: Scratch,
    room: NeedRoom,
    refusal: Option<(u64, Cause)>,
}

impl<'a> Model for Checker<'a> {
    ghost use Rattle.cert_checker.specs.Checkers.{CheckerValue};
    ghost use Rattle.cert_checker.specs.inner.Ready.{IsReady};

    ghost Value = { CheckerValue };

    ghost view = { λ s. record { instance = s.instance.now; graph = s.graph.now; progress = s.standing.progress; refusal = s.refusal } };

    ghost invariant = { λ s. IsReady s.instance.now s.graph.now s.standing s.scratch s.room };
}

impl<'a> Checker<'a> {
    ghost use Rattle.std.specs.Prelude.{◌≡◌, ◌+◌, ◌^◌, ◌<◌, ◌≤◌, None, IfOk, length, map};
    ghost use Rattle.flow_graph.specs.Faithful.{GraphOf, IsFaithful};
    ghost use Rattle.cert_laws.specs.Shown.{Shows};
    ghost use Rattle.cert_text.specs.declared.lines.CertLine.{CertLine};
    ghost use Rattle.cert_laws.specs.Rules.{at_start};
    ghost use Rattle.cert_checker.specs.Checkers.{IsStepped, IsSteppedBy, IsFinished};
    ghost use Rattle.packing_laws.specs.Instances.{IsAmong};
    ghost use Rattle.cert_checker.specs.inner.Standing.{most_lines};
    ghost use Rattle.cert_checker.specs.inner.Ready.{IsSettled};
    ghost use Rattle.arc_num.specs.declared.TheConstants.{MAX_WORKERS};

    /// A checker before the first line.
    pub fn new(
        alloc: Global,
        instance: &'a Instance,
        graph: &'a FlowGraph,
    ) -> Result<Checker<'a>, Memory>
        requires { GraphOf instance.now graph.now }
        ensures { IfOk result (λ s. s ≡ record { instance = instance.now; graph = graph.now; progress = at_start instance.now graph.now; refusal = None }) }
    {
        flows_lie_in_root();
        let root = root_box(alloc, instance, graph)?;
        let scratch = Scratch::new(alloc, graph, instance)?;
        let room = NeedRoom::new(alloc, graph, instance)?;
        Ok(Checker {
            alloc,
            instance,
            graph,
            standing: Standing::new(alloc, root),
            scratch,
            room,
            refusal: None,
        })
    }

    /// Takes the next line.
    pub fn step(&mut self, line: &CertLine) -> Result<(), CheckFault>
        requires { self.old.progress.count < 2 ^ 62 }
        ensures { IsStepped self.old line.now result self.new }
    {
        match line {
            CertLine::Head { version } => self.step_head(*version),
            CertLine::Claim { claim, goal } => self.step_claim(*claim, *goal),
            CertLine::Tree(place) => self.step_place(place),
            CertLine::End => self.step_end(),
        }
    }

    /// Takes the next lines, whose leaves are judged side by side, by as many workers as there are. The result does not depend on
    /// their number. Each worker has a box, a trail and rooms of its own while the call lasts.
    pub fn step_batch<R: Threads + Sync>(
        &mut self,
        rt: &R,
        lines: &[CertLine],
        workers: u32,
    ) -> Result<(), CheckFault>
        requires workers { IsAmong workers MAX_WORKERS }
        requires few { self.old.progress.count + length lines.now ≤ 2 ^ 62 }
        ensures { IsSteppedBy self.old lines.now result self.new }
    {
        self.step_all(rt, lines, workers, &NoGate)
    }

    /// Takes the next lines, each leaf once the gate has let it through.
    pub(crate) fn step_all<R: Threads + Sync, G: Gate + Sync, T: Line>(
        &mut self,
        rt: &R,
        lines: &[T],
        workers: u32,
        gate: &G,
    ) -> Result<(), CheckFault>
        requires { self.old.progress.count + length lines.now ≤ most_lines }
        ensures { IsSteppedBy self.old (map T.told lines.now) result self.new }
    {
        if let Some((line, cause)) = self.refusal {
            return Err(fault_at(line, cause));
        }
        let judged = side_by_side(
            rt,
            self.alloc,
            self.instance,
            self.graph,
            gate,
            &self.standing,
            lines,
            0,
            workers,
        )?;
        self.standing = judged.standing;
        self.settle(judged.refusal)
    }

    /// Answers what the certificate shows, after its last line. It takes no memory. Over a faithful graph no packing costs less
    /// than a bound that is answered, or there is none.
    pub fn finish(self) -> Result<Claim, CheckFault>
        ensures finished { IsFinished self.entry result }
        ensures shown { IsFaithful self.entry.instance self.entry.graph → IfOk result (λ claim. Shows self.entry.instance claim) }
    {
        certified_is_so();
        self.instance.known();
        self.graph.known();
        if let Some((line, cause)) = self.refusal {
            return Err(fault_at(line, cause));
        }
        if !self.standing.is_ended() {
            let line = self.standing.count() + 1;
            return Err(CheckFault::Unfinished { line });
        }
        Ok(self.standing.claim())
    }

    /// Takes the head.
    pub(crate) fn step_head(&mut self, version: u32) -> Result<(), CheckFault>
        requires { self.old.progress.count < most_lines }
        ensures { IsStepped self.old (CertLine.Head version) result self.new }
    {
        if let Some((line, cause)) = self.refusal {
            return Err(fault_at(line, cause));
        }
        let verdict = self.standing.tell_head(version);
        self.settle(verdict)
    }

    /// Takes the claim.
    pub(crate) fn step_claim(&mut self, claim: Claim, goal: Option<u64>) -> Result<(), CheckFault>
        requires { self.old.progress.count < most_lines }
        ensures { IsStepped self.old (CertLine.Claim claim goal) result self.new }
    {
        if let Some((line, cause)) = self.refusal {
            return Err(fault_at(line, cause));
        }
        let verdict = self.standing.tell_claim(claim, goal);
        self.settle(verdict)
    }

    /// Takes the end.
    pub(crate) fn step_end(&mut self) -> Result<(), CheckFault>
        requires { self.old.progress.count < most_lines }
        ensures { IsStepped self.old CertLine.End result self.new }
    {
        if let Some((line, cause)) = self.refusal {
            return Err(fault_at(line, cause));
        }
        let verdict = self.standing.tell_end();
        self.settle(verdict)
    }

    /// Takes a place of the tree.
    pub(crate) fn step_place(&mut self, place: &TreeLine) -> Result<(), CheckFault>
        requires { self.old.progress.count < most_lines }
        ensures { IsStepped self.old (CertLine.Tree place.now) result self.new }
    {
        if let Some((line, cause)) = self.refusal {
            return Err(fault_at(line, cause));
        }
        let verdict = self.standing.tell_place(
            self.instance,
            self.graph,
            place,
            &mut self.scratch,
            &mut self.room,
        )?;
        self.settle(verdict)
    }

    // Keeps the refusal of the next line, if there is one, and answers it.
    fn settle(&mut self, verdict: Option<Cause>) -> Result<(), CheckFault>
        requires { self.old.refusal ≡ None }
        ensures { IsSettled self.old verdict result self.new }
    {
        match verdict {
            None => Ok(()),
            Some(cause) => {
                let line = self.standing.count() + 1;
                self.refusal = Some((line, cause));
                Err(fault_at(line, cause))
            }
        }
    }
}

/// The fault of a line.
fn fault_at(line: u64, cause: Cause) -> CheckFault
    ensures { refusal_of result ≡ Some (line, cause) }
{
    match cause {
        Cause::Text => CheckFault::Text { line },
        Cause::Extra => CheckFault::Extra { line },
        Cause::Unfinished => CheckFault::Unfinished { line },
        Cause::NoItem => CheckFault::NoItem { line },
        Cause::NoArc => CheckFault::NoArc { line },
        Cause::NotSplit => CheckFault::NotSplit { line },
        Cause::NotNeeded => CheckFault::NotNeeded { line },
        Cause::NotStep => CheckFault::NotStep { line },
        Cause::Gain { t } => CheckFault::Gain { line, t },
        Cause::Weak => CheckFault::Weak { line },
    }
}
