//! Lines that wait to be judged together.

use crate::stage::{Stage, behind};
use crate::verdict::Verdict;
use arc_num::{MAX_BATCH, MAX_LINE, MAX_WORKERS};
use cert_checker::{CheckFault, Checker};
use cert_text::{CertLine, Claim};
use std::alloc::Global;
use std::marker::Model;
use std::thread::Threads;

/// A checker, and lines that wait behind those that it has taken. So many lines are judged together as may be, or as many as have
/// the bytes of the longest line together.
#[derive(Drop)]
pub(crate) struct Batch<'a> {
    checker: Checker<'a>,
    lines: Vec<CertLine>,
    bytes: usize,
    workers: u32,
}

impl<'a> Model for Batch<'a> {
    ghost use Rattle.arc_num.specs.declared.TheConstants.{MAX_WORKERS};
    ghost use Rattle.packing_laws.specs.Instances.{IsAmong};
    ghost use Rattle.cert_stream.specs.inner.Batches.{BatchValue};

    ghost Value = { BatchValue };

    ghost view = { λ s. record { checker = s.checker; lines = s.lines.items } };

    ghost invariant = { λ s. IsAmong s.workers MAX_WORKERS };
}

impl<'a> Batch<'a> {
    ghost use Rattle.std.specs.Prelude.{◌≡◌, ◌+◌, ◌<◌, ◌≤◌, ◌^◌, [], ◌∷◌, None, OnOk, length};
    ghost use Rattle.packing_laws.specs.Instances.{IsAmong};
    ghost use Rattle.cert_text.specs.declared.lines.CertLine.{CertLine};
    ghost use Rattle.cert_checker.specs.Checkers.{IsFinished};
    ghost use Rattle.cert_stream.specs.inner.Batches.{IsJudged, IsMoved, IsStopped};

    /// No line waits yet. It takes no memory.
    pub(crate) fn new(alloc: Global, checker: Checker<'a>, workers: u32) -> Batch<'a>
        requires { IsAmong workers MAX_WORKERS }
        ensures { result ≡ record { checker = checker.entry; lines = [] } }
    {
        Batch {
            checker,
            lines: Vec::new(alloc),
            bytes: 0,
            workers,
        }
    }

    /// Adds a line of so many bytes, and judges all that wait where they are enough.
    pub(crate) fn push<R: Threads + Sync>(
        &mut self,
        rt: &R,
        line: CertLine,
        bytes: usize,
    ) -> Result<(), CheckFault>
        requires free { self.old.checker.refusal ≡ None }
        requires few { self.old.checker.progress.count + length self.old.lines < 2 ^ 62 }
        ensures { IsMoved self.old (line ∷ []) result self.new }
    {
        if self.lines.push(line).is_err() {
            return Err(CheckFault::Memory);
        }
        self.bytes = self.bytes.saturating_add(bytes);
        if self.lines.len() < MAX_BATCH && self.bytes < MAX_LINE {
            return Ok(());
        }
        self.flush(rt)
    }

    /// Judges all lines that wait.
    pub(crate) fn flush<R: Threads + Sync>(&mut self, rt: &R) -> Result<(), CheckFault>
        requires free { self.old.checker.refusal ≡ None }
        requires few { self.old.checker.progress.count + length self.old.lines ≤ 2 ^ 62 }
        ensures judged { IsJudged self.old.checker self.old.lines result self.new.checker }
        ensures none { OnOk result (self.new.lines ≡ []) }
    {
        match self
            .checker
            .step_batch(rt, self.lines.as_slice(), self.workers)
        {
            Ok(()) => {
                self.lines.clear();
                self.bytes = 0;
                Ok(())
            }
            Err(fault) => Err(fault),
        }
    }

    /// Judges all lines that wait, and answers a verdict that stands behind them, unless one of them is refused.
    pub(crate) fn stop<R: Threads + Sync>(&mut self, rt: &R, verdict: Verdict) -> Stage
        requires free { self.old.checker.refusal ≡ None }
        requires few { self.old.checker.progress.count + length self.old.lines ≤ 2 ^ 62 }
        ensures { IsStopped self.old verdict result }
    {
        match self.flush(rt) {
            Ok(()) => Stage::Certain(verdict),
            Err(fault) => behind(fault),
        }
    }

    /// What the lines that are judged claim, or that they do not reach the end.
    pub(crate) fn finish(self) -> Result<Claim, CheckFault>
        ensures { IsFinished self.entry.checker result }
    {
        self.checker.finish()
    }
}
