//! A judge, which is fed a text in pieces.

ghost use Rattle.std.specs.Prelude.{◌≡◌, IfOk};
ghost use Rattle.cert_text.specs.Streams.{is_end};

use crate::batch::Batch;
use crate::stage::{Stage, behind};
use crate::verdict::Verdict;
use arc_num::{MAX_CERT, MAX_WORKERS, Memory};
use cert_checker::Checker;
use cert_laws::Cause;
use cert_text::{CertLine, CertReader, LineAnswer};
use flow_graph::FlowGraph;
use packing_laws::Instance;
use std::alloc::Global;
use std::marker::Model;
use std::thread::Threads;

/// Judges a certificate whose text comes in pieces. It keeps a batch of lines and the bytes of one more, and what a checker keeps:
/// so a text of any length takes the memory of the depth of its tree. After want of memory each later call answers the same.
#[derive(Drop)]
pub struct Judge<'a> {
    batch: Batch<'a>,
    reader: CertReader,
    /// How many bytes and whole lines were taken, and whether the last line was the end line.
    taken: u64,
    lines: u64,
    is_ended: bool,
    stage: Stage,
}

impl<'a> Model for Judge<'a> {
    ghost use Rattle.std.specs.Prelude.{◌≡◌};
    ghost use Rattle.cert_stream.specs.Judges.{JudgeValue};
    ghost use Rattle.cert_stream.specs.inner.Within.{IsWithinAt};

    ghost Value = { JudgeValue };

    ghost view = { λ s. record { batch = s.batch; reader = s.reader; taken = s.taken; stage = s.stage } };

    ghost invariant = { λ s. IsWithinAt s.stage s.batch s.reader s.taken × (s.lines ≡ s.reader.read) × (s.is_ended ≡ s.reader.ended) };
}

impl<'a> Judge<'a> {
    ghost use Rattle.std.specs.Prelude.{◌≡◌, ◌≢◌, ◌++◌, ◌+◌, ◌<◌, ◌≤◌, ℕ, List, [], true, false, length, IfOk, OnOk, MatchOption, IsTrue};
    ghost use Rattle.packing_laws.specs.Instances.{InstanceValue, IsAmong};
    ghost use Rattle.flow_graph.specs.Arcs.{TypeValue};
    ghost use Rattle.flow_graph.specs.Faithful.{GraphOf};
    ghost use Rattle.cert_stream.specs.Verdicts.{IsCertain, IsSound, IsVerdict};
    ghost use Rattle.cert_stream.specs.Judges.{IsFed, IsFedAt, IsRead, IsReadOut, IsReadOutAt};

    /// A judge that was fed nothing.
    pub fn new(
        alloc: Global,
        instance: &'a Instance,
        graph: &'a FlowGraph,
        workers: u32,
    ) -> Result<Judge<'a>, Memory>
        requires graph { GraphOf instance.now graph.now }
        requires workers { IsAmong workers MAX_WORKERS }
        ensures { IfOk result (λ s. IsFed instance.now graph.now [] s) }
    {
        let checker = Checker::new(alloc, instance, graph)?;
        Ok(Judge {
            batch: Batch::new(alloc, checker, workers),
            reader: CertReader::new(alloc),
            taken: 0,
            lines: 0,
            is_ended: false,
            stage: Stage::Open,
        })
    }

    /// Takes the next piece of the text, of any length, and answers whether the verdict is certain now, however the text goes on.
    /// A line that is wrong may wait some lines until this is answered.
    pub fn feed<R: Threads + Sync>(&mut self, rt: &R, piece: &[u8]) -> Result<bool, Memory>
        ensures fed { (I : InstanceValue) (g : List TypeValue) (bytes : List ℕ) → IsFed I g bytes self.old → OnOk result (IsFed I g (bytes ++ piece.now) self.new) }
        ensures certain { (I : InstanceValue) (g : List TypeValue) (bytes : List ℕ) → IsFed I g bytes self.old → IfOk result (λ certain. IsTrue certain → (verdict : Verdict) × IsCertain I g (bytes ++ piece.now) verdict) }
        ensures few { (I : InstanceValue) (g : List TypeValue) (bytes : List ℕ) → IsFed I g bytes self.old → IfOk result (λ certain. certain ≡ false → length (bytes ++ piece.now) ≤ MAX_CERT) }
    {
        self.take(rt, piece);
        match self.stage {
            Stage::Open => Ok(false),
            Stage::Certain(_) => Ok(true),
            Stage::Spent => Err(Memory),
        }
    }

    /// Judges all lines that came, and answers the verdict where it is certain, however the text goes on; else nothing is wrong so
    /// far. So where the text cannot be read on, a fault of what came before is known.
    pub fn verdict_so_far<R: Threads + Sync>(&mut self, rt: &R) -> Result<Option<Verdict>, Memory>
        ensures fed { (I : InstanceValue) (g : List TypeValue) (bytes : List ℕ) → IsFed I g bytes self.old → OnOk result (IsFed I g bytes self.new) }
        ensures known { (I : InstanceValue) (g : List TypeValue) (bytes : List ℕ) → IsFed I g bytes self.old → IfOk result (λ found. MatchOption found (IsSound I g bytes) (λ verdict. IsCertain I g bytes verdict)) }
    {
        self.judge_all(rt);
        match self.stage {
            Stage::Open => Ok(None),
            Stage::Certain(verdict) => Ok(Some(verdict)),
            Stage::Spent => Err(Memory),
        }
    }

    /// Answers the verdict on the text, which is at its end.
    pub fn finish<R: Threads + Sync>(self, rt: &R) -> Result<Verdict, Memory>
        ensures { (I : InstanceValue) (g : List TypeValue) (bytes : List ℕ) → IsFed I g bytes self.entry → IfOk result (λ verdict. IsVerdict I g bytes verdict) }
    {
        match self.stage {
            Stage::Open => self.close(rt),
            Stage::Certain(verdict) => Ok(verdict),
            Stage::Spent => Err(Memory),
        }
    }

    // Takes a piece, if more can change the verdict.
    fn take<R: Threads + Sync>(&mut self, rt: &R, piece: &[u8])
        ensures { (I : InstanceValue) (g : List TypeValue) (bytes : List ℕ) → IsFed I g bytes self.old → IsFed I g (bytes ++ piece.now) self.new }
    {
        match self.stage {
            Stage::Open => self.take_within(rt, piece),
            Stage::Certain(_) => {}
            Stage::Spent => {}
        }
    }

    // Takes a piece up to as many bytes as may be. What is behind them only shows that the text is longer.
    fn take_within<R: Threads + Sync>(&mut self, rt: &R, piece: &[u8])
        requires { self.old.stage ≡ Stage.Open }
        ensures { (I : InstanceValue) (g : List TypeValue) (bytes : List ℕ) → IsRead I g bytes self.old → IsFed I g (bytes ++ piece.now) self.new }
    {
        let room = MAX_CERT - self.taken;
        if piece.len() as u64 <= room {
            return self.read(rt, piece);
        }
        self.read(rt, &piece[..room as usize]);
        self.pass_limit(rt);
    }

    // Reads a piece.
    fn read<R: Threads + Sync>(&mut self, rt: &R, piece: &[u8])
        requires is_open { self.old.stage ≡ Stage.Open }
        requires fits { self.old.taken + length piece.now ≤ MAX_CERT }
        ensures { (I : InstanceValue) (g : List TypeValue) (bytes : List ℕ) → IsRead I g bytes self.old → IsFed I g (bytes ++ piece.now) self.new }
    {
        match self.reader.feed(piece) {
            Ok(()) => {
                self.taken += piece.len() as u64;
                self.read_lines(rt);
            }
            Err(_) => self.stage = Stage::Spent,
        }
    }

    // Reads all whole lines.
    fn read_lines<R: Threads + Sync>(&mut self, rt: &R)
        requires { self.old.stage ≡ Stage.Open }
        ensures { (I : InstanceValue) (g : List TypeValue) (bytes : List ℕ) → IsRead I g bytes self.old → IsFed I g bytes self.new }
    {
        while self.read_line(rt) {}
    }

    // Reads the next line, if there is a whole one.
    fn read_line<R: Threads + Sync>(&mut self, rt: &R) -> bool
        requires { self.old.stage ≡ Stage.Open }
        ensures held { (I : InstanceValue) (g : List TypeValue) (bytes : List ℕ) → IsRead I g bytes self.old → IsFedAt I g bytes self.new self.new.stage }
        ensures more { result ≡ true → (self.new.stage ≡ Stage.Open) × (length self.new.reader.unread < length self.old.reader.unread) }
        ensures out { result ≡ false → IsReadOutAt self.new self.new.stage }
    {
        if self.is_ended {
            self.pass_end(rt);
            return false;
        }
        let unread = self.reader.rest();
        let line = self.lines + 1;
        match self.reader.line() {
            LineAnswer::Line(found) => {
                self.lines = line;
                self.is_ended = ends(&found);
                let bytes = unread.saturating_sub(self.reader.rest());
                match self.batch.push(rt, found, bytes) {
                    Ok(()) => true,
                    Err(fault) => {
                        self.stage = behind(fault);
                        false
                    }
                }
            }
            LineAnswer::NotYet => false,
            LineAnswer::Bad { line: _ } => {
                let cause = Cause::Text;
                self.stage = self.batch.stop(rt, Verdict::Faulty { line, cause });
                false
            }
            LineAnswer::Memory => {
                self.stage = Stage::Spent;
                false
            }
        }
    }

    // Behind the end line no byte may stand.
    fn pass_end<R: Threads + Sync>(&mut self, rt: &R)
        requires is_open { self.old.stage ≡ Stage.Open }
        requires ended { self.old.reader.ended ≡ true }
        ensures held { (I : InstanceValue) (g : List TypeValue) (bytes : List ℕ) → IsRead I g bytes self.old → IsFedAt I g bytes self.new self.new.stage }
        ensures out { IsReadOutAt self.new self.new.stage }
    {
        if self.reader.rest() == 0 {
            return;
        }
        let line = self.lines + 1;
        let cause = Cause::Extra;
        self.stage = self.batch.stop(rt, Verdict::Faulty { line, cause });
    }

    // The text is longer than may be.
    fn pass_limit<R: Threads + Sync>(&mut self, rt: &R)
        ensures { (I : InstanceValue) (g : List TypeValue) (bytes more : List ℕ) → IsFed I g bytes self.old → length bytes ≡ MAX_CERT → more ≢ [] → IsFed I g (bytes ++ more) self.new }
    {
        match self.stage {
            Stage::Open => self.stop_at_limit(rt),
            Stage::Certain(_) => {}
            Stage::Spent => {}
        }
    }

    fn stop_at_limit<R: Threads + Sync>(&mut self, rt: &R)
        requires { self.old.stage ≡ Stage.Open }
        ensures { (I : InstanceValue) (g : List TypeValue) (bytes more : List ℕ) → IsRead I g bytes self.old → IsReadOut self.old.reader → length bytes ≡ MAX_CERT → more ≢ [] → IsFed I g (bytes ++ more) self.new }
    {
        let line = self.lines + 1;
        let cause = Cause::Extra;
        if self.is_ended {
            self.stage = self.batch.stop(rt, Verdict::Faulty { line, cause });
        } else {
            self.stage = self.batch.stop(rt, Verdict::TooLong);
        }
    }

    // Judges all lines that wait.
    fn judge_all<R: Threads + Sync>(&mut self, rt: &R)
        ensures fed { (I : InstanceValue) (g : List TypeValue) (bytes : List ℕ) → IsFed I g bytes self.old → IsFed I g bytes self.new }
        ensures none { self.new.stage ≡ Stage.Open → self.new.batch.lines ≡ [] }
    {
        match self.stage {
            Stage::Open => match self.batch.flush(rt) {
                Ok(()) => {}
                Err(fault) => self.stage = behind(fault),
            },
            Stage::Certain(_) => {}
            Stage::Spent => {}
        }
    }

    // Answers the verdict at the end of a text in which no whole line is wrong yet.
    fn close<R: Threads + Sync>(mut self, rt: &R) -> Result<Verdict, Memory>
        requires { self.stage ≡ Stage.Open }
        ensures { (I : InstanceValue) (g : List TypeValue) (bytes : List ℕ) → IsRead I g bytes self.entry → IsReadOut self.entry.reader → IfOk result (λ verdict. IsVerdict I g bytes verdict) }
    {
        if !self.is_ended && self.reader.rest() > 0 {
            let line = self.lines + 1;
            let cause = Cause::Text;
            return settled(self.batch.stop(rt, Verdict::Faulty { line, cause }));
        }
        match self.batch.flush(rt) {
            Ok(()) => match self.batch.finish() {
                Ok(claim) => Ok(Verdict::Shown(claim)),
                Err(fault) => settled(behind(fault)),
            },
            Err(fault) => settled(behind(fault)),
        }
    }
}

/// Whether a line is the end line.
fn ends(line: &CertLine) -> bool
    ensures { result ≡ is_end line.now }
{
    matches!(line, CertLine::End)
}

/// A verdict that is certain; else memory wanted.
fn settled(stage: Stage) -> Result<Verdict, Memory>
    ensures { IfOk result (λ verdict. stage ≡ Stage.Certain verdict) }
{
    match stage {
        Stage::Certain(verdict) => Ok(verdict),
        Stage::Open | Stage::Spent => Err(Memory),
    }
}
