//! Reading a certificate piece by piece, and judging it as it comes.

ghost use Rattle.std.specs.Prelude.{◌≡◌, ℕ, ◌+◌, ◌<◌, List, [], IfOk, length};
ghost use Rattle.arc_num.specs.declared.TheConstants.{MAX_CERT};
ghost use Rattle.arc_io.specs.Faults.{CountsFault};
ghost use Rattle.packing_laws.specs.Instances.{InstanceValue};
ghost use Rattle.flow_graph.specs.Arcs.{TypeValue};
ghost use Rattle.flow_graph.specs.Faithful.{GraphOf, IsFaithful};
ghost use Rattle.command_words.specs.Requests.{IsCount};
ghost use Rattle.cert_stream.specs.Judges.{IsFed};
ghost use Rattle.arc_program.specs.World.{shelf_seen};
ghost use Rattle.arc_program.specs.Reading.{KeepsWritten};
ghost use Rattle.arc_program.specs.inner.Loading.{TakesAtMost};
ghost use Rattle.arc_program.specs.inner.Checking.{Steps, Feeds, Breaks, ReadsOut, CountsRead, Concludes, Judged, IsSo};

use crate::loading::{PIECE, buffer_of};
use arc_io::{IoFault, Shelf};
use arc_num::{MAX_CERT, Memory};
use cert_stream::{Judge, Verdict, verdicts_are_exact, verdicts_are_so};
use flow_graph::FlowGraph;
use packing_laws::Instance;
use std::alloc::Global;
use std::thread::Threads;

/// What came of asking for more of a text.
enum Step {
    /// No byte is left.
    End,
    /// So many bytes were fed.
    More(usize),
    /// Bytes were fed, and the verdict is certain, however the text goes on.
    Certain,
}

/// Reads at most as many bytes as the piece has, and feeds them. After a read that failed the judge is as before.
fn feed_piece<R: Threads + Sync, H: Shelf>(
    rt: &R,
    shelf: &mut H,
    piece: &mut [u8],
    judge: &mut Judge<'_>,
) -> Result<Step, IoFault>
    requires { 0 < length piece.old }
    ensures feeds { (I : InstanceValue) (g : List TypeValue) (bytes : List ℕ) → IsFed I g bytes judge.old → Feeds I g bytes piece.new result judge.new (H.left shelf.old) (H.left shelf.new) }
    ensures steps { Steps result piece.new (H.left shelf.old) (H.left shelf.new) }
    ensures taken { TakesAtMost (length piece.old) (H.left shelf.old) (H.left shelf.new) }
    ensures faults { CountsFault result (H.read_faults shelf.old) (H.read_faults shelf.new) }
    ensures asked { H.asked shelf.new ≡ H.asked shelf.old }
    ensures writes { KeepsWritten (shelf_seen H.Shelf shelf.old) (shelf_seen H.Shelf shelf.new) }
{
    let n = match shelf.more(piece) {
        Ok(n) => n,
        Err(fault) => return Err(fault),
    };
    if n == 0 {
        return Ok(Step::End);
    }
    match judge.feed(rt, &piece[..n]) {
        Ok(false) => Ok(Step::More(n)),
        Ok(true) => Ok(Step::Certain),
        Err(Memory) => Err(IoFault::Memory),
    }
}

/// The verdict on the bytes that were fed before a read failed, where it is certain; else the fault of that read.
fn break_off<R: Threads + Sync>(rt: &R, judge: &mut Judge<'_>) -> Result<Verdict, IoFault>
    ensures { (I : InstanceValue) (g : List TypeValue) (bytes : List ℕ) → IsFed I g bytes judge.old → Breaks I g bytes result }
{
    match judge.verdict_so_far(rt) {
        Ok(Some(verdict)) => Ok(verdict),
        Ok(None) => Err(IoFault::Failed),
        Err(Memory) => Err(IoFault::Memory),
    }
}

/// Reads what is left of the started name, to its end or until its verdict is certain, and feeds it to a judge that was fed nothing.
/// Where a read failed behind bytes whose verdict is certain, this is the verdict.
fn read_out<R: Threads + Sync, H: Shelf>(
    rt: &R,
    shelf: &mut H,
    space: &mut [u8],
    judge: &mut Judge<'_>,
) -> Result<Option<Verdict>, IoFault>
    requires { length space.old ≡ PIECE }
    ensures out { (I : InstanceValue) (g : List TypeValue) → IsFed I g [] judge.old → ReadsOut I g result judge.new (H.left shelf.old) (H.left shelf.new) }
    ensures taken { TakesAtMost (MAX_CERT + 1) (H.left shelf.old) (H.left shelf.new) }
    ensures faults { CountsRead result (H.read_faults shelf.old) (H.read_faults shelf.new) }
    ensures asked { H.asked shelf.new ≡ H.asked shelf.old }
    ensures writes { KeepsWritten (shelf_seen H.Shelf shelf.old) (shelf_seen H.Shelf shelf.new) }
{
    let mut taken = 0;
    'pieces: while taken <= MAX_CERT {
        let size = (PIECE as u64).min(MAX_CERT + 1 - taken) as usize;
        match feed_piece(rt, shelf, &mut space[..size], judge) {
            Ok(Step::More(n)) => taken += n as u64,
            Ok(Step::End) => return Ok(None),
            Ok(Step::Certain) => return Ok(None),
            Err(IoFault::Failed) => {
                return match break_off(rt, judge) {
                    Ok(verdict) => Ok(Some(verdict)),
                    Err(fault) => Err(fault),
                };
            }
            Err(IoFault::Memory) => return Err(IoFault::Memory),
        }
    }
    Ok(None)
}

/// The verdict on what the judge was fed.
fn conclude<R: Threads + Sync>(rt: &R, judge: Judge<'_>) -> Result<Verdict, IoFault>
    ensures { Concludes judge.entry result }
{
    match judge.finish(rt) {
        Ok(verdict) => Ok(verdict),
        Err(Memory) => Err(IoFault::Memory),
    }
}

/// Judges the text under this name over a graph of the instance. So many threads may work at once. What is read is at most one
/// byte more than a certificate may have, and no more than its verdict takes, but for the last piece.
pub fn judge_text<R: Threads + Sync, H: Shelf>(
    rt: &R,
    alloc: Global,
    instance: &Instance,
    graph: &FlowGraph,
    workers: u32,
    shelf: &mut H,
    name: &str,
) -> Result<Verdict, IoFault>
    requires graph { GraphOf instance.now graph.now }
    requires workers { IsCount workers }
    ensures judged { Judged instance.now graph.now name.now result (shelf_seen H.Shelf shelf.old) (shelf_seen H.Shelf shelf.new) }
    ensures so { IsFaithful instance.now graph.now → IfOk result (IsSo instance.now) }
    ensures writes { KeepsWritten (shelf_seen H.Shelf shelf.old) (shelf_seen H.Shelf shelf.new) }
{
    instance.known();
    graph.known();
    verdicts_are_so();
    verdicts_are_exact();
    match shelf.start(name) {
        Ok(()) => {}
        Err(fault) => return Err(fault),
    }
    let mut space = match buffer_of(alloc, PIECE) {
        Ok(space) => space,
        Err(_) => return Err(IoFault::Memory),
    };
    let mut judge = match Judge::new(alloc, instance, graph, workers) {
        Ok(judge) => judge,
        Err(Memory) => return Err(IoFault::Memory),
    };
    match read_out(rt, shelf, space.as_mut_slice(), &mut judge) {
        Ok(None) => conclude(rt, judge),
        Ok(Some(verdict)) => Ok(verdict),
        Err(fault) => Err(fault),
    }
}
