//! What a run does, up to what it has still to say.

ghost use Rattle.std.specs.Prelude.{◌≡◌, Result, Err, map, string_bytes};
ghost use Rattle.packing_laws.specs.Instances.{InstanceValue};
ghost use Rattle.command_words.specs.declared.faults.WordFault.{WordFault};
ghost use Rattle.command_words.specs.Requests.{Request, words_of, request_of};
ghost use Rattle.command_words.specs.Faults.{FaultIs};
ghost use Rattle.arc_program.specs.World.{ShelfSeen, SinkSeen, shelf_seen, sink_seen};
ghost use Rattle.command_words.specs.Requests.{IsInRanges};
ghost use Rattle.arc_program.specs.Requests.{IsGiven, Writes};
ghost use Rattle.arc_program.specs.Reading.{KeepsWritten};
ghost use Rattle.arc_program.specs.Sources.{HasReadInstance};
ghost use Rattle.arc_program.specs.Ends.{KeepsTo};
ghost use Rattle.arc_program.specs.inner.Inputs.{IsInput};
ghost use Rattle.arc_program.specs.inner.Work.{Works};
ghost use Rattle.arc_program.specs.inner.Performed.{CarriesOut, Performs};
ghost use Rattle.arc_program.specs.inner.Storing.{refusal_of};

use crate::commands::{WorkFault, work_on};
use crate::inputs::{InputFault, load_instance};
use crate::printing::put_lines;
use crate::refusals::Refusal;
use crate::status::Status;
use crate::writing::{StoreFault, store};
use arc_io::{IoFault, Shelf, Sink};
use arc_num::Memory;
use cert_text::Certificate;
use command_words::{Command, WordFault, read_words};
use std::alloc::Global;
use std::thread::Threads;

/// How a run ended whose report was taken whole: the status, and the certificate of the outcome that it tells.
#[derive(Debug, Drop)]
pub struct Finished {
    pub status: Status,
    pub made: Option<Certificate>,
}

/// The refusal that a fault of the words is.
fn words_refusal(fault: WordFault) -> Refusal
    ensures { (asked : Result Request WordFault) (shelf : ShelfSeen) (out : SinkSeen) → FaultIs asked fault → Performs asked shelf shelf out out (Err result) }
{
    match fault {
        WordFault::Memory => Refusal::Memory,
        fault => Refusal::Words { fault },
    }
}

/// The refusal that a fault of the instance is. Without memory for its name this is said.
fn input_refusal(alloc: Global, command: Command, fault: InputFault) -> Refusal
    ensures { (before after : ShelfSeen) (out : SinkSeen) → IsInput (request_of command) (Err fault) before after → CarriesOut (request_of command) before after out out (Err result) }
{
    let name = match command.into_name(alloc) {
        Ok(name) => name,
        Err(Memory) => return Refusal::Memory,
    };
    match fault {
        InputFault::Failed => Refusal::Unread { name },
        InputFault::Long => Refusal::Long { name },
        InputFault::Misread { fault } => Refusal::BadPlace { name, fault },
        InputFault::Memory => Refusal::Memory,
    }
}

/// The refusal that a fault of the work on the instance is. Without memory for its name this is said.
fn work_refusal(alloc: Global, command: Command, fault: WorkFault) -> Refusal
    ensures { (before between after : ShelfSeen) (out : SinkSeen) (I : InstanceValue) → IsGiven (request_of command) before.held I → HasReadInstance (request_of command) before between → KeepsWritten before between → Works (request_of command) I between after (Err fault) → CarriesOut (request_of command) before after out out (Err result) }
{
    let name = match command.into_name(alloc) {
        Ok(name) => name,
        Err(Memory) => return Refusal::Memory,
    };
    match fault {
        WorkFault::Large { t } => Refusal::Large { name, t },
        WorkFault::LargeJoint => Refusal::LargeJoint { name },
        WorkFault::Unread { name } => Refusal::Unread { name },
        WorkFault::Rejected { line, status } => Refusal::Rejected { line, status },
        WorkFault::Memory => Refusal::Memory,
    }
}

/// The refusal that a fault of writing a certificate is.
fn store_refusal(fault: StoreFault) -> Refusal
    ensures { result ≡ refusal_of fault }
{
    match fault {
        StoreFault::Failed { name } => Refusal::Unstored { name },
        StoreFault::Memory => Refusal::Memory,
    }
}

/// Reads the texts that a command names, writes the certificate of its report, where one is asked for, and then prints the
/// report.
fn carry_out<R: Threads + Sync, H: Shelf, K: Sink>(
    rt: &R,
    alloc: Global,
    command: Command,
    shelf: &mut H,
    out: &mut K,
) -> Result<Finished, Refusal>
    requires { IsInRanges (request_of command) }
    ensures done { CarriesOut (request_of command) (shelf_seen H.Shelf shelf.old) (shelf_seen H.Shelf shelf.new) (sink_seen K.Sink out.old) (sink_seen K.Sink out.new) result }
    ensures writes { Writes (request_of command) (shelf_seen H.Shelf shelf.old) (shelf_seen H.Shelf shelf.new) }
{
    let instance = match load_instance(alloc, shelf, &command) {
        Ok(instance) => instance,
        Err(fault) => return Err(input_refusal(alloc, command, fault)),
    };
    let report = match work_on(rt, alloc, &command, &instance, shelf) {
        Ok(report) => report,
        Err(fault) => return Err(work_refusal(alloc, command, fault)),
    };
    match store(shelf, command.into_certificate(), &report.certificate) {
        Ok(()) => {}
        Err(fault) => return Err(store_refusal(fault)),
    }
    match put_lines(out, report.text.as_slice()) {
        Ok(()) => Ok(Finished {
            status: report.status,
            made: report.made,
        }),
        Err(IoFault::Failed) => Err(Refusal::Unwritten),
        Err(IoFault::Memory) => Err(Refusal::Memory),
    }
}

/// Does what the words ask for. The report is put on `out`; a refusal is given back.
pub fn perform<R: Threads + Sync, H: Shelf, K: Sink>(
    rt: &R,
    alloc: Global,
    words: &[String],
    shelf: &mut H,
    out: &mut K,
) -> Result<Finished, Refusal>
    ensures done { Performs (words_of (map string_bytes words.now)) (shelf_seen H.Shelf shelf.old) (shelf_seen H.Shelf shelf.new) (sink_seen K.Sink out.old) (sink_seen K.Sink out.new) result }
    ensures writes { KeepsTo (words_of (map string_bytes words.now)) (shelf_seen H.Shelf shelf.old) (shelf_seen H.Shelf shelf.new) }
{
    match read_words(alloc, words) {
        Ok(command) => carry_out(rt, alloc, command, shelf, out),
        Err(fault) => Err(words_refusal(fault)),
    }
}
