//! The one call that does all that the program does.

ghost use Rattle.std.specs.Prelude.{◌≡◌, map, string_bytes};
ghost use Rattle.command_words.specs.Requests.{words_of};
ghost use Rattle.arc_program.specs.World.{shelf_seen, sink_seen, world_of};
ghost use Rattle.arc_program.specs.Printing.{PutsOnce};
ghost use Rattle.arc_program.specs.Ends.{Ends, KeepsTo, IsExact, LeavesNone};
ghost use Rattle.arc_program.specs.Headline.{Headline};
ghost use Rattle.arc_program.specs.commands.{FitIsNotRejected};
ghost use Rattle.arc_program.specs.inner.Performed.{IsSaid};

use crate::performing::{Finished, perform};
use crate::refusals::{Refusal, refusal_text};
use crate::status::Status;
use arc_compile::{compiled_graphs_are_one, sizes_are_one};
use arc_io::{Shelf, Sink};
use cert_stream::verdicts_are_exact;
use cert_text::Certificate;
use joint_compile::joint_sizes_are_one;
use std::alloc::Global;
use std::thread::Threads;

/// A call that costs nothing: no second text is both refused and such that there is a report.
fn fit_is_not_rejected()
    ensures { FitIsNotRejected }
{
    compiled_graphs_are_one();
    verdicts_are_exact();
}

/// Puts a line, whatever the sink answers.
fn say<E: Sink>(err: &mut E, line: &[u8])
    ensures { PutsOnce line.now (sink_seen E.Sink err.old) (sink_seen E.Sink err.new) }
{
    let _ = err.put(line);
}

/// Says a refusal in one line. Where no memory is left for the line, that is said.
fn refuse<E: Sink>(alloc: Global, err: &mut E, refusal: &Refusal) -> Status
    ensures said { IsSaid refusal.now result (sink_seen E.Sink err.old) (sink_seen E.Sink err.new) }
    ensures unwritten { refusal.now ≡ Refusal.Unwritten → result ≡ Status.WriteFault }
{
    match refusal {
        Refusal::Unwritten => {
            say(err, b"vpack: cannot write output\n");
            return Status::WriteFault;
        }
        Refusal::Memory => {
            say(err, b"vpack: out of memory\n");
            return Status::NoMemory;
        }
        _ => {}
    }
    match refusal_text(alloc, refusal) {
        Ok(line) => {
            say(err, line.as_slice());
            refusal.status()
        }
        Err(_) => {
            say(err, b"vpack: out of memory\n");
            Status::NoMemory
        }
    }
}

/// Does all that `run` does, and gives back the certificate with the status.
fn ended<R: Threads + Sync, H: Shelf, K: Sink, E: Sink>(
    rt: &R,
    alloc: Global,
    words: &[String],
    shelf: &mut H,
    out: &mut K,
    err: &mut E,
) -> Finished
    ensures ends { let before = world_of H.Shelf K.Sink E.Sink shelf.old out.old err.old in
        let after = world_of H.Shelf K.Sink E.Sink shelf.new out.new err.new in
        Ends (words_of (map string_bytes words.now)) before after result.made result.status }
    ensures unmade { LeavesNone result.made result.status }
    ensures writes { let before = shelf_seen H.Shelf shelf.old in
        let after = shelf_seen H.Shelf shelf.new in
        KeepsTo (words_of (map string_bytes words.now)) before after }
{
    match perform(rt, alloc, words, shelf, out) {
        Ok(finished) => finished,
        Err(refusal) => Finished {
            status: refuse(alloc, err, &refusal),
            made: None,
        },
    }
}

/// Does all that the program does: reads the words and the texts that they name from `shelf`, prints the report
/// on `out`, and says a refusal in one line on `err`. The status is the exit status of the program. Where `solve` or `make` prints
/// what its search found out, `made` is the certificate of that; else it is none.
pub fn run<R: Threads + Sync, H: Shelf, K: Sink, E: Sink>(
    rt: &R,
    alloc: Global,
    words: &[String],
    shelf: &mut H,
    out: &mut K,
    err: &mut E,
    made: &mut Option<Certificate>,
) -> Status
    // How a run ends, by its status.
    ensures ends { let before = world_of H.Shelf K.Sink E.Sink shelf.old out.old err.old in
        let after = world_of H.Shelf K.Sink E.Sink shelf.new out.new err.new in
        Ends (words_of (map string_bytes words.now)) before after made.new result }
    // What came in leads to no other status, but for want of memory and calls that failed.
    ensures exact { let before = world_of H.Shelf K.Sink E.Sink shelf.old out.old err.old in
        let after = world_of H.Shelf K.Sink E.Sink shelf.new out.new err.new in
        IsExact (words_of (map string_bytes words.now)) before after result }
    // What is written on the shelf.
    ensures writes { let before = shelf_seen H.Shelf shelf.old in
        let after = shelf_seen H.Shelf shelf.new in
        KeepsTo (words_of (map string_bytes words.now)) before after }
    // What a search prints is so, and a certificate shows it.
    ensures decided { let before = world_of H.Shelf K.Sink E.Sink shelf.old out.old err.old in
        let after = world_of H.Shelf K.Sink E.Sink shelf.new out.new err.new in
        Headline (words_of (map string_bytes words.now)) before after made.new result }
    // Where no report was taken whole there is no certificate.
    ensures unmade { LeavesNone made.new result }
{
    sizes_are_one();
    joint_sizes_are_one();
    compiled_graphs_are_one();
    fit_is_not_rejected();
    let finished = ended(rt, alloc, words, shelf, out, err);
    *made = finished.made;
    finished.status
}
