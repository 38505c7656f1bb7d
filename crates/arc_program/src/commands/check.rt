//! The command `check`: the verdict on a certificate.

ghost use Rattle.std.specs.Prelude.{◌≡◌, ℕ, Bool, List};
ghost use Rattle.command_words.specs.Requests.{Checks, IsCount};
ghost use Rattle.arc_program.specs.World.{shelf_seen};
ghost use Rattle.arc_program.specs.Reading.{KeepsWritten};
ghost use Rattle.arc_program.specs.inner.Checking.{Tells, Stops};
ghost use Rattle.arc_program.specs.inner.Work.{Works};

use crate::commands::{Report, WorkFault};
use crate::judging::judge_text;
use crate::loading::Text;
use crate::refusals::long_text;
use crate::status::Status;
use crate::verdicts::{check_text, faulty_line};
use arc_compile::{CompileFault, compile};
use arc_io::{IoFault, Shelf};
use arc_num::Memory;
use cert_stream::Verdict;
use packing_laws::Instance;
use std::alloc::Global;
use std::thread::Threads;

/// The refusal of a certificate, with the line that says why.
fn refused(line: Vec<u8>) -> WorkFault
    ensures { result ≡ WorkFault.Rejected line.items Status.BadCertificate }
{
    WorkFault::Rejected {
        line: Text::new(line),
        status: Status::BadCertificate,
    }
}

/// What is said of a certificate under this name, by its verdict.
fn told(alloc: Global, certificate: &str, verdict: Verdict) -> Result<Report, WorkFault>
    ensures { Tells certificate.now verdict result }
{
    match verdict {
        Verdict::Shown(claim) => Ok(Report {
            text: Text::new(check_text(alloc, &claim)?),
            status: Status::Done,
            made: None,
            certificate: None,
        }),
        Verdict::Faulty { line, cause } => {
            Err(refused(faulty_line(alloc, certificate, line, cause)?))
        }
        Verdict::TooLong => match long_text(alloc, certificate) {
            Ok(line) => Err(refused(line.into_bytes())),
            Err(_) => Err(WorkFault::Memory),
        },
    }
}

/// Why there is no report where the certificate under this name could not be judged.
fn unjudged(alloc: Global, certificate: &str, fault: IoFault) -> WorkFault
    ensures { Stops certificate.now fault result }
{
    match fault {
        IoFault::Failed => match String::from_str(alloc, certificate) {
            Ok(name) => WorkFault::Unread { name },
            Err(_) => WorkFault::Memory,
        },
        IoFault::Memory => WorkFault::Memory,
    }
}

/// The report of `check`. The certificate is read once the graphs are made, to its end or to its first fault. So many threads may
/// work at once.
pub fn report<R: Threads + Sync, H: Shelf>(
    rt: &R,
    alloc: Global,
    instance: &Instance,
    certificate: &str,
    workers: u32,
    shelf: &mut H,
) -> Result<Report, WorkFault>
    requires { IsCount workers }
    ensures works { (name : List ℕ) (mvp : Bool) → Works (Checks name certificate.now mvp workers) instance.now (shelf_seen H.Shelf shelf.old) (shelf_seen H.Shelf shelf.new) result }
    ensures writes { KeepsWritten (shelf_seen H.Shelf shelf.old) (shelf_seen H.Shelf shelf.new) }
{
    let compiled = match compile(rt, alloc, instance, workers) {
        Ok(compiled) => compiled,
        Err(CompileFault::TooManyArcs { t }) => return Err(WorkFault::Large { t }),
        Err(CompileFault::Memory) => return Err(WorkFault::Memory),
    };
    match judge_text(
        rt,
        alloc,
        instance,
        &compiled.graph,
        workers,
        shelf,
        certificate,
    ) {
        Ok(verdict) => told(alloc, certificate, verdict),
        Err(fault) => Err(unjudged(alloc, certificate, fault)),
    }
}
