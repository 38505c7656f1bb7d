//! The command `solve`: what a search finds out of an instance, and its certificate.

ghost use Rattle.std.specs.Prelude.{◌≡◌, ◌≤◌, ℕ, Some, IfOk, IfErr};
ghost use Rattle.arc_num.specs.declared.TheConstants.{MAX_SPLITS};
ghost use Rattle.command_words.specs.Requests.{IsCount};
ghost use Rattle.flow_graph.specs.Faithful.{IsFaithful};
ghost use Rattle.arc_compile.specs.Compiled.{AreCompiled};
ghost use Rattle.arc_compile.specs.Graphs.{IsSmall, IsTooLarge};
ghost use Rattle.arc_program.specs.Reports.{certificate_in};
ghost use Rattle.arc_program.specs.Statuses.{IsReported};
ghost use Rattle.arc_program.specs.commands.{IsTextIf};
ghost use Rattle.arc_program.specs.commands.Solve.{IsFoundOut, IsSolved, outcome_status};

use crate::commands::Report;
use crate::loading::Text;
use crate::outcomes::{into_certificate, solve_text};
use crate::status::Status;
use arc_compile::{CompileFault, Compiled, compile};
use arc_num::Memory;
use branch_search::{Outcome, search};
use cert_laws::certified_is_so;
use cert_text::{Certificate, write_certificate};
use packing_laws::Instance;
use std::alloc::Global;
use std::thread::Threads;

/// What a search with so many splits finds out over the graph of an instance that is compiled.
pub fn find_out(
    alloc: Global,
    instance: &Instance,
    compiled: &Compiled,
    nodes: u32,
) -> Result<Outcome, Memory>
    requires compiled { AreCompiled instance.now compiled.now.graph compiled.now.sizes }
    requires faithful { IsFaithful instance.now compiled.now.graph }
    requires small { IsSmall instance.now }
    requires nodes { nodes ≤ MAX_SPLITS }
    ensures { IfOk result (IsFoundOut instance.now nodes compiled.now.graph compiled.now.sizes) }
{
    instance.known();
    compiled.graph.known();
    certified_is_so();
    search(alloc, instance, &compiled.graph, nodes)
}

/// The status of a run that prints an outcome.
fn status_of(outcome: &Outcome) -> Status
    ensures value { result ≡ outcome_status outcome.now }
    ensures reported { IsReported result }
{
    match outcome {
        Outcome::Optimal { .. } => Status::Done,
        Outcome::Infeasible { .. } => Status::Done,
        Outcome::Bracket { .. } => Status::Bracketed,
    }
}

/// The text of a certificate, where it is to be written.
fn text_if(alloc: Global, certificate: &Certificate, written: bool) -> Result<Option<Text>, Memory>
    ensures { IfOk result (IsTextIf written (Some certificate.now)) }
{
    if written {
        Ok(Some(Text::new(write_certificate(alloc, certificate)?)))
    } else {
        Ok(None)
    }
}

/// The report with this text on an outcome, with the text of its certificate where that is to be written.
pub fn report_on(
    alloc: Global,
    text: Vec<u8>,
    outcome: Outcome,
    written: bool,
) -> Result<Report, Memory>
    ensures text { IfOk result (λ report. report.text ≡ text.items) }
    ensures status { IfOk result (λ report. report.status ≡ outcome_status outcome) }
    ensures reported { IfOk result (λ report. IsReported report.status) }
    ensures made { IfOk result (λ report. report.made ≡ Some (certificate_in outcome)) }
    ensures certificate { IfOk result (λ report. IsTextIf written (Some (certificate_in outcome)) report.certificate) }
{
    let status = status_of(&outcome);
    let made = into_certificate(outcome);
    let certificate = text_if(alloc, &made, written)?;
    Ok(Report {
        text: Text::new(text),
        status,
        made: Some(made),
        certificate,
    })
}

/// The report on an instance that is compiled.
fn solved(
    alloc: Global,
    instance: &Instance,
    compiled: &Compiled,
    nodes: u32,
    written: bool,
) -> Result<Report, Memory>
    requires compiled { AreCompiled instance.now compiled.now.graph compiled.now.sizes }
    requires faithful { IsFaithful instance.now compiled.now.graph }
    requires small { IsSmall instance.now }
    requires nodes { nodes ≤ MAX_SPLITS }
    ensures reported { IfOk result (λ report. IsReported report.status) }
    ensures text { IfOk result (λ report. IsSolved instance.now nodes report.status report.text report.made) }
    ensures certificate { IfOk result (λ report. IsTextIf written report.made report.certificate) }
{
    let outcome = find_out(alloc, instance, compiled, nodes)?;
    let text = solve_text(alloc, instance, &outcome)?;
    report_on(alloc, text, outcome, written)
}

/// The report of `solve`. So many splits may be made, and so many threads may work at once while the instance is compiled; the
/// certificate is to be written or not.
pub fn report<R: Threads + Sync>(
    rt: &R,
    alloc: Global,
    instance: &Instance,
    nodes: u32,
    written: bool,
    workers: u32,
) -> Result<Report, CompileFault>
    requires workers { IsCount workers }
    requires nodes { nodes ≤ MAX_SPLITS }
    ensures reported { IfOk result (λ report. IsReported report.status) }
    ensures text { IfOk result (λ report. IsSolved instance.now nodes report.status report.text report.made) }
    ensures certificate { IfOk result (λ report. IsTextIf written report.made report.certificate) }
    ensures large { IfErr result (λ fault. (t : ℕ) → fault ≡ CompileFault.TooManyArcs t → IsTooLarge instance.now t) }
{
    let compiled = compile(rt, alloc, instance, workers)?;
    match solved(alloc, instance, &compiled, nodes, written) {
        Ok(report) => Ok(report),
        Err(Memory) => Err(CompileFault::Memory),
    }
}
