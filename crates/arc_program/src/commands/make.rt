//! The command `make`: what a search finds out of an instance that was generated.

ghost use Rattle.std.specs.Prelude.{◌≡◌, ◌≤◌, ℕ, None, IfOk, IfErr};
ghost use Rattle.arc_num.specs.declared.TheConstants.{MAX_SPLITS};
ghost use Rattle.command_words.specs.Requests.{IsCount};
ghost use Rattle.flow_graph.specs.Faithful.{IsFaithful};
ghost use Rattle.arc_compile.specs.Compiled.{AreCompiled};
ghost use Rattle.arc_compile.specs.Graphs.{IsSmall, IsTooLarge};
ghost use Rattle.arc_program.specs.Statuses.{IsReported};
ghost use Rattle.arc_program.specs.commands.Solve.{IsMade};

use crate::commands::Report;
use crate::commands::solve::{find_out, report_on};
use crate::outcomes::make_text;
use arc_compile::{CompileFault, Compiled, compile};
use arc_num::Memory;
use packing_laws::Instance;
use std::alloc::Global;
use std::thread::Threads;

/// The report on an instance that is compiled.
fn made(
    alloc: Global,
    seed: u64,
    size: u32,
    instance: &Instance,
    compiled: &Compiled,
    nodes: u32,
) -> Result<Report, Memory>
    requires compiled { AreCompiled instance.now compiled.now.graph compiled.now.sizes }
    requires faithful { IsFaithful instance.now compiled.now.graph }
    requires small { IsSmall instance.now }
    requires nodes { nodes ≤ MAX_SPLITS }
    ensures reported { IfOk result (λ report. IsReported report.status) }
    ensures text { IfOk result (λ report. IsMade instance.now seed size nodes report.status report.text report.made) }
    ensures alone { IfOk result (λ report. report.certificate ≡ None) }
{
    let outcome = find_out(alloc, instance, compiled, nodes)?;
    let text = make_text(alloc, seed, size, instance, compiled, &outcome)?;
    report_on(alloc, text, outcome, false)
}

/// The report of `make` on an instance that was generated from this seed with so many items. So many splits may be made, and so
/// many threads may work at once while the instance is compiled.
pub fn report<R: Threads + Sync>(
    rt: &R,
    alloc: Global,
    seed: u64,
    size: u32,
    instance: &Instance,
    nodes: u32,
    workers: u32,
) -> Result<Report, CompileFault>
    requires workers { IsCount workers }
    requires nodes { nodes ≤ MAX_SPLITS }
    ensures reported { IfOk result (λ report. IsReported report.status) }
    ensures text { IfOk result (λ report. IsMade instance.now seed size nodes report.status report.text report.made) }
    ensures alone { IfOk result (λ report. report.certificate ≡ None) }
    ensures large { IfErr result (λ fault. (t : ℕ) → fault ≡ CompileFault.TooManyArcs t → IsTooLarge instance.now t) }
{
    let compiled = compile(rt, alloc, instance, workers)?;
    match made(alloc, seed, size, instance, &compiled, nodes) {
        Ok(report) => Ok(report),
        Err(Memory) => Err(CompileFault::Memory),
    }
}
