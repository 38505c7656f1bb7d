//! The command `compile`: the sizes of an instance's graphs.

ghost use Rattle.std.specs.Prelude.{◌≡◌, ℕ, None, IfOk, IfErr};
ghost use Rattle.command_words.specs.Requests.{IsCount};
ghost use Rattle.arc_compile.specs.Levels.{AreLevelSizes};
ghost use Rattle.arc_compile.specs.Graphs.{IsSmall, IsTooLarge};
ghost use Rattle.arc_compile.specs.Compiled.{AreCompiled};
ghost use Rattle.arc_program.specs.Statuses.{IsReported};
ghost use Rattle.arc_program.specs.commands.Compile.{IsGraphReport};

use crate::commands::Report;
use crate::loading::Text;
use crate::reports::compile_text;
use crate::status::Status;
use arc_compile::{CompileFault, Compiled, compile, level_size};
use arc_num::Memory;
use packing_laws::Instance;
use std::alloc::Global;
use std::thread::Threads;

/// The nodes and arcs of the level graph of each type.
fn level_sizes(alloc: Global, instance: &Instance) -> Result<Vec<(u128, u128)>, Memory>
    ensures { IfOk result (λ levels. AreLevelSizes instance.now levels.items) }
{
    let mut levels = Vec::new(alloc);
    for t in 0..instance.type_count() {
        levels.push(level_size(alloc, instance, t + 1)?)?;
    }
    Ok(levels)
}

/// The report on the graphs of an instance that is compiled.
fn graph_report(alloc: Global, instance: &Instance, compiled: &Compiled) -> Result<Report, Memory>
    requires compiled { AreCompiled instance.now compiled.now.graph compiled.now.sizes }
    requires small { IsSmall instance.now }
    ensures reported { IfOk result (λ report. IsReported report.status) }
    ensures text { IfOk result (λ report. IsGraphReport instance.now report.status report.text) }
    ensures unmade { IfOk result (λ report. report.made ≡ None) }
    ensures alone { IfOk result (λ report. report.certificate ≡ None) }
{
    let levels = level_sizes(alloc, instance)?;
    let text = Text::new(compile_text(alloc, instance, compiled, levels.as_slice())?);
    Ok(Report {
        text,
        status: Status::Done,
        made: None,
        certificate: None,
    })
}

/// The report of `compile`. So many threads may work at once.
pub fn report<R: Threads + Sync>(
    rt: &R,
    alloc: Global,
    instance: &Instance,
    workers: u32,
) -> Result<Report, CompileFault>
    requires { IsCount workers }
    ensures reported { IfOk result (λ report. IsReported report.status) }
    ensures text { IfOk result (λ report. IsGraphReport instance.now report.status report.text) }
    ensures unmade { IfOk result (λ report. report.made ≡ None) }
    ensures alone { IfOk result (λ report. report.certificate ≡ None) }
    ensures large { IfErr result (λ fault. (t : ℕ) → fault ≡ CompileFault.TooManyArcs t → IsTooLarge instance.now t) }
{
    let compiled = compile(rt, alloc, instance, workers)?;
    match graph_report(alloc, instance, &compiled) {
        Ok(report) => Ok(report),
        Err(Memory) => Err(CompileFault::Memory),
    }
}
