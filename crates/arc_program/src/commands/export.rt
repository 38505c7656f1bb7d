//! The command `export`: the model of an instance, as MPS text. `joint_export` does it over one graph for all types.

ghost use Rattle.std.specs.Prelude.{◌≡◌, ℕ, Bool, false, List, None, IfOk};
ghost use Rattle.arc_compile.specs.Graphs.{IsSmall};
ghost use Rattle.arc_compile.specs.Compiled.{AreCompiled};
ghost use Rattle.flow_graph.specs.Faithful.{IsFaithful};
ghost use Rattle.command_words.specs.Requests.{Exports};
ghost use Rattle.arc_program.specs.World.{ShelfSeen};
ghost use Rattle.arc_program.specs.Statuses.{IsReported};
ghost use Rattle.arc_program.specs.commands.Export.{IsExport};
ghost use Rattle.arc_program.specs.inner.Work.{Works};

use crate::commands::{Report, WorkFault, joint_export};
use crate::loading::Text;
use crate::status::Status;
use arc_compile::{CompileFault, Compiled, compile};
use arc_num::Memory;
use flow_model::{packings_are_flows, program_of, solutions_are_flows};
use mps_text::{write_mps, written_is_read};
use packing_laws::Instance;
use pattern_extract::flows_are_packings;
use std::alloc::Global;
use std::thread::Threads;

/// The model of an instance that is compiled, as MPS text. The text is made whole before any of it is printed, so that
/// want of memory leaves nothing printed.
fn model_report(alloc: Global, instance: &Instance, compiled: &Compiled) -> Result<Report, Memory>
    requires compiled { AreCompiled instance.now compiled.now.graph compiled.now.sizes }
    requires faithful { IsFaithful instance.now compiled.now.graph }
    requires small { IsSmall instance.now }
    ensures reported { IfOk result (λ report. IsReported report.status) }
    ensures text { IfOk result (λ report. IsExport instance.now report.status report.text) }
    ensures unmade { IfOk result (λ report. report.made ≡ None) }
    ensures alone { IfOk result (λ report. report.certificate ≡ None) }
{
    instance.known();
    compiled.graph.known();
    solutions_are_flows();
    packings_are_flows();
    flows_are_packings();
    written_is_read();
    let program = program_of(alloc, &compiled.graph, instance)?;
    let text = Text::new(write_mps(alloc, &program)?);
    Ok(Report {
        text,
        status: Status::Done,
        made: None,
        certificate: None,
    })
}

/// The report of `export` over a graph for each type.
fn types_report<R: Threads + Sync>(
    rt: &R,
    alloc: Global,
    instance: &Instance,
) -> Result<Report, WorkFault>
    ensures { (name : List ℕ) (mvp : Bool) (shelf : ShelfSeen) → Works (Exports name mvp false) instance.now shelf shelf result }
{
    let compiled = match compile(rt, alloc, instance, 1) {
        Ok(compiled) => compiled,
        Err(CompileFault::TooManyArcs { t }) => return Err(WorkFault::Large { t }),
        Err(CompileFault::Memory) => return Err(WorkFault::Memory),
    };
    match model_report(alloc, instance, &compiled) {
        Ok(report) => Ok(report),
        Err(Memory) => Err(WorkFault::Memory),
    }
}

/// The report of `export`: over one graph for all types where that is asked for, else over a graph for each.
pub fn report<R: Threads + Sync>(
    rt: &R,
    alloc: Global,
    instance: &Instance,
    joint: bool,
) -> Result<Report, WorkFault>
    ensures { (name : List ℕ) (mvp : Bool) (shelf : ShelfSeen) → Works (Exports name mvp joint) instance.now shelf shelf result }
{
    if joint {
        joint_export::report(alloc, instance)
    } else {
        types_report(rt, alloc, instance)
    }
}
