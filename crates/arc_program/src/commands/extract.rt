//! The command `extract`: the packing of a flow that an outside solver gives.

ghost use Rattle.std.specs.Prelude.{◌≡◌, ◌≤◌, ℕ, Bool, List, Err, IfOk, length};
ghost use Rattle.arc_num.specs.declared.TheConstants.{MAX_INSTANCE};
ghost use Rattle.packing_laws.specs.Instances.{InstanceValue};
ghost use Rattle.flow_graph.specs.Faithful.{IsFaithful};
ghost use Rattle.command_words.specs.Requests.{Extracts};
ghost use Rattle.arc_compile.specs.Graphs.{IsSmall};
ghost use Rattle.arc_compile.specs.Compiled.{AreCompiled};
ghost use Rattle.arc_program.specs.World.{ShelfSeen, shelf_seen};
ghost use Rattle.arc_program.specs.Reading.{KeepsWritten};
ghost use Rattle.arc_program.specs.Refusals.{named_line, long_line};
ghost use Rattle.arc_program.specs.Rejections.{fault_said, row_said};
ghost use Rattle.arc_program.specs.inner.Loading.{Loads};
ghost use Rattle.arc_program.specs.inner.Work.{Works};
ghost use Rattle.arc_program.specs.inner.Extracting.{Judges};

use crate::commands::{Report, WorkFault};
use crate::kept::packing_text;
use crate::loading::{LoadFault, Text, load};
use crate::refusals::long_text;
use crate::rejections::{fault_said, named_line, row_said};
use crate::status::Status;
use arc_compile::{CompileFault, Compiled, compile};
use arc_io::Shelf;
use arc_num::Memory;
use flow_graph::FlowGraph;
use flow_model::FlowRow;
use packing_laws::Instance;
use pattern_extract::{ExtractFault, extract};
use solution_text::{SolutionFault, read_solution};
use std::alloc::Global;
use std::thread::Threads;

/// The line on a solution of which a line is at fault.
fn fault_line(alloc: Global, solution: &str, fault: SolutionFault) -> Result<Text, Memory>
    ensures { IfOk result (λ line. line ≡ named_line solution.now (fault_said fault)) }
{
    let said = fault_said(alloc, fault)?;
    Ok(Text::new(named_line(alloc, solution, said.as_slice())?))
}

/// The line on a solution whose values violate a row of the model.
fn row_line(alloc: Global, solution: &str, graph: &FlowGraph, row: FlowRow) -> Result<Text, Memory>
    ensures { IfOk result (λ line. line ≡ named_line solution.now (row_said graph.now row)) }
{
    let said = row_said(alloc, graph, row)?;
    Ok(Text::new(named_line(alloc, solution, said.as_slice())?))
}

/// The line on a solution that is too long.
fn length_line(alloc: Global, solution: &str) -> Result<Text, Memory>
    ensures { IfOk result (λ line. line ≡ long_line solution.now) }
{
    let line = long_text(alloc, solution)?;
    Ok(Text::new(line.into_bytes()))
}

/// The refusal of a solution, with the line that says why.
fn refused(line: Text) -> WorkFault
    ensures { result ≡ WorkFault.Rejected line Status.BadSolution }
{
    WorkFault::Rejected {
        line,
        status: Status::BadSolution,
    }
}

/// Why there is no report where the solution under this name could not be read whole.
fn load_fault(alloc: Global, solution: &str, fault: LoadFault) -> WorkFault
    ensures { (name : List ℕ) (mvp : Bool) (I : InstanceValue) (before after : ShelfSeen) → IsSmall I → Loads solution.now (Err fault) before after → Works (Extracts name solution.now mvp) I before after (Err result) }
{
    match fault {
        LoadFault::Failed => match String::from_str(alloc, solution) {
            Ok(name) => WorkFault::Unread { name },
            Err(_) => WorkFault::Memory,
        },
        LoadFault::Long => match length_line(alloc, solution) {
            Ok(line) => refused(line),
            Err(Memory) => WorkFault::Memory,
        },
        LoadFault::Memory => WorkFault::Memory,
    }
}

/// The report on the bytes of the solution under this name, or why they give no packing.
fn report_on(
    alloc: Global,
    instance: &Instance,
    compiled: &Compiled,
    solution: &str,
    text: &[u8],
) -> Result<Report, WorkFault>
    requires compiled { AreCompiled instance.now compiled.now.graph compiled.now.sizes }
    requires faithful { IsFaithful instance.now compiled.now.graph }
    requires small { IsSmall instance.now }
    requires length { length text.now ≤ MAX_INSTANCE }
    ensures { Judges instance.now solution.now text.now result }
{
    let flow = match read_solution(alloc, text, &compiled.graph) {
        Ok(flow) => flow,
        Err(SolutionFault::Memory) => return Err(WorkFault::Memory),
        Err(fault) => return Err(refused(fault_line(alloc, solution, fault)?)),
    };
    let packing = match extract(alloc, instance, &compiled.graph, &flow) {
        Ok(packing) => packing,
        Err(ExtractFault::Memory) => return Err(WorkFault::Memory),
        Err(ExtractFault::NotFlow { row }) => {
            return Err(refused(row_line(alloc, solution, &compiled.graph, row)?));
        }
    };
    let text = packing_text(alloc, instance, packing)?;
    Ok(Report {
        text: Text::new(text),
        status: Status::Done,
        made: None,
        certificate: None,
    })
}

/// The report of `extract`. The solution is read, to its end, once the graphs are made.
pub fn report<R: Threads + Sync, H: Shelf>(
    rt: &R,
    alloc: Global,
    instance: &Instance,
    solution: &str,
    shelf: &mut H,
) -> Result<Report, WorkFault>
    ensures works { (name : List ℕ) (mvp : Bool) → Works (Extracts name solution.now mvp) instance.now (shelf_seen H.Shelf shelf.old) (shelf_seen H.Shelf shelf.new) result }
    ensures writes { KeepsWritten (shelf_seen H.Shelf shelf.old) (shelf_seen H.Shelf shelf.new) }
{
    let compiled = match compile(rt, alloc, instance, 1) {
        Ok(compiled) => compiled,
        Err(CompileFault::TooManyArcs { t }) => return Err(WorkFault::Large { t }),
        Err(CompileFault::Memory) => return Err(WorkFault::Memory),
    };
    let text = match load(alloc, shelf, solution) {
        Ok(text) => text,
        Err(fault) => return Err(load_fault(alloc, solution, fault)),
    };
    report_on(alloc, instance, &compiled, solution, text.as_slice())
}
