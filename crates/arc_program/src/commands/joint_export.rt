//! The command `export` with `--joint`: the model of an instance over one graph for all types, as MPS text.

ghost use Rattle.std.specs.Prelude.{◌≡◌, ℕ, Bool, true, List, None, IfOk};
ghost use Rattle.joint_arcs.specs.Faithful.{IsFaithful};
ghost use Rattle.joint_compile.specs.JointCompiled.{IsJointGraph, IsJointSmall};
ghost use Rattle.command_words.specs.Requests.{Exports};
ghost use Rattle.arc_program.specs.World.{ShelfSeen};
ghost use Rattle.arc_program.specs.Statuses.{IsReported};
ghost use Rattle.arc_program.specs.commands.JointExport.{IsJointExport};
ghost use Rattle.arc_program.specs.inner.Work.{Works};

use crate::commands::{Report, WorkFault};
use crate::loading::Text;
use crate::status::Status;
use arc_num::Memory;
use joint_arcs::JointArcs;
use joint_compile::joint_of;
use joint_model::joint_program;
use label_graph::GraphFault;
use mps_text::{write_mps, written_is_read};
use packing_laws::Instance;
use std::alloc::Global;

/// The model of an instance over its joint graph, as MPS text. The text is made whole before any of it is printed, so that
/// want of memory leaves nothing printed.
fn model_report(alloc: Global, instance: &Instance, graph: &JointArcs) -> Result<Report, Memory>
    requires joint { IsJointGraph instance.now graph.now }
    requires faithful { IsFaithful instance.now graph.now }
    requires small { IsJointSmall instance.now }
    ensures reported { IfOk result (λ report. IsReported report.status) }
    ensures text { IfOk result (λ report. IsJointExport instance.now report.status report.text) }
    ensures unmade { IfOk result (λ report. report.made ≡ None) }
    ensures alone { IfOk result (λ report. report.certificate ≡ None) }
{
    written_is_read();
    let program = joint_program(alloc, graph, instance)?;
    let text = Text::new(write_mps(alloc, &program)?);
    Ok(Report {
        text,
        status: Status::Done,
        made: None,
        certificate: None,
    })
}

/// The report of `export` over one graph for all types. No other graph is made.
pub fn report(alloc: Global, instance: &Instance) -> Result<Report, WorkFault>
    ensures { (name : List ℕ) (mvp : Bool) (shelf : ShelfSeen) → Works (Exports name mvp true) instance.now shelf shelf result }
{
    let graph = match joint_of(alloc, instance) {
        Ok(graph) => graph,
        Err(GraphFault::TooManyArcs) => return Err(WorkFault::LargeJoint),
        Err(GraphFault::Memory) => return Err(WorkFault::Memory),
    };
    match model_report(alloc, instance, &graph) {
        Ok(report) => Ok(report),
        Err(Memory) => Err(WorkFault::Memory),
    }
}
