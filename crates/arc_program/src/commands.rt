//! What each command does with an instance that was read. A command is a file here and one in `specs/commands/`.

ghost use Rattle.command_words.specs.Requests.{request_of, IsInRanges};
ghost use Rattle.arc_program.specs.World.{shelf_seen};
ghost use Rattle.arc_program.specs.Reading.{KeepsWritten};
ghost use Rattle.arc_program.specs.inner.Work.{Works};

mod bound;
mod check;
mod compile;
mod export;
mod extract;
mod joint_export;
mod make;
mod solve;

use crate::loading::Text;
use crate::status::Status;
use arc_compile::CompileFault;
use arc_io::Shelf;
use arc_num::Memory;
use cert_text::Certificate;
use command_words::Command;
use packing_laws::Instance;
use std::alloc::Global;
use std::thread::Threads;
use thiserror::Error;

/// A report, the status of a run that prints it, the certificate of the outcome that it tells, and the text of a certificate that is
/// to be written before, where one is asked for.
#[derive(Debug, Drop)]
pub struct Report {
    pub text: Text,
    pub status: Status,
    pub made: Option<Certificate>,
    pub certificate: Option<Text>,
}

/// Why there is no report on an instance.
#[derive(Debug, Drop, Error)]
pub enum WorkFault {
    /// The main graphs of the types up to this one have more than 1,000,000 arcs together.
    #[error("type {t}: too many arcs")]
    Large { t: u32 },
    /// The joint main graph of all types has more than 1,000,000 arcs.
    #[error("joint graph: too many arcs")]
    LargeJoint,
    /// The second text, under this name, could not be read.
    #[error("cannot read {name}")]
    Unread { name: String },
    /// The second text is refused: the line that says why, and the status of a run that says it.
    #[error("refused")]
    Rejected { line: Text, status: Status },
    /// Want of memory.
    #[error("out of memory")]
    Memory,
}

impl From<CompileFault> for WorkFault {
    ghost use Rattle.arc_program.specs.inner.Work.{IsWorkFault};

    ghost from_gives = { IsWorkFault };

    fn from(fault: CompileFault) -> WorkFault {
        match fault {
            CompileFault::TooManyArcs { t } => WorkFault::Large { t },
            CompileFault::Memory => WorkFault::Memory,
        }
    }
}

impl From<Memory> for WorkFault {
    ghost use Rattle.std.specs.Prelude.{◌≡◌};
    ghost use Rattle.arc_program.specs.declared.commands.WorkFault.TheVariants as work;

    ghost from_gives = { λ _ fault. fault ≡ work.Memory };

    fn from(_memory: Memory) -> WorkFault {
        WorkFault::Memory
    }
}

/// Does a command's own work, and reads the second text, where the command has one.
pub fn work_on<R: Threads + Sync, H: Shelf>(
    rt: &R,
    alloc: Global,
    command: &Command,
    instance: &Instance,
    shelf: &mut H,
) -> Result<Report, WorkFault>
    requires { IsInRanges (request_of command.now) }
    ensures works { Works (request_of command.now) instance.now (shelf_seen H.Shelf shelf.old) (shelf_seen H.Shelf shelf.new) result }
    ensures writes { KeepsWritten (shelf_seen H.Shelf shelf.old) (shelf_seen H.Shelf shelf.new) }
{
    match command {
        Command::Compile { workers, .. } => Ok(compile::report(rt, alloc, instance, *workers)?),
        Command::Solve {
            nodes,
            cert,
            workers,
            ..
        } => Ok(solve::report(rt, alloc, instance, *nodes, cert.is_some(), *workers)?),
        Command::Export { joint, .. } => export::report(rt, alloc, instance, *joint),
        Command::Extract { solution, .. } => {
            extract::report(rt, alloc, instance, solution.as_str(), shelf)
        }
        Command::Check { cert, workers, .. } => {
            check::report(rt, alloc, instance, cert.as_str(), *workers, shelf)
        }
        Command::Bound { cert, .. } => Ok(bound::report(alloc, instance, cert.is_some())?),
        Command::Make {
            seed,
            size,
            nodes,
            workers,
        } => Ok(make::report(rt, alloc, *seed, *size, instance, *nodes, *workers)?),
    }
}
