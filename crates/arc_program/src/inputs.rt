//! The instance that a command asks about.

ghost use Rattle.std.specs.Prelude.{◌≡◌, MatchResult, ◌⊎◌, ◌≤◌, length};
ghost use Rattle.packing_laws.specs.Layouts.{Reads, BadPlace};
ghost use Rattle.arc_num.specs.declared.TheConstants.{MAX_INSTANCE};
ghost use Rattle.command_words.specs.Requests.{Request, Named, Generated, source_of, request_of, IsSize, IsInRanges};
ghost use Rattle.arc_program.specs.World.{ShelfSeen, shelf_seen};
ghost use Rattle.arc_program.specs.Requests.{layout_for};
ghost use Rattle.arc_program.specs.Reading.{KeepsWritten};
ghost use Rattle.arc_program.specs.inner.Inputs.{IsInput};

use crate::loading::{LoadFault, load};
use arc_io::Shelf;
use arc_num::Memory;
use command_words::{Command, Source};
use mvp_reader::read_mvp;
use packing_laws::{Instance, ReadFault};
use std::alloc::Global;
use thiserror::Error;
use vbp_reader::read_vbp;
use workload::generated;

/// Why no instance was read.
#[derive(Clone, Copy, Debug, PartialEq, Eq, Error)]
pub enum InputFault {
    /// The shelf failed.
    #[error("input failed")]
    Failed,
    /// The text has more than 67,108,864 bytes.
    #[error("too long")]
    Long,
    /// The text is no instance: its first bad place.
    #[error("{fault}")]
    Misread { fault: ReadFault },
    /// Want of memory.
    #[error("out of memory")]
    Memory,
}

/// Reads a text in one of the layouts.
fn parse(alloc: Global, text: &[u8], mvp: bool) -> Result<Instance, ReadFault>
    requires { length text.now ≤ MAX_INSTANCE }
    ensures { MatchResult result (λ I. Reads (layout_for mvp) text.now I) (λ fault. (fault ≡ ReadFault.Memory) ⊎ BadPlace (layout_for mvp) text.now fault) }
{
    if mvp {
        read_mvp(alloc, text)
    } else {
        read_vbp(alloc, text)
    }
}

/// Reads the instance under a name, to its end.
fn read_instance<H: Shelf>(
    alloc: Global,
    shelf: &mut H,
    name: &str,
    mvp: bool,
) -> Result<Instance, InputFault>
    ensures input { (request : Request) → source_of request ≡ Named name.now mvp → IsInput request result (shelf_seen H.Shelf shelf.old) (shelf_seen H.Shelf shelf.new) }
    ensures writes { KeepsWritten (shelf_seen H.Shelf shelf.old) (shelf_seen H.Shelf shelf.new) }
{
    let text = match load(alloc, shelf, name) {
        Ok(text) => text,
        Err(LoadFault::Failed) => return Err(InputFault::Failed),
        Err(LoadFault::Long) => return Err(InputFault::Long),
        Err(LoadFault::Memory) => return Err(InputFault::Memory),
    };
    match parse(alloc, text.as_slice(), mvp) {
        Ok(instance) => {
            instance.known();
            Ok(instance)
        }
        Err(ReadFault::Memory) => Err(InputFault::Memory),
        Err(fault) => Err(InputFault::Misread { fault }),
    }
}

/// Generates an instance from a seed, with so many items.
fn generate(alloc: Global, seed: u64, size: u32) -> Result<Instance, InputFault>
    requires { IsSize size }
    ensures { (request : Request) (shelf : ShelfSeen) → source_of request ≡ Generated seed size → IsInput request result shelf shelf }
{
    match generated(alloc, seed, size) {
        Ok(instance) => {
            instance.known();
            Ok(instance)
        }
        Err(Memory) => Err(InputFault::Memory),
    }
}

/// The instance that a command asks about: it is read to its end, or generated.
pub fn load_instance<H: Shelf>(
    alloc: Global,
    shelf: &mut H,
    command: &Command,
) -> Result<Instance, InputFault>
    requires { IsInRanges (request_of command.now) }
    ensures input { IsInput (request_of command.now) result (shelf_seen H.Shelf shelf.old) (shelf_seen H.Shelf shelf.new) }
    ensures writes { KeepsWritten (shelf_seen H.Shelf shelf.old) (shelf_seen H.Shelf shelf.new) }
{
    match command.source() {
        Source::Named { name, mvp } => read_instance(alloc, shelf, name, mvp),
        Source::Generated { seed, size } => generate(alloc, seed, size),
    }
}
