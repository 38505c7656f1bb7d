//! Reading a whole text from a shelf.

ghost use Rattle.std.specs.Prelude.{◌≡◌, ◌≢◌, ◌+◌, ◌<◌, ◌≤◌, [], IfOk, IfSome, OnOk, MatchResult, length, vec_len};
ghost use Rattle.arc_program.specs.World.{shelf_seen};
ghost use Rattle.arc_program.specs.Reading.{KeepsWritten};
ghost use Rattle.arc_program.specs.inner.Loading.{CountsLoad, ReadsPiece, TakesAtMost, Loads};

use arc_io::{IoFault, Shelf};
use arc_num::{Listed, MAX_INSTANCE};
use std::alloc::Global;
use thiserror::Error;

/// Bytes that are read or printed.
pub type Text = Listed<u8>;

/// How many bytes are read at once, at most.
pub const PIECE: usize = 65_536;

/// Why a text was not read.
#[derive(Clone, Copy, Debug, PartialEq, Eq, Error)]
pub enum LoadFault {
    /// The shelf failed.
    #[error("input failed")]
    Failed,
    /// The text has more than 67,108,864 bytes.
    #[error("too long")]
    Long,
    /// Want of memory.
    #[error("out of memory")]
    Memory,
}

/// Reads at most as many bytes as the piece has, and puts them at the end of the text. 0 is the end.
fn read_piece<H: Shelf>(
    shelf: &mut H,
    piece: &mut [u8],
    text: &mut Vec<u8>,
) -> Result<usize, LoadFault>
    requires some { 0 < length piece.old }
    requires few { length piece.old ≤ PIECE }
    ensures count { IfOk result (λ n. n ≤ length piece.old) }
    ensures text { ReadsPiece result text.old.items text.new.items (H.left shelf.old) (H.left shelf.new) }
    ensures taken { TakesAtMost (length piece.old) (H.left shelf.old) (H.left shelf.new) }
    ensures not_long { result ≢ Err LoadFault.Long }
    ensures faults { CountsLoad result (H.read_faults shelf.old) (H.read_faults shelf.new) }
    ensures asked { H.asked shelf.new ≡ H.asked shelf.old }
    ensures writes { KeepsWritten (shelf_seen H.Shelf shelf.old) (shelf_seen H.Shelf shelf.new) }
{
    let n = match shelf.more(piece) {
        Ok(n) => n,
        Err(IoFault::Failed) => return Err(LoadFault::Failed),
        Err(IoFault::Memory) => return Err(LoadFault::Memory),
    };
    match text.extend_from_slice(&piece[..n]) {
        Ok(()) => Ok(n),
        Err(_) => Err(LoadFault::Memory),
    }
}

/// Reads what is left of the started name onto an empty text.
fn read_rest<H: Shelf>(shelf: &mut H, space: &mut [u8], text: &mut Vec<u8>) -> Result<(), LoadFault>
    requires space { length space.old ≡ PIECE }
    requires empty { text.old.items ≡ [] }
    ensures length { OnOk result (vec_len text.new ≤ MAX_INSTANCE) }
    ensures all { OnOk result (IfSome (H.left shelf.old) (λ all. text.new.items ≡ all)) }
    ensures taken { TakesAtMost (MAX_INSTANCE + 1) (H.left shelf.old) (H.left shelf.new) }
    ensures long { result ≡ Err LoadFault.Long → IfSome (H.left shelf.old) (λ all. MAX_INSTANCE < length all) }
    ensures faults { CountsLoad result (H.read_faults shelf.old) (H.read_faults shelf.new) }
    ensures asked { H.asked shelf.new ≡ H.asked shelf.old }
    ensures writes { KeepsWritten (shelf_seen H.Shelf shelf.old) (shelf_seen H.Shelf shelf.new) }
{
    'pieces: while text.len() <= MAX_INSTANCE {
        let size = PIECE.min(MAX_INSTANCE + 1 - text.len());
        let n = match read_piece(shelf, &mut space[..size], text) {
            Ok(n) => n,
            Err(fault) => return Err(fault),
        };
        if n == 0 {
            return Ok(());
        }
    }
    Err(LoadFault::Long)
}

/// So many bytes, all 0.
pub fn buffer_of(alloc: Global, size: usize) -> Result<Vec<u8>, LoadFault>
    ensures { MatchResult result (λ buffer. vec_len buffer ≡ size) (λ fault. fault ≡ LoadFault.Memory) }
{
    match vec![in alloc; 0u8; size] {
        Ok(buffer) => Ok(buffer),
        Err(_) => Err(LoadFault::Memory),
    }
}

/// Reads all that a name holds, up to the greatest length of an instance's text and one byte more.
pub fn load<H: Shelf>(alloc: Global, shelf: &mut H, name: &str) -> Result<Text, LoadFault>
    ensures loads { Loads name.now result (shelf_seen H.Shelf shelf.old) (shelf_seen H.Shelf shelf.new) }
    ensures writes { KeepsWritten (shelf_seen H.Shelf shelf.old) (shelf_seen H.Shelf shelf.new) }
{
    match shelf.start(name) {
        Ok(()) => {}
        Err(IoFault::Failed) => return Err(LoadFault::Failed),
        Err(IoFault::Memory) => return Err(LoadFault::Memory),
    }
    let mut buffer = match buffer_of(alloc, PIECE) {
        Ok(buffer) => buffer,
        Err(fault) => return Err(fault),
    };
    let mut text = Vec::new(alloc);
    match read_rest(shelf, buffer.as_mut_slice(), &mut text) {
        Ok(()) => Ok(Text::new(text)),
        Err(fault) => Err(fault),
    }
}
