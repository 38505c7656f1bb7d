//! Writing texts on a shelf, and with them the certificates of reports.

ghost use Rattle.std.specs.Prelude.{◌≡◌, true, option_map, string_bytes};
ghost use Rattle.arc_program.specs.World.{shelf_seen};
ghost use Rattle.arc_program.specs.Writing.{WritesUnder};
ghost use Rattle.arc_program.specs.inner.Storing.{Makes, Closes, PutsAll, WritesFile, Stores};

use crate::loading::Text;
use crate::printing::line_end;
use arc_io::{IoFault, Shelf};
use thiserror::Error;

/// Why a certificate was not written.
#[derive(Debug, Drop, Error)]
pub enum StoreFault {
    /// The shelf failed under this name.
    #[error("cannot write {name}")]
    Failed { name: String },
    /// Want of memory.
    #[error("out of memory")]
    Memory,
}

/// Begins to write a name.
fn create<H: Shelf>(shelf: &mut H, name: &str) -> Result<(), IoFault>
    ensures { Makes result name.now (shelf_seen H.Shelf shelf.old) (shelf_seen H.Shelf shelf.new) }
{
    shelf.create(name)
}

/// Ends the writing.
fn close<H: Shelf>(shelf: &mut H) -> Result<(), IoFault>
    requires { H.writing shelf.old ≡ true }
    ensures { Closes result (shelf_seen H.Shelf shelf.old) (shelf_seen H.Shelf shelf.new) }
{
    shelf.close()
}

/// Puts a text under the name that is being written, one put for each line. After a put that is refused no more is put.
fn put_text<H: Shelf>(shelf: &mut H, text: &[u8]) -> Result<(), IoFault>
    requires { H.writing shelf.old ≡ true }
    ensures { PutsAll result text.now (shelf_seen H.Shelf shelf.old) (shelf_seen H.Shelf shelf.new) }
{
    let mut at = 0;
    'lines: while at < text.len() {
        let end = line_end(text, at);
        match shelf.put(&text[at..end]) {
            Ok(()) => {}
            Err(fault) => return Err(fault),
        }
        at = end;
    }
    Ok(())
}

/// Writes a text under a name. A name that was created is closed, whatever was answered.
pub fn write_file<H: Shelf>(shelf: &mut H, name: &str, text: &[u8]) -> Result<(), IoFault>
    ensures { WritesFile result name.now text.now (shelf_seen H.Shelf shelf.old) (shelf_seen H.Shelf shelf.new) }
{
    match create(shelf, name) {
        Ok(()) => {}
        Err(fault) => return Err(fault),
    }
    match put_text(shelf, text) {
        Ok(()) => close(shelf),
        Err(fault) => {
            let _ = close(shelf);
            Err(fault)
        }
    }
}

/// Writes a certificate under its name, where there are both.
pub fn store<H: Shelf>(
    shelf: &mut H,
    name: Option<String>,
    certificate: &Option<Text>,
) -> Result<(), StoreFault>
    ensures stores { Stores result (option_map string_bytes name) certificate.now (shelf_seen H.Shelf shelf.old) (shelf_seen H.Shelf shelf.new) }
    ensures writes { WritesUnder (option_map string_bytes name) (shelf_seen H.Shelf shelf.old) (shelf_seen H.Shelf shelf.new) }
{
    let Some(name) = name else {
        return Ok(());
    };
    let Some(text) = certificate else {
        return Ok(());
    };
    match write_file(shelf, name.as_str(), text.as_slice()) {
        Ok(()) => Ok(()),
        Err(IoFault::Failed) => Err(StoreFault::Failed { name }),
        Err(IoFault::Memory) => Err(StoreFault::Memory),
    }
}
