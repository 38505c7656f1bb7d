//! A reader that takes a certificate's text in any pieces.

ghost use Rattle.std.specs.Prelude.{◌≡◌, ◌<◌, ◌≤◌, ◌^◌, ◌++◌, length, OnOk, OnErr};
ghost use Rattle.cert_text.specs.Reading.{beginning};
ghost use Rattle.cert_text.specs.inner.Kept.{Places};
ghost use Rattle.cert_text.specs.Streams.{version_after, is_end, Answers, Takes};

use crate::answer::LineAnswer;
use crate::faults::LineFault;
use crate::fields::first_place;
use crate::lines::CertLine;
use crate::parse::line_of;
use arc_num::{MAX_LINE, Memory, push_bytes};
use std::alloc::Global;
use std::marker::Model;

/// The lines of a certificate's text, one after the other, while it comes in pieces. It holds the bytes that are not read
/// yet, and at most as many again that are: so a text of any length takes the memory of its longest line and piece, and each
/// byte is moved and looked through a bounded number of times.
#[derive(Drop)]
pub struct CertReader {
    bytes: Vec<u8>,
    /// Where the unread bytes begin, and up to where no line feed stands in them.
    start: usize,
    clear: usize,
    read: u64,
    version: u32,
    is_ended: bool,
    is_bad: bool,
}

impl Model for CertReader {
    ghost use Rattle.std.specs.Prelude.{◌≤◌, length, drop, slice_range};
    ghost use Rattle.cert_text.specs.Reading.{ReaderValue};
    ghost use Rattle.cert_text.specs.inner.Kept.{IsKept};

    ghost Value = { ReaderValue };

    ghost view = { λ s. record { read = s.read; version = s.version; ended = s.is_ended; bad = s.is_bad; unread = drop s.start s.bytes.items } };

    ghost invariant = { λ s. IsKept s.bytes.items s.start s.clear s.version };
}

impl CertReader {
    /// A reader that has nothing yet. It takes no memory.
    pub fn new(alloc: Global) -> CertReader
        ensures { result ≡ beginning }
    {
        CertReader {
            bytes: Vec::new(alloc),
            start: 0,
            clear: 0,
            read: 0,
            version: 1,
            is_ended: false,
            is_bad: false,
        }
    }

    /// Appends a piece of the text, of any length, to the bytes that are not read yet.
    pub fn feed(&mut self, piece: &[u8]) -> Result<(), Memory>
        ensures ok { OnOk result (Takes self.old piece.now self.new) }
        ensures err { OnErr result (self.new ≡ self.old) }
    {
        self.forget();
        push_bytes(&mut self.bytes, piece)
    }

    /// Drops the bytes that are read, where they are at least as many as the others.
    fn forget(&mut self)
        ensures { self.new ≡ self.old }
    {
        let left = self.bytes.len() - self.start;
        if left <= self.start {
            self.bytes.copy_within(self.start.., 0);
            self.bytes.truncate(left);
            self.clear -= self.start;
            self.start = 0;
        }
    }

    /// Reads the next line. After `Bad` it answers the same again; after `Memory` it can be asked again.
    pub fn line(&mut self) -> LineAnswer
        requires { self.old.read < 2 ^ 62 }
        ensures { Answers self.old result self.new }
    {
        let line = self.read + 1;
        if self.is_bad {
            return LineAnswer::Bad { line };
        }
        let bytes = self.bytes.as_slice();
        let Some(gap) = first_place(&bytes[self.clear..], b'\n') else {
            self.clear = bytes.len();
            if self.clear - self.start <= MAX_LINE {
                return LineAnswer::NotYet;
            }
            self.is_bad = true;
            return LineAnswer::Bad { line };
        };
        let end = self.clear + gap;
        let alloc = *self.bytes.allocator();
        let text = &bytes[self.start..end];
        match placed(alloc, text, self.read, self.version, self.is_ended) {
            Err(LineFault::Memory) => LineAnswer::Memory,
            Err(LineFault::Bad) => {
                self.is_bad = true;
                LineAnswer::Bad { line }
            }
            Ok(found) => {
                self.start = end + 1;
                self.clear = end + 1;
                self.read = line;
                self.version = version_after(self.version, &found);
                self.is_ended = is_end(&found);
                LineAnswer::Line(found)
            }
        }
    }

    /// The number of bytes that are not read yet.
    pub fn rest(&self) -> usize
        ensures { result ≡ length self.now.unread }
    {
        self.bytes.len() - self.start
    }
}

/// The line that a text without its line feed spells, in its place; none is behind the end line.
fn placed(
    alloc: Global,
    text: &[u8],
    read: u64,
    version: u32,
    is_ended: bool,
) -> Result<CertLine, LineFault>
    requires { 1 ≤ version }
    ensures { Places result text.now read version is_ended }
{
    if is_ended {
        return Err(LineFault::Bad);
    }
    line_of(alloc, text, read, version)
}

/// The version behind a line.
fn version_after(version: u32, line: &CertLine) -> u32
    ensures { result ≡ version_after version line.now }
{
    match line {
        CertLine::Head { version } => *version,
        _ => version,
    }
}

fn is_end(line: &CertLine) -> bool
    ensures { result ≡ is_end line.now }
{
    matches!(line, CertLine::End)
}
