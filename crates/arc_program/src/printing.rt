//! Putting texts on a sink, a line at a time.

ghost use Rattle.std.specs.Prelude.{◌≡◌, ◌∷◌, ◌<◌, ◌≤◌, length, drop, slice_range};
ghost use Rattle.std.specs.List.{position};
ghost use Rattle.arc_program.specs.World.{sink_seen};
ghost use Rattle.arc_program.specs.Printing.{lines_of};
ghost use Rattle.arc_program.specs.inner.Printing.{Prints, is_line_feed};

use arc_io::{IoFault, Sink};

/// The place of the first line feed.
fn first_feed(bytes: &[u8]) -> Option<usize>
    ensures { result ≡ position is_line_feed bytes.now }
{
    bytes.iter().position(|byte| *byte == b'\n')
}

/// Where the line that begins at `from` ends: behind its line feed, or at the end of the text.
pub fn line_end(text: &[u8], from: usize) -> usize
    requires { from < length text.now }
    ensures after { from < result }
    ensures within { result ≤ length text.now }
    ensures line { lines_of (drop from text.now) ≡ slice_range text.now from result ∷ lines_of (drop result text.now) }
{
    match first_feed(&text[from..]) {
        Some(i) => from + i + 1,
        None => text.len(),
    }
}

/// Puts a text on a sink, one put for each line. After a put that fails no more is put.
pub fn put_lines<K: Sink>(out: &mut K, text: &[u8]) -> Result<(), IoFault>
    ensures { Prints result text.now (sink_seen K.Sink out.old) (sink_seen K.Sink out.new) }
{
    let mut at = 0;
    'lines: while at < text.len() {
        let end = line_end(text, at);
        match out.put(&text[at..end]) {
            Ok(()) => {}
            Err(fault) => return Err(fault),
        }
        at = end;
    }
    Ok(())
}
