//! Cutting a text into lines.

ghost use Rattle.std.specs.Prelude.{◌≡◌, ◌<◌, ◌==◌, ◌∷◌, length, position};
ghost use Rattle.text_lines.specs.Lines.{lines_of, without_return};

/// The first line of a text that is not empty, and the text behind it. A line ends with a line feed, with or without a
/// carriage return directly before it; the last line of a text may lack its line feed.
pub fn split_line(text: &[u8]) -> (&[u8], &[u8])
    requires { 0 < length text.now }
    ensures lines { lines_of text.now ≡ result.0.now ∷ lines_of result.1.now }
    ensures less { length result.1.now < length text.now }
{
    match line_feed(text) {
        None => (text, &text[text.len()..]),
        Some(at) => (without_return(&text[..at]), &text[at + 1..]),
    }
}

fn line_feed(text: &[u8]) -> Option<usize>
    ensures { result ≡ position (λ b. b == 10) text.now }
{
    text.iter().position(|byte| *byte == b'\n')
}

fn without_return(line: &[u8]) -> &[u8]
    ensures { result.now ≡ without_return line.now }
{
    match line.strip_suffix(b"\r") {
        Some(front) => front,
        None => line,
    }
}
