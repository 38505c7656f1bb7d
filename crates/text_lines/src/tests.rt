//! Lines that end in each way, and their fields.

use crate::{is_indented, next_field, split_line, two_fields};

#[test]
fn lines_and_fields_are_cut(rt: HostRuntime) {
    let texts: [(&[u8], &[u8], &[u8]); 6] = [
        (b"a b\nc", b"a b", b"c"),
        (b"a\r\nb", b"a", b"b"),
        (b"a\r\r\n", b"a\r", b""),
        (b"\r\n\n", b"", b"\n"),
        (b"a\rb", b"a\rb", b""),
        (b"a\r", b"a\r", b""),
    ];
    for (text, first, behind) in texts {
        if !text.is_empty() {
            let (line, rest) = split_line(text);
            assert!(rt; line == first && rest == behind);
        }
    }
    let (field, rest) = next_field(b" \tab\r\tc");
    assert!(rt; field == b"ab\r".as_slice() && rest == b"\tc".as_slice());
    assert!(rt; two_fields(b"\ta  b ") == Some((b"a".as_slice(), b"b".as_slice())));
    assert!(rt; two_fields(b"a b c").is_none() && two_fields(b" a").is_none());
    assert!(rt; is_indented(b"\ta") && !is_indented(b"a b") && !is_indented(b""));
}
