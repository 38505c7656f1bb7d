//! A worked certificate both ways, and texts with one bad line each.

ghost use Rattle.std.specs.Prelude.{◌≤◌};

use arc_num::{Listed, Memory};
use cert_text::{
    ArcPrice, CertLine, CertReader, Certificate, Claim, ItemPrice, LineAnswer, Prices, TreeLine,
    line_text, lines_have_one_spelling, no_text_begins_another, pieces_do_not_matter,
    write_certificate,
};
use std::alloc::Global;
use std::test::Fail;

const TWO_LEAVES: &[u8] =
    b"vpack-certificate 1\nclaim bound 6\nsplit 1 1\nleaf 0 1 1 1 1 1 -2\nleaf 1 0 1 1 3\nend\n";

fn low_prices(alloc: Global) -> Result<Prices, Memory> {
    let mut items = Listed::empty(alloc);
    items.push(ItemPrice { item: 1, price: 1 })?;
    let mut arcs = Listed::empty(alloc);
    arcs.push(ArcPrice { arc: 1, price: -2 })?;
    Ok(Prices {
        scale: 0,
        items,
        arcs,
    })
}

fn high_prices(alloc: Global) -> Result<Prices, Memory> {
    let mut arcs = Listed::empty(alloc);
    arcs.push(ArcPrice { arc: 1, price: 3 })?;
    Ok(Prices {
        scale: 1,
        items: Listed::empty(alloc),
        arcs,
    })
}

fn two_leaves(alloc: Global) -> Result<Certificate, Memory> {
    let mut lines = Listed::empty(alloc);
    lines.push(TreeLine::Split { arc: 1, k: 1 })?;
    lines.push(TreeLine::Leaf(low_prices(alloc)?))?;
    lines.push(TreeLine::Leaf(high_prices(alloc)?))?;
    Ok(Certificate {
        version: 1,
        claim: Claim::Bound(6),
        goal: None,
        lines,
    })
}

#[test]
fn two_leaves_are_written(rt: HostRuntime) -> Result<(), Fail> {
    let alloc = rt.alloc();
    let text = write_certificate(alloc, &two_leaves(alloc)?)?;
    assert_eq!(rt; text.as_slice(), TWO_LEAVES);
    let mut out = Vec::new(alloc);
    line_text(
        &CertLine::Tree(TreeLine::Leaf(low_prices(alloc)?)),
        &mut out,
    )?;
    line_text(&CertLine::End, &mut out)?;
    assert_eq!(rt; out.as_slice(), b"leaf 0 1 1 1 1 1 -2\nend\n".as_slice());
    lines_have_one_spelling();
    no_text_begins_another();
    pieces_do_not_matter();
    Ok(())
}

#[test]
fn a_line_comes_in_two_pieces(rt: HostRuntime) -> Result<(), Fail> {
    let mut reader = CertReader::new(rt.alloc());
    reader.feed(b"vpack-cert")?;
    assert_eq!(rt; reader.line(), LineAnswer::NotYet);
    reader.feed(b"ificate 1\nclaim")?;
    assert_eq!(rt;
        reader.line(),
        LineAnswer::Line(CertLine::Head { version: 1 })
    );
    assert_eq!(rt; reader.rest(), 5);
    Ok(())
}

/// The first bad line of a text that is fed in pieces of so many bytes, and how many bytes are not read.
fn first_bad(alloc: Global, text: &[u8], size: usize) -> Result<(Option<u64>, usize), Memory>
    requires { 1 ≤ size }
{
    let mut reader = CertReader::new(alloc);
    for piece in text.chunks(size) {
        reader.feed(piece)?;
    }
    for _ in 0..20u32 {
        match reader.line() {
            LineAnswer::Line(_) => {}
            LineAnswer::NotYet => return Ok((None, reader.rest())),
            LineAnswer::Bad { line } => return Ok((Some(line), reader.rest())),
            LineAnswer::Memory => return Err(Memory),
        }
    }
    Ok((None, reader.rest()))
}

/// Texts, with their first bad line if they have one.
const BAD_LINES: [(&str, Option<u64>); 21] = [
    (
        "vpack-certificate 3\nclaim bound 3 goal 3\nstep 1 5\nend\n",
        None,
    ),
    (
        "vpack-certificate 2\nclaim bound 5 goal 6\nneed 1 1 2 3 1 3 2 3 5 3\n",
        None,
    ),
    (
        "vpack-certificate 1\nclaim bound 4611686018427387904\n",
        None,
    ),
    ("vpack-certificate 01\n", Some(1)),
    ("vpack-certificate  1\n", Some(1)),
    ("vpack-certificate 1\r\n", Some(1)),
    ("vpack-certificate\t1\n", Some(1)),
    ("vpack-certificate 1 \n", Some(1)),
    ("vpack-certificate 4\n", Some(1)),
    (
        "vpack-certificate 1\nclaim bound 4611686018427387905\n",
        Some(2),
    ),
    ("vpack-certificate 1\nclaim bound 6 goal 6\n", Some(2)),
    ("vpack-certificate 2\nclaim bound 6\n", Some(2)),
    ("vpack-certificate 2\nclaim bound 6 goal 8\n", Some(2)),
    (
        "vpack-certificate 1\nclaim empty\nneed 1 1 2 3 1 3 2 3 5 3\n",
        Some(3),
    ),
    ("vpack-certificate 2\nclaim empty\nstep 1 5\n", Some(3)),
    (
        "vpack-certificate 1\nclaim empty\nleaf 1 2 2 1 1 1 0\n",
        Some(3),
    ),
    (
        "vpack-certificate 1\nclaim empty\nleaf 1 1 1 0 0\n",
        Some(3),
    ),
    (
        "vpack-certificate 1\nclaim empty\nleaf 1 0 1 1 03\n",
        Some(3),
    ),
    (
        "vpack-certificate 1\nclaim empty\nleaf 1 0 1 1 -0\n",
        Some(3),
    ),
    (
        "vpack-certificate 1\nclaim empty\nsplit 1 4294967296\n",
        Some(3),
    ),
    ("vpack-certificate 1\nclaim empty\nend\nend\n", Some(4)),
];

#[test]
fn texts_have_these_bad_lines(rt: HostRuntime) -> Result<(), Fail> {
    for (text, bad) in BAD_LINES {
        assert_eq!(rt; first_bad(rt.alloc(), text.as_bytes(), 1)?.0, bad);
        assert_eq!(rt; first_bad(rt.alloc(), text.as_bytes(), 1000)?.0, bad);
    }
    Ok(())
}
