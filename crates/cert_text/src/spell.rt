//! Writing lines.

ghost use Rattle.std.specs.Prelude.{◌≡◌, ◌++◌, ◌∷◌, flat_map, decimal, length, OnOk, OnErr, IfOk};
ghost use Rattle.arc_num.specs.Decimals.{signed_decimal};
ghost use Rattle.cert_text.specs.Spelling.{word_of, fields_of, claim_fields, line_text_of, certificate_text_of};
ghost use Rattle.cert_text.specs.inner.Written.{spaced, item_text, arc_text, part_text, items_text, arcs_text, need_text, prices_text};

use crate::lines::{
    ArcPart, ArcPrice, CertLine, Certificate, Claim, ItemPrice, Need, Prices, TreeLine,
};
use arc_num::{Memory, push_bytes, push_number, push_signed};
use std::alloc::Global;

/// Appends the one spelling of a line, with its line feed. The line is made apart and then appended, so want of memory leaves
/// nothing half written.
pub fn line_text(line: &CertLine, out: &mut Vec<u8>) -> Result<(), Memory>
    ensures ok { OnOk result (out.new.items ≡ out.old.items ++ line_text_of line.now) }
    ensures err { OnErr result (out.new.items ≡ out.old.items) }
{
    let mut text = Vec::new(*out.allocator());
    push_line(&mut text, line)?;
    push_bytes(out, text.as_slice())
}

/// The text of a certificate. It is made whole, in memory; `line_text` writes it line by line.
pub fn write_certificate(alloc: Global, certificate: &Certificate) -> Result<Vec<u8>, Memory>
    ensures { IfOk result (λ text. text.items ≡ certificate_text_of certificate.now) }
{
    let mut out = Vec::new(alloc);
    push_head(&mut out, certificate.version)?;
    push_claim(&mut out, certificate.claim, certificate.goal)?;
    push_tree_lines(&mut out, certificate.lines.as_slice())?;
    push_bytes(&mut out, b"end\n")?;
    Ok(out)
}

fn push_line(out: &mut Vec<u8>, line: &CertLine) -> Result<(), Memory>
    ensures { OnOk result (out.new.items ≡ out.old.items ++ line_text_of line.now) }
{
    match line {
        CertLine::Head { version } => push_head(out, *version),
        CertLine::Claim { claim, goal } => push_claim(out, *claim, *goal),
        CertLine::Tree(line) => push_tree_line(out, line),
        CertLine::End => push_bytes(out, b"end\n"),
    }
}

fn push_field(out: &mut Vec<u8>, number: u64) -> Result<(), Memory>
    ensures { OnOk result (out.new.items ≡ out.old.items ++ 32 ∷ decimal number) }
{
    push_bytes(out, b" ")?;
    push_number(out, u128::from(number))
}

fn push_small(out: &mut Vec<u8>, number: u32) -> Result<(), Memory>
    ensures { OnOk result (out.new.items ≡ out.old.items ++ 32 ∷ decimal number) }
{
    push_bytes(out, b" ")?;
    push_number(out, u128::from(number))
}

fn push_price(out: &mut Vec<u8>, price: i64) -> Result<(), Memory>
    ensures { OnOk result (out.new.items ≡ out.old.items ++ 32 ∷ signed_decimal price) }
{
    push_bytes(out, b" ")?;
    push_signed(out, price)
}

fn push_head(out: &mut Vec<u8>, version: u32) -> Result<(), Memory>
    ensures { OnOk result (out.new.items ≡ out.old.items ++ line_text_of (CertLine.Head version)) }
{
    push_bytes(out, b"vpack-certificate")?;
    push_small(out, version)?;
    push_bytes(out, b"\n")
}

fn push_claim(out: &mut Vec<u8>, claim: Claim, goal: Option<u64>) -> Result<(), Memory>
    ensures { OnOk result (out.new.items ≡ out.old.items ++ line_text_of (CertLine.Claim claim goal)) }
{
    match (claim, goal) {
        (Claim::Empty, _) => push_bytes(out, b"claim empty\n"),
        (Claim::Bound(bound), None) => {
            push_bytes(out, b"claim bound")?;
            push_field(out, bound)?;
            push_bytes(out, b"\n")
        }
        (Claim::Bound(bound), Some(goal)) => {
            push_bytes(out, b"claim bound")?;
            push_field(out, bound)?;
            push_bytes(out, b" goal")?;
            push_field(out, goal)?;
            push_bytes(out, b"\n")
        }
    }
}

fn push_tree_lines(out: &mut Vec<u8>, lines: &[TreeLine]) -> Result<(), Memory>
    ensures { OnOk result (out.new.items ≡ out.old.items ++ flat_map (λ line. line_text_of (CertLine.Tree line)) lines.now) }
{
    for line in lines {
        push_tree_line(out, line)?;
    }
    Ok(())
}

fn push_tree_line(out: &mut Vec<u8>, line: &TreeLine) -> Result<(), Memory>
    ensures { OnOk result (out.new.items ≡ out.old.items ++ line_text_of (CertLine.Tree line.now)) }
{
    match line {
        TreeLine::Split { arc, k } => push_split(out, *arc, *k),
        TreeLine::Needed { arc, k, need } => push_needed(out, *arc, *k, need),
        TreeLine::Leaf(prices) => push_leaf(out, prices),
        TreeLine::Step { dim, step } => push_step(out, *dim, *step),
    }
}

fn push_split(out: &mut Vec<u8>, arc: u32, k: u32) -> Result<(), Memory>
    ensures { OnOk result (out.new.items ≡ out.old.items ++ line_text_of (CertLine.Tree (TreeLine.Split arc k))) }
{
    push_bytes(out, b"split")?;
    push_small(out, arc)?;
    push_small(out, k)?;
    push_bytes(out, b"\n")
}

fn push_step(out: &mut Vec<u8>, dim: u32, step: u32) -> Result<(), Memory>
    ensures { OnOk result (out.new.items ≡ out.old.items ++ line_text_of (CertLine.Tree (TreeLine.Step dim step))) }
{
    push_bytes(out, b"step")?;
    push_small(out, dim)?;
    push_small(out, step)?;
    push_bytes(out, b"\n")
}

fn push_needed(out: &mut Vec<u8>, arc: u32, k: u32, need: &Need) -> Result<(), Memory>
    ensures { OnOk result (out.new.items ≡ out.old.items ++ line_text_of (CertLine.Tree (TreeLine.Needed arc k need.now))) }
{
    push_bytes(out, b"need")?;
    push_small(out, arc)?;
    push_small(out, k)?;
    push_need(out, need)?;
    push_bytes(out, b"\n")
}

fn push_need(out: &mut Vec<u8>, need: &Need) -> Result<(), Memory>
    ensures { OnOk result (out.new.items ≡ out.old.items ++ need_text need.now) }
{
    push_field(out, need.scale)?;
    push_parts(out, need.parts.as_slice())
}

fn push_parts(out: &mut Vec<u8>, parts: &[ArcPart]) -> Result<(), Memory>
    ensures { OnOk result (out.new.items ≡ out.old.items ++ ((32 ∷ decimal (length parts.now)) ++ flat_map part_text parts.now)) }
{
    push_field(out, parts.len() as u64)?;
    for part in parts {
        push_small(out, part.arc)?;
        push_field(out, part.value)?;
    }
    Ok(())
}

fn push_leaf(out: &mut Vec<u8>, prices: &Prices) -> Result<(), Memory>
    ensures { OnOk result (out.new.items ≡ out.old.items ++ line_text_of (CertLine.Tree (TreeLine.Leaf prices.now))) }
{
    push_bytes(out, b"leaf")?;
    push_prices(out, prices)?;
    push_bytes(out, b"\n")
}

fn push_prices(out: &mut Vec<u8>, prices: &Prices) -> Result<(), Memory>
    ensures { OnOk result (out.new.items ≡ out.old.items ++ prices_text prices.now) }
{
    push_field(out, prices.scale)?;
    push_items(out, prices.items.as_slice())?;
    push_arcs(out, prices.arcs.as_slice())
}

fn push_items(out: &mut Vec<u8>, items: &[ItemPrice]) -> Result<(), Memory>
    ensures { OnOk result (out.new.items ≡ out.old.items ++ items_text items.now) }
{
    push_field(out, items.len() as u64)?;
    for item in items {
        push_small(out, item.item)?;
        push_field(out, item.price)?;
    }
    Ok(())
}

fn push_arcs(out: &mut Vec<u8>, arcs: &[ArcPrice]) -> Result<(), Memory>
    ensures { OnOk result (out.new.items ≡ out.old.items ++ arcs_text arcs.now) }
{
    push_field(out, arcs.len() as u64)?;
    for arc in arcs {
        push_small(out, arc.arc)?;
        push_price(out, arc.price)?;
    }
    Ok(())
}
