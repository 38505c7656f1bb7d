//! What is said of a certificate that is checked.

ghost use Rattle.std.specs.Prelude.{◌≡◌, ◌++◌, OnOk, IfOk};
ghost use Rattle.arc_program.specs.Verdicts.{claim_text, cause_said, faulty_line};

use crate::rejections::{line_said, named_line};
use arc_num::{Memory, push_bytes, push_number};
use cert_laws::Cause;
use cert_text::Claim;
use std::alloc::Global;

fn push_bound(out: &mut Vec<u8>, bound: u64) -> Result<(), Memory>
    ensures { OnOk result (out.new.items ≡ out.old.items ++ claim_text (Claim.Bound bound)) }
{
    push_bytes(out, b"accepted bound ")?;
    push_number(out, u128::from(bound))?;
    push_bytes(out, b"\n")
}

fn push_claim(out: &mut Vec<u8>, claim: Claim) -> Result<(), Memory>
    ensures { OnOk result (out.new.items ≡ out.old.items ++ claim_text claim) }
{
    match claim {
        Claim::Bound(bound) => push_bound(out, bound),
        Claim::Empty => push_bytes(out, b"accepted empty\n"),
    }
}

/// The report of `check` on a certificate that is accepted.
pub fn check_text(alloc: Global, claim: &Claim) -> Result<Vec<u8>, Memory>
    ensures { IfOk result (λ text. text.items ≡ claim_text claim.now) }
{
    let mut out = Vec::new(alloc);
    push_claim(&mut out, *claim)?;
    Ok(out)
}

fn push_cause(said: &mut Vec<u8>, cause: Cause) -> Result<(), Memory>
    ensures { OnOk result (said.new.items ≡ said.old.items ++ cause_said cause) }
{
    match cause {
        Cause::Text => push_bytes(said, b"bad text"),
        Cause::Extra => push_bytes(said, b"past the end"),
        Cause::Unfinished => push_bytes(said, b"places left"),
        Cause::NoItem => push_bytes(said, b"no such item"),
        Cause::NoArc => push_bytes(said, b"no such arc"),
        Cause::NotSplit => push_bytes(said, b"not a split"),
        Cause::NotNeeded => push_bytes(said, b"not needed"),
        Cause::NotStep => push_bytes(said, b"not a step"),
        Cause::Gain { t } => {
            push_bytes(said, b"type ")?;
            push_number(said, u128::from(t))?;
            push_bytes(said, b" gains too much")
        }
        Cause::Weak => push_bytes(said, b"does not close"),
    }
}

/// The line on the first faulty line of the certificate under this name.
pub fn faulty_line(alloc: Global, name: &str, number: u64, cause: Cause) -> Result<Vec<u8>, Memory>
    ensures { IfOk result (λ line. line.items ≡ faulty_line name.now number cause) }
{
    let mut said = Vec::new(alloc);
    push_cause(&mut said, cause)?;
    let said = line_said(alloc, number, said.as_slice())?;
    named_line(alloc, name, said.as_slice())
}
