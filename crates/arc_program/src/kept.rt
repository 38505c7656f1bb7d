//! The report on a packing whose empty bins are kept.

ghost use Rattle.std.specs.Prelude.{◌≡◌, ◌++◌, OnOk, IfOk};
ghost use Rattle.packing_laws.specs.Packings.{cost_of};
ghost use Rattle.packing_laws.specs.Printed.{bins_of, holds_units, IsWrittenPacking};
ghost use Rattle.arc_program.specs.Reports.{bins_text, packing_line};
ghost use Rattle.arc_program.specs.Kept.{empties_of, empty_line, empty_lines};
ghost use Rattle.arc_program.specs.inner.Extracting.{IsKeptText};

use crate::reports::push_bins;
use arc_num::{Memory, push_bytes, push_number};
use packing_laws::{Bin, Instance, Packing, cost, packings_fit, tidy};
use std::alloc::Global;

/// Whether a bin holds some unit.
fn holds_units(bin: &Bin) -> bool
    ensures { result ≡ holds_units bin.now }
{
    for count in bin.counts.as_slice() {
        if count.count > 0 {
            return true;
        }
    }
    false
}

/// How many bins of a type hold nothing.
fn empty_count(bins: &[Bin], t: u32) -> u128
    ensures { result ≡ empties_of t bins.now }
{
    let mut total = 0u128;
    for bin in bins {
        if !holds_units(bin) && bin.bin_type == t {
            total += u128::from(bin.times);
        }
    }
    total
}

fn push_empty_line(out: &mut Vec<u8>, t: u32, times: u128) -> Result<(), Memory>
    ensures { OnOk result (out.new.items ≡ out.old.items ++ bins_text (empty_line t times)) }
{
    if times == 0 {
        return Ok(());
    }
    push_number(out, times)?;
    push_bytes(out, b" type ")?;
    push_number(out, u128::from(t))?;
    push_bytes(out, b":")?;
    push_bytes(out, b"\n")
}

/// A line for each of so many types that has bins that hold nothing.
fn push_empty_lines(out: &mut Vec<u8>, types: u32, bins: &[Bin]) -> Result<(), Memory>
    ensures { OnOk result (out.new.items ≡ out.old.items ++ bins_text (empty_lines types bins.now)) }
{
    for t in 0..types {
        push_empty_line(out, t + 1, empty_count(bins, t + 1))?;
    }
    Ok(())
}

fn push_packing_line(out: &mut Vec<u8>, cost: u128) -> Result<(), Memory>
    ensures { OnOk result (out.new.items ≡ out.old.items ++ packing_line cost) }
{
    push_bytes(out, b"packing ")?;
    push_number(out, cost)?;
    push_bytes(out, b"\n")
}

/// The report on a packing: its cost, the bins that hold some unit in the printed form, and behind them the others, type by
/// type.
pub fn packing_text(
    alloc: Global,
    instance: &Instance,
    mut packing: Packing,
) -> Result<Vec<u8>, Memory>
    requires { IsWrittenPacking instance.now packing }
    ensures { IfOk result (λ text. IsKeptText instance.now packing text.items) }
{
    instance.known();
    packings_fit();
    let mut out = Vec::new(alloc);
    let mut empties = Vec::new(alloc);
    push_packing_line(&mut out, cost(instance, &packing))?;
    push_empty_lines(&mut empties, instance.type_count(), packing.bins())?;
    tidy(&mut packing)?;
    push_bins(&mut out, packing.bins())?;
    push_bytes(&mut out, empties.as_slice())?;
    Ok(out)
}
