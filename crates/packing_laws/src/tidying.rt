ghost use Rattle.std.specs.Prelude.{◌≡◌, ℕ, ◌+◌, ◌^◌, ◌<◌, ◌≤◌, ◌↔◌, ◌∷◌, ◌++◌, All, IsTrue, IsErr, IfOk, filter, map, nat_lt, sum_by, if◌then◌else◌};
ghost use Rattle.std.specs.declared.cmp.Ordering.TheVariants.{Equal};
ghost use Rattle.packing_laws.specs.Printed.{bins_of, filled_bins, units_in, holds_units, form_cmp, bin_cmp, SameContent, AreAlike, IsTidyContent, IsTidyBin, IsTidied, IsWrittenPacking, SumsFit};
ghost use Rattle.packing_laws.specs.Instances.{InstanceValue};
ghost use Rattle.packing_laws.specs.Packings.{cost_of};
ghost use Rattle.packing_laws.specs.Floors.{HasOneUnitEach};
ghost use Rattle.packing_laws.specs.inner.Tidying.{put_last, merged, joined_count, joined_bin, bin_of};

use crate::packings::{Bin, Count, Counts, Packing};
use arc_num::Memory;
use std::alloc::Global;

/// Bins that are alike, as they are sorted: by type, by what is in them, and then by how many they are.
#[derive(Debug, PartialEq, Eq, PartialOrd, Ord, Drop)]
struct Line {
    bin_type: u32,
    counts: Vec<Count>,
    times: u32,
}

/// Brings the packing into the printed form. The bins that hold no unit are left out.
pub fn tidy(packing: &mut Packing) -> Result<(), Memory>
    requires { SumsFit packing.old }
    ensures tidied { IfOk result (λ _. IsTidied packing.old packing.new) }
    ensures packing { IfOk result (λ _. (I : InstanceValue) → IsWrittenPacking I packing.old → IsWrittenPacking I packing.new) }
    ensures cost { IfOk result (λ _. (I : InstanceValue) → cost_of I (bins_of packing.new) ≤ cost_of I (bins_of packing.old)) }
    ensures one_each { IfOk result (λ _. HasOneUnitEach (bins_of packing.old) → HasOneUnitEach (bins_of packing.new)) }
    ensures same_cost { IfOk result (λ _. HasOneUnitEach (bins_of packing.old) → (I : InstanceValue) → cost_of I (bins_of packing.new) ≡ cost_of I (bins_of packing.old)) }
    ensures unchanged { IsErr result → packing.new ≡ packing.old }
{
    let alloc = packing.allocator();
    let mut lines = lines_of(alloc, packing.bins())?;
    lines.sort_unstable();
    *packing = Packing::new(merged_lines(alloc, lines.as_slice())?);
    Ok(())
}

/// A line for each bin that is used and holds some unit.
fn lines_of(alloc: Global, bins: &[Bin]) -> Result<Vec<Line>, Memory>
    requires { All (λ b. 0 < b.times → units_in b.counts < 2 ^ 32) bins.now }
    ensures tidy { IfOk result (λ v. All IsTidyBin (map bin_of v.items)) }
    ensures alike { IfOk result (λ v. AreAlike (filled_bins (bins_of bins.now)) (bins_of (map bin_of v.items))) }
    ensures times { IfOk result (λ v. sum_by (λ x. x.times) v.items ≡ sum_by (λ b. if holds_units b then b.times else 0) bins.now) }
{
    let mut lines = Vec::new(alloc);
    for bin in bins {
        if bin.times > 0 {
            let counts = tidy_counts(alloc, bin.counts.as_slice())?;
            if !counts.is_empty() {
                lines.push(Line {
                    bin_type: bin.bin_type,
                    counts,
                    times: bin.times,
                })?;
            }
        }
    }
    Ok(lines)
}

/// The same content with each form once, in order, and no count of 0.
pub(crate) fn tidy_counts(alloc: Global, counts: &[Count]) -> Result<Vec<Count>, Memory>
    requires { units_in counts.now < 2 ^ 32 }
    ensures tidy { IfOk result (λ v. IsTidyContent v.items) }
    ensures same { IfOk result (λ v. SameContent counts.now v.items) }
    ensures units { IfOk result (λ v. units_in v.items ≡ units_in counts.now) }
{
    let mut kept = positive_counts(alloc, counts)?;
    kept.sort_unstable();
    merged_counts(alloc, kept.as_slice())
}

fn positive_counts(alloc: Global, counts: &[Count]) -> Result<Vec<Count>, Memory>
    ensures { IfOk result (λ v. v.items ≡ filter (λ n. nat_lt 0 n.count) counts.now) }
{
    let mut kept = Vec::new(alloc);
    for count in counts {
        if count.count > 0 {
            kept.push(*count)?;
        }
    }
    Ok(kept)
}

fn merged_counts(alloc: Global, counts: &[Count]) -> Result<Vec<Count>, Memory>
    requires { units_in counts.now < 2 ^ 32 }
    ensures { IfOk result (λ v. v.items ≡ merged form_cmp joined_count counts.now) }
{
    let mut forms = Vec::new(alloc);
    for count in counts {
        add_count(&mut forms, *count)?;
    }
    Ok(forms)
}

/// Adds a count to the last one where it is of the same form, and else puts it behind that.
fn add_count(forms: &mut Vec<Count>, next: Count) -> Result<(), Memory>
    requires { units_in forms.old.items + next.count < 2 ^ 32 }
    ensures { IfOk result (λ _. forms.new.items ≡ put_last form_cmp joined_count forms.old.items next) }
{
    match forms.pop() {
        None => forms.push(next)?,
        Some(mut last) => {
            if is_same_form(&last, &next) {
                last.count += next.count;
                forms.push(last)?;
            } else {
                forms.push(last)?;
                forms.push(next)?;
            }
        }
    }
    Ok(())
}

fn is_same_form(first: &Count, second: &Count) -> bool
    ensures { IsTrue result ↔ (form_cmp first.now second.now ≡ Equal) }
{
    first.item == second.item && first.form == second.form
}

fn merged_lines(alloc: Global, lines: &[Line]) -> Result<Vec<Bin>, Memory>
    requires { sum_by (λ x. x.times) lines.now < 2 ^ 32 }
    ensures { IfOk result (λ v. v.items ≡ merged bin_cmp joined_bin (map bin_of lines.now)) }
{
    let mut bins = Vec::new(alloc);
    for line in lines {
        add_line(&mut bins, line)?;
    }
    Ok(bins)
}

/// Adds the times of a line to the last bin where they are alike, and else puts a bin behind that.
fn add_line(bins: &mut Vec<Bin>, line: &Line) -> Result<(), Memory>
    requires { sum_by (λ b. b.times) bins.old.items + line.now.times < 2 ^ 32 }
    ensures { IfOk result (λ _. bins.new.items ≡ put_last bin_cmp joined_bin bins.old.items (bin_of line.now)) }
{
    match bins.pop() {
        None => bins.push(bin_from(line)?)?,
        Some(mut last) => {
            if is_alike(&last, line) {
                last.times += line.times;
                bins.push(last)?;
            } else {
                bins.push(last)?;
                bins.push(bin_from(line)?)?;
            }
        }
    }
    Ok(())
}

fn is_alike(bin: &Bin, line: &Line) -> bool
    ensures { IsTrue result ↔ (bin_cmp bin.now (bin_of line.now) ≡ Equal) }
{
    let by_type = bin.bin_type.cmp(&line.bin_type);
    by_type
        .then(bin.counts.as_slice().cmp(line.counts.as_slice()))
        .is_eq()
}

fn bin_from(line: &Line) -> Result<Bin, Memory>
    ensures { IfOk result (λ b. b ≡ bin_of line.now) }
{
    Ok(Bin {
        bin_type: line.bin_type,
        times: line.times,
        counts: Counts::new(line.counts.clone()?),
    })
}
