//! Surplus units are taken out of bins. Bins that are alike are trimmed together, and split only where less is surplus
//! of an item than there are bins: then of that item nothing is surplus any more.

ghost use Rattle.std.specs.Prelude.{◌≡◌, ℕ, ◌+◌, ◌-◌, ◌*◌, ◌<◌, ◌≤◌, ◌++◌, ◌∷◌, [], IfOk, IsNone, IfSome, All, length};
ghost use Rattle.packing_laws.specs.Instances.{IsAmong, item_at};
ghost use Rattle.pattern_extract.specs.Trims.{IsReduced, IsTrimmedOn, IsUsedBin, MeetDemands, held, refilled, rest_of, surplus_at, work_in};

use arc_num::Memory;
use packing_laws::{Bin, Count, Counts, Instance};
use std::alloc::Global;

/// The bins without what is surplus in them, where `surplus` tells how much that is of each item.
pub fn trim(
    alloc: Global,
    instance: &Instance,
    bins: Vec<Bin>,
    surplus: &mut [u64],
) -> Result<Vec<Bin>, Memory>
    requires size { length surplus.old ≡ length instance.now.items }
    requires bins { All (IsUsedBin instance.now) bins.items }
    requires units { (i : ℕ) → IsAmong i (length instance.now.items) → held i bins.items ≡ (item_at instance.now i).demand + surplus_at surplus.old i }
    ensures { IfOk result (λ done. MeetDemands instance.now bins.items done.items) }
{
    let mut pending = bins;
    let mut done = Vec::new(alloc);
    while let Some(bin) = pending.pop() {
        trim_bin(alloc, bin, surplus, &mut pending, &mut done)?;
    }
    Ok(done)
}

/// Trims a bin that was the last of the pending ones. It is done, or split into two that are pending.
fn trim_bin(
    alloc: Global,
    bin: Bin,
    surplus: &mut [u64],
    pending: &mut Vec<Bin>,
    done: &mut Vec<Bin>,
) -> Result<(), Memory>
    requires times { 1 ≤ bin.times }
    requires there { All (λ n. IsAmong n.item (length surplus.old)) bin.counts }
    ensures on { IfOk result (λ _. IsTrimmedOn (pending.old.items ++ bin ∷ []) done.old.items surplus.old pending.new.items done.new.items surplus.new) }
    ensures work { IfOk result (λ _. work_in pending.new.items < work_in (pending.old.items ++ bin ∷ [])) }
{
    let counts = reduced(alloc, &bin, surplus)?;
    match split_off(counts.as_slice(), surplus, bin.times) {
        None => done.push(Bin {
            bin_type: bin.bin_type,
            times: bin.times,
            counts: Counts::new(counts),
        })?,
        Some(times) => push_parts(pending, &bin, times, counts)?,
    }
    Ok(())
}

/// Appends two bins of the bin's type with these counts: the first is used so often less, and the second so often.
fn push_parts(
    pending: &mut Vec<Bin>,
    bin: &Bin,
    times: u32,
    counts: Vec<Count>,
) -> Result<(), Memory>
    requires { times ≤ bin.now.times }
    ensures { IfOk result (λ _. pending.new.items ≡ (pending.old.items ++ refilled bin.now (bin.now.times - times) counts.items ∷ []) ++ refilled bin.now times counts.items ∷ []) }
{
    pending.push(Bin {
        bin_type: bin.bin_type,
        times: bin.times - times,
        counts: Counts::new(counts.clone()?),
    })?;
    pending.push(Bin {
        bin_type: bin.bin_type,
        times,
        counts: Counts::new(counts),
    })?;
    Ok(())
}

/// The counts of a bin without the units that are surplus in all bins that are alike.
fn reduced(alloc: Global, bin: &Bin, surplus: &mut [u64]) -> Result<Vec<Count>, Memory>
    requires times { 1 ≤ bin.now.times }
    requires there { All (λ n. IsAmong n.item (length surplus.old)) bin.now.counts }
    ensures { IfOk result (λ kept. IsReduced bin.now.times bin.now.counts kept.items surplus.old surplus.new) }
{
    let counts = bin.counts.as_slice();
    let times = bin.times;
    let mut kept = Vec::with_capacity(alloc, counts.len())?;
    for count in counts {
        let place = count.item as usize - 1;
        let taken = spare(surplus[place], times, count.count);
        surplus[place] -= u64::from(taken) * u64::from(times);
        put_rest(&mut kept, count, taken)?;
    }
    Ok(kept)
}

/// How many of so many units can be taken out of each of the bins.
fn spare(surplus: u64, times: u32, count: u32) -> u32
    requires { 1 ≤ times }
    ensures count { result ≤ count }
    ensures most { result * times ≤ surplus }
    ensures all { result < count → surplus < result * times + times }
{
    (surplus / u64::from(times)).min(u64::from(count)) as u32
}

/// Appends what is left of a count once so many units are taken out.
fn put_rest(kept: &mut Vec<Count>, count: &Count, taken: u32) -> Result<(), Memory>
    requires { taken ≤ count.now.count }
    ensures { IfOk result (λ _. kept.new.items ≡ kept.old.items ++ rest_of count.now taken) }
{
    if taken != count.count {
        kept.push(Count {
            item: count.item,
            form: count.form,
            count: count.count - taken,
        })?;
    }
    Ok(())
}

/// How much is surplus of the first item in the counts of which anything is. It is less than there are bins.
fn split_off(counts: &[Count], surplus: &[u64], times: u32) -> Option<u32>
    requires there { All (λ n. IsAmong n.item (length surplus.now)) counts.now }
    requires small { All (λ n. surplus_at surplus.now n.item < times) counts.now }
    ensures none { IsNone result → All (λ n. surplus_at surplus.now n.item ≡ 0) counts.now }
    ensures some { IfSome result (λ s. (0 < s) × (s < times)) }
{
    for count in counts {
        let more = surplus[count.item as usize - 1];
        if more > 0 {
            return Some(more as u32);
        }
    }
    None
}
