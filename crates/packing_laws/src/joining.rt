ghost use Rattle.std.specs.Prelude.{◌≡◌, ◌+◌, ◌-◌, ◌^◌, ◌<◌, ◌≤◌, ◌↔◌, ◌∷◌, ◌++◌, ◌⊎◌, [], List, ℕ, All, IsTrue, IsErr, IsNone, IfSome, IfOk, OnOk, length, slice_index, slice_index_or};
ghost use Rattle.packing_laws.specs.Instances.{IsAmong};
ghost use Rattle.packing_laws.specs.Packings.{Exists, Fits, IsJoined, cost_of, count_of_item, weight_in};
ghost use Rattle.packing_laws.specs.Printed.{bins_of, units_in, IsWrittenPacking, IsTidy};
ghost use Rattle.packing_laws.specs.inner.Joining.{StayApart, AreApart, AreJoined, IsSharedType, IsPartner, IsMadeOf, IsHalved, IsStep};

use crate::checks::{units, weight};
use crate::costs::type_cost;
use crate::instances::{Instance, ItemCap};
use crate::laws::packings_fit;
use crate::packings::{Bin, Count, Counts, Packing};
use crate::tidying::{tidy, tidy_counts};
use arc_num::Memory;
use std::alloc::Global;

/// A bin that another one can be joined with: its place, and the type that holds both.
#[derive(Clone, Copy)]
struct Partner {
    at: usize,
    bin_type: u32,
}

/// Joins bins until for no two of them, repeats counted, what is in both fits the type of one of them.
pub fn join_bins(instance: &Instance, packing: &mut Packing) -> Result<(), Memory>
    requires packing { IsWrittenPacking instance.now packing.old }
    requires tidy { IsTidy packing.old }
    ensures packing { IfOk result (λ _. IsWrittenPacking instance.now packing.new) }
    ensures tidy { IfOk result (λ _. IsTidy packing.new) }
    ensures cost { IfOk result (λ _. cost_of instance.now (bins_of packing.new) ≤ cost_of instance.now (bins_of packing.old)) }
    ensures joined { IfOk result (λ _. IsJoined instance.now (bins_of packing.new)) }
    ensures unchanged { IsErr result → packing.new ≡ packing.old }
{
    let alloc = packing.allocator();
    instance.known();
    packings_fit();
    let bins = joined_bins(alloc, instance, copied(packing)?)?;
    let mut joined = Packing::new(bins);
    tidy(&mut joined)?;
    *packing = joined;
    Ok(())
}

fn copied(packing: &Packing) -> Result<Vec<Bin>, Memory>
    ensures { IfOk result (λ v. v.items ≡ packing.now) }
{
    Ok(packing.clone()?.into_bins())
}

/// The bins, those that can be joined with others joined.
fn joined_bins(alloc: Global, instance: &Instance, bins: Vec<Bin>) -> Result<Vec<Bin>, Memory>
    requires { IsWrittenPacking instance.now bins.items }
    ensures packing { IfOk result (λ v. IsWrittenPacking instance.now v.items) }
    ensures cost { IfOk result (λ v. cost_of instance.now (bins_of v.items) ≤ cost_of instance.now (bins_of bins.items)) }
    ensures joined { IfOk result (λ v. AreJoined instance.now v.items) }
{
    let mut waiting = bins;
    let mut done = Vec::new(alloc);
    while let Some(bin) = waiting.pop() {
        place(alloc, instance, bin, &mut waiting, &mut done)?;
    }
    Ok(done)
}

/// Joins a bin with its like or with one that is done, as often as it goes, or else puts it to those that are done.
fn place(
    alloc: Global,
    instance: &Instance,
    bin: Bin,
    waiting: &mut Vec<Bin>,
    done: &mut Vec<Bin>,
) -> Result<(), Memory>
    requires packing { IsWrittenPacking instance.now ((waiting.old.items ++ bin ∷ []) ++ done.old.items) }
    requires joined { AreJoined instance.now done.old.items }
    ensures { OnOk result (IsStep instance.now (waiting.old.items ++ bin ∷ []) done.old.items waiting.new.items done.new.items) }
{
    if bin.times == 0 {
        return Ok(());
    }
    instance.known();
    if bin.times > 1 {
        if let Some(bin_type) = shared_type(instance, &bin, &bin) {
            return halve(alloc, bin, bin_type, waiting);
        }
    }
    settle(alloc, instance, bin, waiting, done)
}

/// Joins the bin with one that is done. What is left of it waits, as does the joined bin.
fn join_with(
    alloc: Global,
    instance: &Instance,
    mut bin: Bin,
    found: Partner,
    waiting: &mut Vec<Bin>,
    done: &mut Vec<Bin>,
) -> Result<(), Memory>
    requires used { 0 < bin.times }
    requires packing { IsWrittenPacking instance.now ((waiting.old.items ++ bin ∷ []) ++ done.old.items) }
    requires joined { AreJoined instance.now done.old.items }
    requires partner { IsPartner instance.now done.old.items bin found.at found.bin_type }
    ensures { OnOk result (IsStep instance.now (waiting.old.items ++ bin ∷ []) done.old.items waiting.new.items done.new.items) }
{
    instance.known();
    let other = &done[found.at];
    let times = bin.times.min(other.times);
    let both = joined_bin(
        alloc,
        found.bin_type,
        times,
        other.counts.as_slice(),
        bin.counts.as_slice(),
    )?;
    done[found.at].times -= times;
    bin.times -= times;
    waiting.push(bin)?;
    waiting.push(both)?;
    Ok(())
}

/// Joins the bin with one that is done where that goes, and else puts it to those that are done.
fn settle(
    alloc: Global,
    instance: &Instance,
    bin: Bin,
    waiting: &mut Vec<Bin>,
    done: &mut Vec<Bin>,
) -> Result<(), Memory>
    requires used { 0 < bin.times }
    requires packing { IsWrittenPacking instance.now ((waiting.old.items ++ bin ∷ []) ++ done.old.items) }
    requires joined { AreJoined instance.now done.old.items }
    requires alike { 1 < bin.times → StayApart instance.now (bin.bin_type, bin.counts) (bin.bin_type, bin.counts) }
    ensures { OnOk result (IsStep instance.now (waiting.old.items ++ bin ∷ []) done.old.items waiting.new.items done.new.items) }
{
    match partner_of(instance, done.as_slice(), &bin) {
        Some(found) => join_with(alloc, instance, bin, found, waiting, done),
        None => {
            done.push(bin)?;
            Ok(())
        }
    }
}

/// Joins the bin with its like. One that is left waits, as do the joined bins.
fn halve(alloc: Global, mut bin: Bin, bin_type: u32, waiting: &mut Vec<Bin>) -> Result<(), Memory>
    requires { units_in bin.counts + units_in bin.counts < 2 ^ 32 }
    ensures { OnOk result (IsHalved bin bin_type waiting.old.items waiting.new.items) }
{
    let counts = bin.counts.as_slice();
    let both = joined_bin(alloc, bin_type, bin.times / 2, counts, counts)?;
    bin.times %= 2;
    waiting.push(bin)?;
    waiting.push(both)?;
    Ok(())
}

/// So many bins with what is in two.
fn joined_bin(
    alloc: Global,
    bin_type: u32,
    times: u32,
    first: &[Count],
    second: &[Count],
) -> Result<Bin, Memory>
    requires { units_in first.now + units_in second.now < 2 ^ 32 }
    ensures { IfOk result (IsMadeOf bin_type times first.now second.now) }
{
    let mut counts = Vec::from_slice(alloc, first)?;
    counts.extend_from_slice(second)?;
    Ok(Bin {
        bin_type,
        times,
        counts: Counts::new(tidy_counts(alloc, counts.as_slice())?),
    })
}

/// A bin that is used and can be joined with this one.
fn partner_of(instance: &Instance, bins: &[Bin], bin: &Bin) -> Option<Partner>
    requires all { All (λ other. All (Exists instance.now) other.counts) bins.now }
    requires own { All (Exists instance.now) bin.now.counts }
    ensures none { IsNone result → All (λ other. AreApart instance.now other bin.now) bins.now }
    ensures some { IfSome result (λ p. IsPartner instance.now bins.now bin.now p.at p.bin_type) }
{
    for (at, other) in bins.iter().enumerate() {
        if other.times > 0 {
            if let Some(bin_type) = shared_type(instance, other, bin) {
                return Some(Partner { at, bin_type });
            }
        }
    }
    None
}

/// The type of one of the bins that holds what is in both; the cheaper one where both types do.
fn shared_type(instance: &Instance, first: &Bin, second: &Bin) -> Option<u32>
    requires one { All (Exists instance.now) first.now.counts }
    requires other { All (Exists instance.now) second.now.counts }
    ensures none { IsNone result → StayApart instance.now (first.now.bin_type, first.now.counts) (second.now.bin_type, second.now.counts) }
    ensures some { IfSome result (IsSharedType instance.now first.now second.now) }
{
    let (near, far) = by_cost(instance, first.bin_type, second.bin_type);
    if fit_together(instance, near, first, second) {
        Some(near)
    } else if far != near && fit_together(instance, far, first, second) {
        Some(far)
    } else {
        None
    }
}

/// The two types, the cheaper one first.
fn by_cost(instance: &Instance, first: u32, second: u32) -> (u32, u32)
    ensures { (result ≡ (first, second)) ⊎ (result ≡ (second, first)) }
{
    if type_cost(instance, first) <= type_cost(instance, second) {
        (first, second)
    } else {
        (second, first)
    }
}

/// Whether what is in both bins, taken together, fits the type.
fn fit_together(instance: &Instance, t: u32, first: &Bin, second: &Bin) -> bool
    requires one { All (Exists instance.now) first.now.counts }
    requires other { All (Exists instance.now) second.now.counts }
    ensures { IsTrue result ↔ Fits instance.now t (first.now.counts ++ second.now.counts) }
{
    match instance.bin_type(t) {
        None => false,
        Some(bin_type) => {
            let first = first.counts.as_slice();
            let second = second.counts.as_slice();
            are_light(instance, first, second, bin_type.cap.as_slice())
                && keep_caps(instance.caps(), first, second)
        }
    }
}

/// Whether both together have no item more often than its cap.
fn keep_caps(caps: &[ItemCap], first: &[Count], second: &[Count]) -> bool
    ensures { IsTrue result ↔ All (λ k. count_of_item k.item first.now + count_of_item k.item second.now ≤ k.count) caps.now }
{
    for cap in caps {
        if units(first, cap.item) + units(second, cap.item) > u128::from(cap.count) {
            return false;
        }
    }
    true
}

/// Whether both together weigh at most the capacity in each dimension.
fn are_light(instance: &Instance, first: &[Count], second: &[Count], cap: &[u32]) -> bool
    requires one { All (Exists instance.now) first.now }
    requires other { All (Exists instance.now) second.now }
    requires size { length cap.now ≡ instance.now.dims }
    ensures { IsTrue result ↔ ((d : ℕ) → IsAmong d instance.now.dims → weight_in instance.now d first.now + weight_in instance.now d second.now ≤ slice_index cap.now (d - 1)) }
{
    for d in 1..=instance.dims() {
        let room = u128::from(cap[d as usize - 1]);
        let taken = weight(instance, d, first);
        if taken > room || weight(instance, d, second) > room - taken {
            return false;
        }
    }
    true
}
