ghost use Rattle.std.specs.Prelude.{◌≡◌, ℕ, ◌-◌, ◌^◌, ◌≤◌, ◌↔◌, IsTrue, IfSome, All, length, slice_index};
ghost use Rattle.packing_laws.specs.Instances.{IsAmong, type_at, item_at, form_at};
ghost use Rattle.packing_laws.specs.Packings.{Exists, Fits, weight_in, count_of_item, all_of, used_of};
ghost use Rattle.packing_laws.specs.Printed.{bins_of, IsWrittenPacking};

use crate::instances::{Instance, ItemCap};
use crate::packings::{Bin, Count, Packing};
use arc_num::MAX_VALUE;

/// Whether the counts fit a bin of this type. False also where the type, an item or a form does not exist. How often
/// the bin is used does not matter.
pub fn fits(instance: &Instance, bin: &Bin) -> bool
    ensures { IsTrue result ↔ Fits instance.now bin.now.bin_type bin.now.counts }
{
    let counts = bin.counts.as_slice();
    match instance.bin_type(bin.bin_type) {
        None => false,
        Some(bin_type) => {
            all_exist(instance, counts)
                && is_light(instance, counts, bin_type.cap.as_slice())
                && keeps_caps(instance.caps(), counts)
        }
    }
}

/// Whether each bin that is written fits, also one that is used no time at all, and the bins that are meant keep the
/// limits of the types and meet each demand exactly.
pub fn is_packing(instance: &Instance, packing: &Packing) -> bool
    ensures { IsTrue result ↔ IsWrittenPacking instance.now packing.now }
{
    let bins = packing.bins();
    all_fit(instance, bins) && keeps_limits(instance, bins) && meets_demands(instance, bins)
}

fn exists(instance: &Instance, count: &Count) -> bool
    ensures { IsTrue result ↔ Exists instance.now count.now }
{
    match instance.item(count.item) {
        None => false,
        Some(item) => 1 <= count.form && count.form as usize <= item.forms.as_slice().len(),
    }
}

fn all_exist(instance: &Instance, counts: &[Count]) -> bool
    ensures { IsTrue result ↔ All (Exists instance.now) counts.now }
{
    counts.iter().all(|count| exists(instance, count))
}

/// Whether the counts weigh at most the capacity in each dimension.
fn is_light(instance: &Instance, counts: &[Count], cap: &[u32]) -> bool
    requires exists { All (Exists instance.now) counts.now }
    requires size { length cap.now ≡ instance.now.dims }
    ensures { IsTrue result ↔ ((d : ℕ) → IsAmong d instance.now.dims → weight_in instance.now d counts.now ≤ slice_index cap.now (d - 1)) }
{
    for d in 1..=instance.dims() {
        if weight(instance, d, counts) > u128::from(cap[d as usize - 1]) {
            return false;
        }
    }
    true
}

/// Whether no item stands in the counts more often than its cap.
fn keeps_caps(caps: &[ItemCap], counts: &[Count]) -> bool
    ensures { IsTrue result ↔ All (λ k. count_of_item k.item counts.now ≤ k.count) caps.now }
{
    for cap in caps {
        if units(counts, cap.item) > u128::from(cap.count) {
            return false;
        }
    }
    true
}

/// What the counts weigh in one dimension, by its number from 1.
pub(crate) fn weight(instance: &Instance, d: u32, counts: &[Count]) -> u128
    requires exists { All (Exists instance.now) counts.now }
    requires among { IsAmong d instance.now.dims }
    ensures { result ≡ weight_in instance.now d counts.now }
{
    let mut total = 0;
    for count in counts {
        total += u128::from(count.count) * u128::from(unit_weight(instance, d, count));
    }
    total
}

/// What one unit weighs in one dimension, by its number from 1.
fn unit_weight(instance: &Instance, d: u32, count: &Count) -> u32
    requires exists { Exists instance.now count.now }
    requires among { IsAmong d instance.now.dims }
    ensures value { result ≡ slice_index (form_at instance.now count.now.item count.now.form) (d - 1) }
    ensures small { result ≤ MAX_VALUE }
{
    match instance.item(count.item) {
        None => 0,
        Some(item) => {
            let form = &item.forms.as_slice()[count.form as usize - 1];
            form.as_slice()[d as usize - 1]
        }
    }
}

fn all_fit(instance: &Instance, bins: &[Bin]) -> bool
    ensures { IsTrue result ↔ All (λ b. Fits instance.now b.bin_type b.counts) bins.now }
{
    bins.iter().all(|bin| fits(instance, bin))
}

/// Whether no more bins of a type are used than there are.
fn keeps_limits(instance: &Instance, bins: &[Bin]) -> bool
    ensures { IsTrue result ↔ ((t : ℕ) → IsAmong t (length instance.now.types) → IfSome (type_at instance.now t).limit (λ q. used_of t (bins_of bins.now) ≤ q)) }
{
    for (at, bin_type) in instance.types().iter().enumerate() {
        if !keeps_limit(bins, at as u32 + 1, bin_type.limit) {
            return false;
        }
    }
    true
}

/// Whether at most so many bins of the type are used.
fn keeps_limit(bins: &[Bin], t: u32, limit: Option<u32>) -> bool
    ensures { IsTrue result ↔ IfSome limit (λ q. used_of t (bins_of bins.now) ≤ q) }
{
    match limit {
        None => true,
        Some(most) => used(bins, t) <= u128::from(most),
    }
}

/// How many bins of the type are used.
fn used(bins: &[Bin], t: u32) -> u128
    ensures { result ≡ used_of t (bins_of bins.now) }
{
    let mut total = 0;
    for bin in bins {
        if bin.bin_type == t {
            total += u128::from(bin.times);
        }
    }
    total
}

/// Whether the bins hold as many units of each item as are asked for.
fn meets_demands(instance: &Instance, bins: &[Bin]) -> bool
    ensures { IsTrue result ↔ ((i : ℕ) → IsAmong i (length instance.now.items) → count_of_item i (all_of (bins_of bins.now)) ≡ (item_at instance.now i).demand) }
{
    for (at, item) in instance.items().iter().enumerate() {
        if !meets_demand(bins, at as u32 + 1, item.demand) {
            return false;
        }
    }
    true
}

/// Whether the bins hold just so many units of an item.
fn meets_demand(bins: &[Bin], i: u32, demand: u32) -> bool
    ensures { IsTrue result ↔ (count_of_item i (all_of (bins_of bins.now)) ≡ demand) }
{
    let mut wanted = u128::from(demand);
    for bin in bins {
        let held = u128::from(bin.times) * units(bin.counts.as_slice(), i);
        if held > wanted {
            return false;
        }
        wanted -= held;
    }
    wanted == 0
}

/// How many units of an item are in the counts.
pub(crate) fn units(counts: &[Count], i: u32) -> u128
    ensures value { result ≡ count_of_item i counts.now }
    ensures small { result ≤ 2 ^ 95 }
{
    let mut total = 0;
    for count in counts {
        if count.item == i {
            total += u128::from(count.count);
        }
    }
    total
}
