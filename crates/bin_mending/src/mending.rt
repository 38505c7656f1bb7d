//! Packings made of bins that need be none.

ghost use Rattle.std.specs.Prelude.{◌<◌, ◌≤◌, IfOk, IfSome};
ghost use Rattle.arc_num.specs.declared.TheConstants.{MAX_TYPES};
ghost use Rattle.packing_laws.specs.Packings.{cost_of};
ghost use Rattle.packing_laws.specs.Printed.{IsWrittenPacking, bins_of};

use crate::emptying::take_surplus;
use crate::filling::fill_gaps;
use crate::groups::{Group, bins_from, groups_of};
use crate::lowering::lower_types;
use crate::opening::open_bins;
use crate::sizes::missing_in_order;
use arc_num::Memory;
use packing_laws::{Bin, Instance, Packing, cost, is_packing};
use std::alloc::Global;

/// So many pairs of a bin and an item are looked at at most for types that come first in turn.
const MOST_GAPS: usize = 4_194_304;

/// A packing that costs less than `below`, made of bins that need be none: what they hold above the demands is taken away,
/// missing units are filled in, and then each bin takes the cheapest type that holds it. With several types new bins are
/// those of the least cost for each unit, or of one type before all others; the cheapest packing that comes of it is the
/// answer. None where no way leads to one.
pub fn mend(
    alloc: Global,
    instance: &Instance,
    bins: &[Bin],
    below: u64,
) -> Result<Option<Packing>, Memory>
    ensures packing { IfOk result (λ f. IfSome f (IsWrittenPacking instance.now)) }
    ensures cost { IfOk result (λ f. IfSome f (λ p. cost_of instance.now (bins_of p) < below)) }
{
    let mut best = mend_one_way(alloc, instance, bins, below, None)?;
    for first in 1..types_in_turn(instance, bins) + 1 {
        let most = least_cost(instance, &best, below);
        if let Some(packing) = mend_one_way(alloc, instance, bins, most, Some(first))? {
            best = Some(packing);
        }
    }
    Ok(best)
}

/// How many types come first in turn: none of one type, of several all, but fewer where there is much to be looked at.
fn types_in_turn(instance: &Instance, bins: &[Bin]) -> u32
    ensures { result ≤ MAX_TYPES }
{
    let types = instance.type_count();
    if types == 1 {
        return 0;
    }
    let items = instance.items().len();
    let gaps = bins.len().saturating_add(1).saturating_mul(items);
    let most = MOST_GAPS / gaps.max(1);
    types.min(u32::try_from(most).unwrap_or(u32::MAX))
}

/// What the packing costs, where there is one that costs less than `below`; else `below`.
fn least_cost(instance: &Instance, best: &Option<Packing>, below: u64) -> u64
    ensures { result ≤ below }
{
    match best {
        Some(packing) => u64::try_from(cost(instance, packing))
            .unwrap_or(below)
            .min(below),
        None => below,
    }
}

/// A packing that costs less than `below`, with new bins of one type before all others, if one is named.
fn mend_one_way(
    alloc: Global,
    instance: &Instance,
    bins: &[Bin],
    below: u64,
    first: Option<u32>,
) -> Result<Option<Packing>, Memory>
    ensures packing { IfOk result (λ f. IfSome f (IsWrittenPacking instance.now)) }
    ensures cost { IfOk result (λ f. IfSome f (λ p. cost_of instance.now (bins_of p) < below)) }
{
    let mut groups = groups_of(alloc, instance, bins)?;
    let missing = take_surplus(alloc, instance, &mut groups)?;
    let mut free = free_bins(alloc, instance, bins)?;
    fill(
        alloc,
        instance,
        &mut groups,
        free.as_mut_slice(),
        first,
        missing.as_slice(),
    )?;
    lower_types(alloc, instance, &mut groups, free.as_mut_slice())?;
    let packing = Packing::new(bins_from(alloc, groups.as_slice())?);
    if cost(instance, &packing) < u128::from(below) && is_packing(instance, &packing) {
        Ok(Some(packing))
    } else {
        Ok(None)
    }
}

/// Puts missing units into the gaps and into new bins, the largest items first.
fn fill(
    alloc: Global,
    instance: &Instance,
    groups: &mut Vec<Group>,
    free: &mut [u32],
    first: Option<u32>,
    missing: &[u32],
) -> Result<(), Memory> {
    let listed = missing_in_order(alloc, instance, missing)?;
    for next in listed.as_slice() {
        let left = fill_gaps(alloc, instance, groups, next.item, next.units)?;
        let left = open_bins(alloc, instance, groups, free, first, next.with_units(left))?;
        if left > 0 {
            return Ok(());
        }
    }
    Ok(())
}

/// How many bins of each type the others leave free, by number less 1.
fn free_bins(alloc: Global, instance: &Instance, bins: &[Bin]) -> Result<Vec<u32>, Memory> {
    let mut free = Vec::new(alloc);
    for bin_type in instance.types() {
        free.push(bin_type.limit.unwrap_or(u32::MAX))?;
    }
    for bin in bins {
        use_bins(free.as_mut_slice(), bin);
    }
    Ok(free)
}

fn use_bins(free: &mut [u32], bin: &Bin) {
    let place = (bin.bin_type as usize).wrapping_sub(1);
    if place < free.len() {
        free[place] = free[place].saturating_sub(bin.times);
    }
}
