//! Bins filled one after the other, each with the best of a few fillings and as often as it can be.

ghost use Rattle.std.specs.Prelude.{◌≡◌, ◌-◌, ◌*◌, ◌≤◌, ℕ, List, All, IfSome, IfOk, OnOk, map, length, unwrap_or, slice_index};
ghost use Rattle.packing_laws.specs.Instances.{InstanceValue, IsAmong, IsBinType, type_at};
ghost use Rattle.packing_laws.specs.Packings.{count_of_item};
ghost use Rattle.packing_laws.specs.Printed.{IsWrittenPacking};
ghost use Rattle.first_fit.specs.inner.Fillings.{IsPiece, IsFilling};
ghost use Rattle.first_fit.specs.inner.Stages.{IsStage};

use crate::filling::{Filling, add, empty_bin, held};
use crate::pieces::{Piece, pieces_of};
use crate::stock::{demands, entry, is_empty, limits, take_units};
use arc_num::Memory;
use packing_laws::{Bin, BinType, Count, Counts, Instance, Packing};
use std::alloc::Global;

/// In how many ways a bin of a type is filled at most, to take the best.
const MOST_TRIES: usize = 8;

/// How many pieces may be looked at for one bin, before it is filled in fewer ways.
const MOST_STEPS: usize = 65_536;

/// A packing that is filled bin by bin. None where some units are left that fit no free bin.
pub(crate) fn greedy_packing(alloc: Global, instance: &Instance) -> Result<Option<Packing>, Memory>
    ensures { IfOk result (λ p. IfSome p (IsWrittenPacking instance.now)) }
{
    let pieces = pieces_of(alloc, instance)?;
    let mut rest = demands(alloc, instance)?;
    let mut free = limits(alloc, instance)?;
    pack(
        alloc,
        instance,
        pieces,
        rest.as_mut_slice(),
        free.as_mut_slice(),
    )
}

/// Packs what is left, with the pieces of the items. Each turn takes a unit at least.
fn pack(
    alloc: Global,
    instance: &Instance,
    mut pieces: Vec<Piece>,
    rest: &mut [u32],
    free: &mut [u32],
) -> Result<Option<Packing>, Memory>
    requires pieces { All (IsPiece instance.now) pieces.items }
    requires rest { rest.old ≡ map (λ x. x.demand) instance.now.items }
    requires free { free.old ≡ map (λ t. unwrap_or t.limit 4294967295) instance.now.types }
    ensures { IfOk result (λ p. IfSome p (IsWrittenPacking instance.now)) }
{
    let mut bins = Vec::new(alloc);
    for _turn in 0..instance.units() {
        keep_live(&mut pieces, rest);
        let Some(bin) = best_bin(alloc, instance, pieces.as_slice(), rest, free)? else {
            break;
        };
        let counts = bin.counts.as_slice();
        let times = repeats(counts, rest, entry(free, bin.bin_type));
        take_units(rest, counts, times);
        free[bin.bin_type as usize - 1] -= times;
        bins.push(written(alloc, &bin, times)?)?;
    }
    if is_empty(rest) {
        Ok(Some(Packing::new(bins)))
    } else {
        Ok(None)
    }
}

/// Drops the pieces of items of which no units are left.
fn keep_live(pieces: &mut Vec<Piece>, rest: &[u32])
    ensures { (I : InstanceValue) → All (IsPiece I) pieces.old.items → All (IsPiece I) pieces.new.items }
{
    pieces.retain(|piece| units_left(rest, piece.item) > 0);
}

/// The units that are left of an item. 0 where there is no such item.
fn units_left(rest: &[u32], item: u32) -> u32 {
    match rest.get((item as usize).wrapping_sub(1)) {
        Some(units) => *units,
        None => 0,
    }
}

/// The best filling of a bin of any type that is free, with pieces that are left.
fn best_bin(
    alloc: Global,
    instance: &Instance,
    pieces: &[Piece],
    rest: &[u32],
    free: &[u32],
) -> Result<Option<Filling>, Memory>
    requires pieces { All (IsPiece instance.now) pieces.now }
    requires rest { length rest.now ≡ length instance.now.items }
    requires free { length free.now ≡ length instance.now.types }
    ensures { IfOk result (λ b. IfSome b (IsFilling instance.now rest.now)) }
{
    let mut best = None;
    for (at, bin_type) in instance.types().iter().enumerate() {
        if free[at] > 0 {
            let number = at as u32 + 1;
            if let Some(bin) = best_of_type(alloc, instance, pieces, rest, number, bin_type)? {
                best = better(best, bin);
            }
        }
    }
    Ok(best)
}

/// The best of some fillings of a bin of a type. Each starts with a unit of the first piece, and skips some pieces.
fn best_of_type(
    alloc: Global,
    instance: &Instance,
    pieces: &[Piece],
    rest: &[u32],
    number: u32,
    bin_type: &BinType,
) -> Result<Option<Filling>, Memory>
    requires pieces { All (IsPiece instance.now) pieces.now }
    requires rest { length rest.now ≡ length instance.now.items }
    requires among { IsAmong number (length instance.now.types) }
    requires bin_type { bin_type.now ≡ type_at instance.now number }
    requires known { IsBinType instance.now.dims bin_type.now }
    ensures { IfOk result (λ b. IfSome b (IsFilling instance.now rest.now)) }
{
    let mut best = None;
    for skipped in 0..tries(instance.types().len(), pieces.len()) {
        let mut bin = empty_bin(alloc, instance, number, bin_type)?;
        add(&mut bin, instance, rest, &pieces[0], 1)?;
        fill(&mut bin, instance, rest, &pieces[skipped..])?;
        best = better(best, bin);
    }
    Ok(best)
}

/// In how many ways a bin of each type is filled.
fn tries(types: usize, pieces: usize) -> usize
    ensures { result ≤ pieces }
{
    let steps = types.saturating_mul(pieces).max(1);
    (MOST_STEPS / steps).min(MOST_TRIES).max(1).min(pieces)
}

/// Puts as many units of each piece in turn into the bin as there is room for.
fn fill(
    bin: &mut Filling,
    instance: &Instance,
    rest: &[u32],
    pieces: &[Piece],
) -> Result<(), Memory>
    requires pieces { All (IsPiece instance.now) pieces.now }
    requires rest { length rest.now ≡ length instance.now.items }
    requires before { IsFilling instance.now rest.now bin.old }
    ensures { OnOk result (IsFilling instance.now rest.now bin.new) }
{
    for piece in pieces {
        add(bin, instance, rest, piece, u32::MAX)?;
    }
    Ok(())
}

/// The bin with more worth for its cost.
fn better(best: Option<Filling>, next: Filling) -> Option<Filling>
    ensures { (I : InstanceValue) (rest : List ℕ) → IfSome best (IsFilling I rest) → IsFilling I rest next → IfSome result (IsFilling I rest) }
{
    if next.worth == 0 {
        return best;
    }
    match best {
        Some(bin) if !gives_more(&next, &bin) => Some(bin),
        _ => Some(next),
    }
}

/// Whether the first bin has more worth for its cost than the second.
fn gives_more(first: &Filling, second: &Filling) -> bool {
    scaled(first.worth, second.cost) > scaled(second.worth, first.cost)
}

fn scaled(worth: u64, cost: u32) -> u128 {
    u128::from(worth) * u128::from(cost)
}

/// How often what is in a bin can be taken from what is left, but no more than `most`.
fn repeats(counts: &[Count], rest: &[u32], most: u32) -> u32
    requires exists { All (λ n. IsAmong n.item (length rest.now)) counts.now }
    requires within { (i : ℕ) → IsAmong i (length rest.now) → count_of_item i counts.now ≤ slice_index rest.now (i - 1) }
    ensures most { result ≤ most }
    ensures units { (i : ℕ) → IsAmong i (length rest.now) → result * count_of_item i counts.now ≤ slice_index rest.now (i - 1) }
{
    let mut times = most;
    for count in counts {
        let left = entry(rest, count.item);
        let units = held(counts, count.item);
        if units > 0 {
            times = times.min(left / units);
        }
    }
    times
}

/// The bin, used so many times.
fn written(alloc: Global, bin: &Filling, times: u32) -> Result<Bin, Memory>
    ensures { IfOk result (λ b. b ≡ record { bin_type = bin.now.bin_type; times = times; counts = bin.now.counts.items }) }
{
    Ok(Bin {
        bin_type: bin.bin_type,
        times,
        counts: Counts::new(Vec::from_slice(alloc, bin.counts.as_slice())?),
    })
}
