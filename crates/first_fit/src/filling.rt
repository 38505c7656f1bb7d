//! A bin that is being filled.

ghost use Rattle.std.specs.Prelude.{◌≡◌, ◌+◌, ◌-◌, ◌*◌, ◌^◌, ◌<◌, ◌≤◌, ℕ, List, IfOk, OnOk, length, slice_index};
ghost use Rattle.packing_laws.specs.Instances.{IsAmong, IsBinType, type_at};
ghost use Rattle.packing_laws.specs.Packings.{count_of_item};
ghost use Rattle.first_fit.specs.inner.Fillings.{IsPiece, IsFilling, IsMostOf, IsPutInto};

use crate::pieces::{Piece, weights_of};
use crate::stock::entry;
use arc_num::Memory;
use packing_laws::{BinType, Count, Instance};
use smallvec::SmallVec;
use std::alloc::Global;

/// What is in the bin, the room that is left in each dimension, and what its units are worth.
#[derive(Debug, Drop)]
pub(crate) struct Filling {
    pub bin_type: u32,
    pub cost: u32,
    pub counts: SmallVec<Count, 8>,
    pub room: SmallVec<u32, 8>,
    pub worth: u64,
}

/// A bin with nothing in it.
pub(crate) fn empty_bin(
    alloc: Global,
    instance: &Instance,
    number: u32,
    bin_type: &BinType,
) -> Result<Filling, Memory>
    requires among { IsAmong number (length instance.now.types) }
    requires bin_type { bin_type.now ≡ type_at instance.now number }
    requires known { IsBinType instance.now.dims bin_type.now }
    ensures { (rest : List ℕ) → IfOk result (IsFilling instance.now rest) }
{
    Ok(Filling {
        bin_type: number,
        cost: bin_type.cost,
        counts: SmallVec::new(alloc),
        room: SmallVec::from_slice(alloc, bin_type.cap.as_slice())?,
        worth: 0,
    })
}

/// Puts as many units of a piece into the bin as fit, are left of its item and keep its cap, but no more than `most`.
pub(crate) fn add(
    bin: &mut Filling,
    instance: &Instance,
    rest: &[u32],
    piece: &Piece,
    most: u32,
) -> Result<(), Memory>
    requires rest { length rest.now ≡ length instance.now.items }
    requires piece { IsPiece instance.now piece.now }
    requires before { IsFilling instance.now rest.now bin.old }
    ensures { OnOk result (IsFilling instance.now rest.now bin.new) }
{
    let weights = weights_of(instance, piece.item, piece.form);
    let fitting = copies_within(bin.room.as_slice(), weights).min(most);
    if fitting > 0 {
        let free = most_of(instance, rest, piece.item) - held(bin.counts.as_slice(), piece.item);
        put(bin, piece, weights, fitting.min(free))?;
    }
    Ok(())
}

/// How many units of an item one bin holds at most: those that are left, but no more than its cap.
fn most_of(instance: &Instance, rest: &[u32], item: u32) -> u32
    requires rest { length rest.now ≡ length instance.now.items }
    requires item { IsAmong item (length instance.now.items) }
    ensures { IsMostOf instance.now rest.now item result }
{
    instance.known();
    let left = entry(rest, item);
    match instance.cap_of(item) {
        Some(cap) => left.min(cap),
        None => left,
    }
}

/// Puts so many units of a piece into the bin.
fn put(bin: &mut Filling, piece: &Piece, weights: &[u32], copies: u32) -> Result<(), Memory>
    requires dims { length bin.old.room.items ≡ length weights.now }
    requires room { (d : ℕ) → d < length weights.now → copies * slice_index weights.now d ≤ slice_index bin.old.room.items d }
    ensures { OnOk result (IsPutInto bin.old piece.now weights.now copies bin.new) }
{
    if copies > 0 {
        lessen(bin.room.as_mut_slice(), weights, copies);
        bin.counts.push(Count {
            item: piece.item,
            form: piece.form,
            count: copies,
        })?;
        let more = u64::from(copies).saturating_mul(piece.worth.0);
        bin.worth = bin.worth.saturating_add(more);
    }
    Ok(())
}

/// How many units of this weight there is room for.
fn copies_within(room: &[u32], weights: &[u32]) -> u32
    requires { length room.now ≡ length weights.now }
    ensures { (d : ℕ) → d < length weights.now → result * slice_index weights.now d ≤ slice_index room.now d }
{
    let mut copies = u32::MAX;
    for (d, weight) in weights.iter().enumerate() {
        if *weight > 0 {
            copies = copies.min(room[d] / *weight);
        }
    }
    copies
}

/// Takes the weight of so many units from the room.
fn lessen(room: &mut [u32], weights: &[u32], copies: u32)
    requires dims { length room.old ≡ length weights.now }
    requires enough { (d : ℕ) → d < length weights.now → copies * slice_index weights.now d ≤ slice_index room.old d }
    ensures { (d : ℕ) → d < length weights.now → slice_index room.new d + copies * slice_index weights.now d ≡ slice_index room.old d }
{
    for (d, weight) in weights.iter().enumerate() {
        room[d] -= copies * *weight;
    }
}

/// How many units of an item are in the bin.
pub(crate) fn held(counts: &[Count], item: u32) -> u32
    requires { count_of_item item counts.now < 2 ^ 32 }
    ensures { result ≡ count_of_item item counts.now }
{
    let mut units = 0;
    for count in counts {
        if count.item == item {
            units += count.count;
        }
    }
    units
}
