//! Forms of items as pieces to be packed, the largest first.

ghost use Rattle.std.specs.Prelude.{◌≡◌, ◌+◌, ◌≤◌, All, IfOk, OnOk, length};
ghost use Rattle.packing_laws.specs.Instances.{IsAmong, item_at, form_at};
ghost use Rattle.first_fit.specs.inner.Fillings.{IsPiece};

use arc_num::{MAX_FORMS, Memory};
use packing_laws::{Instance, Item, Numbers};
use smallvec::SmallVec;
use std::alloc::Global;
use std::cmp::Reverse;

/// A form of an item. Pieces of items that are worth more come first, and of one item the smaller forms.
#[derive(Clone, Copy, Debug, PartialEq, Eq, PartialOrd, Ord)]
pub(crate) struct Piece {
    /// The size of the item's smallest form.
    pub worth: Reverse<u64>,
    pub item: u32,
    pub size: u64,
    pub form: u32,
}

/// The forms of all items with a demand, in order.
pub(crate) fn pieces_of(alloc: Global, instance: &Instance) -> Result<Vec<Piece>, Memory>
    ensures { IfOk result (λ v. All (IsPiece instance.now) v.items) }
{
    let room = greatest_room(alloc, instance)?;
    let mut pieces = Vec::new(alloc);
    for (at, item) in instance.items().iter().enumerate() {
        if item.demand > 0 {
            push_forms(&mut pieces, instance, at as u32 + 1, item, room.as_slice())?;
        }
    }
    pieces.sort_unstable();
    Ok(pieces)
}

/// Adds the forms of an item.
fn push_forms(
    pieces: &mut Vec<Piece>,
    instance: &Instance,
    number: u32,
    item: &Item,
    room: &[u32],
) -> Result<(), Memory>
    requires among { IsAmong number (length instance.now.items) }
    requires item { item.now ≡ item_at instance.now number }
    requires forms { length item.now.forms ≤ MAX_FORMS }
    requires before { All (IsPiece instance.now) pieces.old.items }
    ensures { OnOk result (All (IsPiece instance.now) pieces.new.items) }
{
    let forms = item.forms.as_slice();
    let worth = Reverse(least_size(forms, room));
    for (at, form) in forms.iter().enumerate() {
        pieces.push(Piece {
            worth,
            item: number,
            size: size_of(form.as_slice(), room),
            form: at as u32 + 1,
        })?;
    }
    Ok(())
}

fn least_size(forms: &[Numbers], room: &[u32]) -> u64 {
    let mut least = u64::MAX;
    for form in forms {
        least = least.min(size_of(form.as_slice(), room));
    }
    least
}

/// The parts of the room that the form takes, added up over the dimensions, in units of 2^-32.
fn size_of(form: &[u32], room: &[u32]) -> u64 {
    let mut size: u64 = 0;
    for (weight, most) in form.iter().zip(room) {
        size = size.saturating_add((u64::from(*weight) << 32) / u64::from(*most.max(&1)));
    }
    size
}

/// In each dimension, the most that a bin of any type holds there.
fn greatest_room(alloc: Global, instance: &Instance) -> Result<SmallVec<u32, 8>, Memory> {
    let mut room = SmallVec::new(alloc);
    for d in 0..instance.dims() as usize {
        room.push(greatest_in(instance, d))?;
    }
    Ok(room)
}

fn greatest_in(instance: &Instance, d: usize) -> u32 {
    let mut most = 0;
    for bin_type in instance.types() {
        if let Some(room) = bin_type.cap.as_slice().get(d) {
            most = most.max(*room);
        }
    }
    most
}

/// What a form of an item weighs: one number for each dimension.
pub(crate) fn weights_of<'a>(instance: &'a Instance, item: u32, form: u32) -> &'a [u32]
    requires item { IsAmong item (length instance.now.items) }
    requires form { IsAmong form (length (item_at instance.now item).forms) }
    ensures value { result.now ≡ form_at instance.now item form }
    ensures dims { length result.now ≡ instance.now.dims }
{
    match instance.item(item) {
        Some(found) => found.forms.as_slice()[form as usize - 1].as_slice(),
        None => unreachable!(),
    }
}
