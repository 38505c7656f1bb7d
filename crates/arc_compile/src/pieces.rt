//! The pieces of a type of bins.

ghost use Rattle.std.specs.Prelude.{◌≡◌, ◌≤◌, All, IfOk, length};
ghost use Rattle.packing_laws.specs.Instances.{IsAmong, item_at};
ghost use Rattle.arc_compile.specs.Extended.{places_of};
ghost use Rattle.arc_compile.specs.Pieces.{ArePieces};
ghost use Rattle.arc_compile.specs.inner.Ranks.{pieces_from};

use crate::forms::ranked_forms;
use crate::ranks::Ranked;
use arc_num::{MAX_ALL_FORMS, Memory};
use label_graph::Piece;
use packing_laws::Instance;
use std::alloc::Global;

/// How many units of an item are asked for.
fn demand_of(instance: &Instance, item: u32) -> u32
    requires { IsAmong item (length instance.now.items) }
    ensures { result ≡ (item_at instance.now item).demand }
{
    match instance.item(item) {
        Some(item) => item.demand,
        None => unreachable!(),
    }
}

/// The pieces of ranked forms, with a copy for each unit that is asked for.
pub fn with_copies<const N: usize>(
    alloc: Global,
    instance: &Instance,
    ranked: &[Ranked<N>],
) -> Result<Vec<Piece<N>>, Memory>
    requires small { N ≤ 32 }
    requires items { All (λ r. IsAmong r.item (length instance.now.items)) ranked.now }
    ensures { IfOk result (λ pieces. pieces.items ≡ pieces_from instance.now ranked.now) }
{
    let mut pieces = Vec::with_capacity(alloc, ranked.len())?;
    for rank in ranked {
        pieces.push(Piece {
            item: rank.item,
            form: rank.form,
            weight: rank.weight.0,
            copies: demand_of(instance, rank.item),
        })?;
    }
    Ok(pieces)
}

/// The pieces of type t: the forms that fit it, of items with a demand, the heaviest first. Each weight has a number
/// for each cap behind it, 1 for that of the piece's item and 0 for the others, and then zeros up to N places.
pub fn pieces_of<const N: usize>(
    alloc: Global,
    instance: &Instance,
    t: u32,
) -> Result<Vec<Piece<N>>, Memory>
    requires small { N ≤ 32 }
    requires in_range { IsAmong t (length instance.now.types) }
    requires wide { places_of instance.now ≤ N }
    ensures pieces { IfOk result (λ pieces. ArePieces instance.now t pieces.items) }
    ensures count { IfOk result (λ pieces. length pieces.items ≤ MAX_ALL_FORMS) }
{
    let Some(bin_type) = instance.bin_type(t) else {
        unreachable!()
    };
    instance.known();
    let ranked = ranked_forms(alloc, instance, bin_type.cap.as_slice())?;
    with_copies(alloc, instance, ranked.as_slice())
}
