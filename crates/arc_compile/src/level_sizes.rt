//! The size of the level graph of a type of bins.

ghost use Rattle.std.specs.Prelude.{◌≡◌, ◌≤◌, IfOk, length};
ghost use Rattle.packing_laws.specs.Instances.{IsAmong};
ghost use Rattle.arc_compile.specs.Extended.{places_of};
ghost use Rattle.arc_compile.specs.Levels.{IsLevelSize};

use crate::extended::{capacity_in, place_count};
use crate::pieces::pieces_of;
use arc_num::Memory;
use level_graph::{cuts_keep_level_graphs, level_counts};
use packing_laws::Instance;
use std::alloc::Global;

/// The numbers of nodes and arcs of the level graph of type t, counted over weights in N places.
fn level_size_in<const N: usize>(
    alloc: Global,
    instance: &Instance,
    t: u32,
) -> Result<(u128, u128), Memory>
    requires small { N ≤ 32 }
    requires in_range { IsAmong t (length instance.now.types) }
    requires wide { places_of instance.now ≤ N }
    ensures { IfOk result (λ level. IsLevelSize instance.now t level.0 level.1) }
{
    instance.known();
    cuts_keep_level_graphs();
    let cap = capacity_in::<N>(alloc, instance, t)?;
    let pieces = pieces_of::<N>(alloc, instance, t)?;
    level_counts(alloc, pieces.as_slice(), &cap)
}

/// The numbers of nodes and arcs of the level graph of type t.
pub fn level_size(alloc: Global, instance: &Instance, t: u32) -> Result<(u128, u128), Memory>
    requires { IsAmong t (length instance.now.types) }
    ensures { IfOk result (λ level. IsLevelSize instance.now t level.0 level.1) }
{
    match place_count(instance) {
        0 | 1 => level_size_in::<1>(alloc, instance, t),
        2 => level_size_in::<2>(alloc, instance, t),
        3..=4 => level_size_in::<4>(alloc, instance, t),
        5..=8 => level_size_in::<8>(alloc, instance, t),
        9..=16 => level_size_in::<16>(alloc, instance, t),
        _ => level_size_in::<32>(alloc, instance, t),
    }
}
