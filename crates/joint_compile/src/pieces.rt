//! The pieces and the capacities of all types of bins.

ghost use Rattle.std.specs.Prelude.{◌≡◌, ◌≤◌, IfOk, length};
ghost use Rattle.std.specs.List.Sorted.{IsStrictlySortedBy};
ghost use Rattle.arc_compile.specs.Extended.{places_of};
ghost use Rattle.arc_compile.specs.inner.Ranks.{rank_cmp};
ghost use Rattle.joint_compile.specs.JointPieces.{AreJointPieces, joint_caps};
ghost use Rattle.joint_compile.specs.inner.JointRanks.{AreRankedBelow};

use arc_compile::{Ranked, capacity_in, ranked_forms, with_copies};
use arc_num::Memory;
use label_graph::{Piece, sort_distinct};
use packing_laws::Instance;
use std::alloc::Global;
use weight_vec::Weights;

/// The forms that fit some type, of items with a demand, in the order of pieces.
fn joint_ranks<const N: usize>(alloc: Global, instance: &Instance) -> Result<Vec<Ranked<N>>, Memory>
    requires small { N ≤ 32 }
    requires wide { places_of instance.now ≤ N }
    ensures ranked { IfOk result (λ ranked. AreRankedBelow instance.now (length instance.now.types) ranked.items) }
    ensures sorted { IfOk result (λ ranked. IsStrictlySortedBy rank_cmp ranked.items) }
{
    let mut ranked = Vec::new(alloc);
    for bin_type in instance.types() {
        let forms = ranked_forms::<N>(alloc, instance, bin_type.cap.as_slice())?;
        ranked.extend_from_slice(forms.as_slice())?;
        sort_distinct(&mut ranked);
    }
    Ok(ranked)
}

/// The pieces of all types: the forms that fit some type, of items with a demand, the heaviest first.
pub fn joint_pieces<const N: usize>(
    alloc: Global,
    instance: &Instance,
) -> Result<Vec<Piece<N>>, Memory>
    requires small { N ≤ 32 }
    requires wide { places_of instance.now ≤ N }
    ensures { IfOk result (λ pieces. AreJointPieces instance.now pieces.items) }
{
    let ranked = joint_ranks(alloc, instance)?;
    with_copies(alloc, instance, ranked.as_slice())
}

/// The capacities of all types, each with the caps behind it, and zeros up to N places.
pub fn capacities<const N: usize>(
    alloc: Global,
    instance: &Instance,
) -> Result<Vec<Weights<N>>, Memory>
    requires small { N ≤ 32 }
    requires wide { places_of instance.now ≤ N }
    ensures { IfOk result (λ caps. caps.items ≡ joint_caps N instance.now) }
{
    let mut caps = Vec::new(alloc);
    for t in 0..instance.type_count() {
        caps.push(capacity_in(alloc, instance, t + 1)?)?;
    }
    Ok(caps)
}
