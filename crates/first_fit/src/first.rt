ghost use Rattle.std.specs.Prelude.{◌≤◌, ◌↔◌, IsSome, IfSome, IfOk};
ghost use Rattle.packing_laws.specs.Packings.{cost_of};
ghost use Rattle.packing_laws.specs.Printed.{bins_of, IsWrittenPacking};
ghost use Rattle.packing_laws.specs.Floors.{single_of, HasSingle};

use crate::greedy::greedy_packing;
use arc_num::Memory;
use packing_laws::{Instance, Packing, cost, single_cost, units_apart};
use std::alloc::Global;

/// A packing whose cost is at most the single cost. None exactly where that does not exist. Bins are filled greedily;
/// where that would cost more, each unit has a bin of its own.
pub fn first_fit(alloc: Global, instance: &Instance) -> Result<Option<Packing>, Memory>
    ensures exists { IfOk result (λ p. IsSome p ↔ HasSingle instance.now) }
    ensures packing { IfOk result (λ p. IfSome p (IsWrittenPacking instance.now)) }
    ensures cost { IfOk result (λ p. IfSome p (λ bins. cost_of instance.now (bins_of bins) ≤ single_of instance.now)) }
{
    let Some(single) = single_cost(instance) else {
        return Ok(None);
    };
    match greedy_packing(alloc, instance)? {
        Some(packing) if cost(instance, &packing) <= single => Ok(Some(packing)),
        _ => units_apart(alloc, instance),
    }
}
