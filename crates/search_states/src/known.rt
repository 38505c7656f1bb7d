//! Packings that are known.

ghost use Rattle.std.specs.Prelude.{◌≡◌, ◌≤◌, IfOk, Some};
ghost use Rattle.packing_laws.specs.Instances.{InstanceValue};
ghost use Rattle.packing_laws.specs.Packings.{cost_of};
ghost use Rattle.packing_laws.specs.Printed.{IsTidy, IsWrittenPacking, bins_of};
ghost use Rattle.search_states.specs.States.{IsBest, IsBetter, IsKnown, goal_of};

use arc_num::{MAX_PRICE, Memory};
use cert_text::Claim;
use first_fit::first_fit;
use packing_laws::{Instance, Packing, cost, join_bins, packings_fit, tidy};
use std::alloc::Global;

/// A packing in the printed form, no two bins of which can be joined, and what it costs.
#[derive(Debug, Drop)]
pub struct Known {
    pub packing: Packing,
    /// At most 2^62.
    pub cost: u64,
}

/// The packing in the printed form, its bins joined as often as it goes.
pub fn known_from(instance: &Instance, mut packing: Packing) -> Result<Known, Memory>
    requires { IsWrittenPacking instance.now packing }
    ensures known { IfOk result (IsKnown instance.now) }
    ensures cost { IfOk result (λ k. k.cost ≤ cost_of instance.now (bins_of packing)) }
{
    instance.known();
    packings_fit();
    tidy(&mut packing)?;
    join_bins(instance, &mut packing)?;
    let cost = small_cost(instance, &packing);
    Ok(Known { packing, cost })
}

// What a packing in the printed form costs: each bin holds a unit, and there are at most 10^9 units.
fn small_cost(instance: &Instance, packing: &Packing) -> u64
    requires packing { IsWrittenPacking instance.now packing.now }
    requires tidy { IsTidy packing.now }
    ensures value { result ≡ cost_of instance.now (bins_of packing.now) }
    ensures small { result ≤ MAX_PRICE }
{
    instance.known();
    cost(instance, packing) as u64
}

/// The first packing, by first fit, where the single cost exists.
pub fn first_known(alloc: Global, instance: &Instance) -> Result<Option<Known>, Memory>
    ensures { IfOk result (IsBest instance.now) }
{
    match first_fit(alloc, instance)? {
        Some(packing) => Ok(Some(known_from(instance, packing)?)),
        None => Ok(None),
    }
}

/// The cheaper of what was known and another packing.
pub fn better_of(best: Option<Known>, other: Known) -> Option<Known>
    ensures known { (I : InstanceValue) → IsBest I best → IsKnown I other → IsBest I result }
    ensures better { IsBetter best result }
    ensures other { IsBetter (Some other) result }
{
    match best {
        Some(known) if known.cost <= other.cost => Some(known),
        _ => Some(other),
    }
}

/// What closes a box.
pub(crate) fn goal_of(best: &Option<Known>) -> Claim
    ensures { result ≡ goal_of best.now }
{
    match best {
        Some(known) => Claim::Bound(known.cost),
        None => Claim::Empty,
    }
}

/// What the cheapest packing costs, or more than any does.
pub(crate) fn cost_of(best: &Option<Known>) -> u64 {
    match best {
        Some(known) => known.cost,
        None => u64::MAX,
    }
}
