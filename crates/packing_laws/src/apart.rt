ghost use Rattle.std.specs.Prelude.{◌≡◌, [], ◌∷◌, ◌↔◌, All, IsSome, IfSome, IfOk};
ghost use Rattle.packing_laws.specs.Packings.{cost_of};
ghost use Rattle.packing_laws.specs.Printed.{bins_of, IsWrittenPacking, IsTidyBin};
ghost use Rattle.packing_laws.specs.Floors.{single_of, HasSingle, HasOneUnitEach};

use crate::instances::Instance;
use crate::packings::{Bin, Count, Counts, Packing};
use crate::single::{Choice, cheapest};
use arc_num::Memory;
use std::alloc::Global;

/// One bin for each unit, each of the cheapest type without limit, written once for each item with a demand. None where
/// an item with a demand fits no type without limit.
pub fn units_apart(alloc: Global, instance: &Instance) -> Result<Option<Packing>, Memory>
    ensures exists { IfOk result (λ p. IsSome p ↔ HasSingle instance.now) }
    ensures packing { IfOk result (λ p. IfSome p (IsWrittenPacking instance.now)) }
    ensures one_each { IfOk result (λ p. IfSome p (λ bins. HasOneUnitEach (bins_of bins))) }
    ensures cost { IfOk result (λ p. IfSome p (λ bins. cost_of instance.now (bins_of bins) ≡ single_of instance.now)) }
    ensures tidy { IfOk result (λ p. IfSome p (All IsTidyBin)) }
{
    instance.known();
    let mut bins = Vec::new(alloc);
    for (at, item) in instance.items().iter().enumerate() {
        if item.demand > 0 {
            match cheapest(instance, item) {
                None => return Ok(None),
                Some(choice) => bins.push(one_unit(alloc, at as u32 + 1, item.demand, choice)?)?,
            }
        }
    }
    Ok(Some(Packing::new(bins)))
}

/// Bins with one unit each.
fn one_unit(alloc: Global, item: u32, times: u32, choice: Choice) -> Result<Bin, Memory>
    ensures { IfOk result (λ b. b ≡ record { bin_type = choice.bin_type; times = times; counts = record { item = item; form = choice.form; count = 1 } ∷ [] }) }
{
    let mut counts = Vec::new(alloc);
    counts.push(Count {
        item,
        form: choice.form,
        count: 1,
    })?;
    Ok(Bin {
        bin_type: choice.bin_type,
        times,
        counts: Counts::new(counts),
    })
}
