ghost use Rattle.std.specs.Prelude.{◌≡◌, ◌≤◌};
ghost use Rattle.packing_laws.specs.Packings.{cost_at, cost_of};
ghost use Rattle.packing_laws.specs.Printed.{bins_of};

use crate::instances::Instance;
use crate::packings::Packing;
use arc_num::MAX_VALUE;

/// What the bins cost, each as often as it is used. A bin of a type that does not exist counts 0.
pub fn cost(instance: &Instance, packing: &Packing) -> u128
    ensures { result ≡ cost_of instance.now (bins_of packing.now) }
{
    let mut total = 0;
    for bin in packing.bins() {
        total += u128::from(bin.times) * u128::from(type_cost(instance, bin.bin_type));
    }
    total
}

/// What a bin of a type costs; 0 where there is no such type.
pub(crate) fn type_cost(instance: &Instance, t: u32) -> u32
    ensures value { result ≡ cost_at instance.now t }
    ensures small { result ≤ MAX_VALUE }
{
    match instance.bin_type(t) {
        Some(bin_type) => bin_type.cost,
        None => 0,
    }
}
