//! What is still to be packed, and the bins that are free.

ghost use Rattle.std.specs.Prelude.{◌≡◌, ◌+◌, ◌-◌, ◌*◌, ◌≤◌, ℕ, All, IsTrue, IfOk, map, length, unwrap_or, slice_index};
ghost use Rattle.packing_laws.specs.Instances.{InstanceValue, IsAmong};
ghost use Rattle.packing_laws.specs.Packings.{count_of_item};

use arc_num::Memory;
use packing_laws::{Count, Instance};
use std::alloc::Global;

/// The units of each item that are left.
pub(crate) fn demands(alloc: Global, instance: &Instance) -> Result<Vec<u32>, Memory>
    ensures { IfOk result (λ v. v.items ≡ map (λ x. x.demand) instance.now.items) }
{
    let mut rest = Vec::new(alloc);
    for item in instance.items() {
        rest.push(item.demand)?;
    }
    Ok(rest)
}

/// How many bins of each type there are.
pub(crate) fn limits(alloc: Global, instance: &Instance) -> Result<Vec<u32>, Memory>
    ensures { IfOk result (λ v. v.items ≡ map (λ t. unwrap_or t.limit 4294967295) instance.now.types) }
{
    let mut free = Vec::new(alloc);
    for bin_type in instance.types() {
        free.push(bin_type.limit.unwrap_or(u32::MAX))?;
    }
    Ok(free)
}

/// The entry of a number from 1.
pub(crate) fn entry(table: &[u32], number: u32) -> u32
    requires { IsAmong number (length table.now) }
    ensures { result ≡ slice_index table.now (number - 1) }
{
    table[number as usize - 1]
}

/// Whether nothing is left.
pub(crate) fn is_empty(rest: &[u32]) -> bool
    ensures { IsTrue result → All (λ n. n ≡ 0) rest.now }
{
    rest.iter().all(|units| *units == 0)
}

/// Takes so many times what is in a bin.
pub(crate) fn take_units(rest: &mut [u32], counts: &[Count], times: u32)
    requires exists { All (λ n. IsAmong n.item (length rest.old)) counts.now }
    requires enough { (i : ℕ) → IsAmong i (length rest.old) → times * count_of_item i counts.now ≤ slice_index rest.old (i - 1) }
    ensures { (i : ℕ) → IsAmong i (length rest.old) → times * count_of_item i counts.now + slice_index rest.new (i - 1) ≡ slice_index rest.old (i - 1) }
{
    for count in counts {
        let left = entry(rest, count.item);
        rest[count.item as usize - 1] = left - times * count.count;
    }
}
