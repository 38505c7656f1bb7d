//! Weights and capacities with a number for each cap behind those of the dimensions.

ghost use Rattle.std.specs.Prelude.{◌≡◌, ◌+◌, ◌≤◌, ◌++◌, IfOk, length, map};
ghost use Rattle.arc_num.specs.declared.TheConstants.{MAX_DIMS};
ghost use Rattle.packing_laws.specs.Instances.{IsAmong};
ghost use Rattle.arc_compile.specs.Extended.{places_of, counted_by_caps, extended_capacity};
ghost use Rattle.arc_compile.specs.Pieces.{padded};

use arc_num::Memory;
use packing_laws::Instance;
use std::alloc::Global;
use weight_vec::Weights;

/// How many numbers an extended weight has: one for each dimension, and one for each cap.
pub fn place_count(instance: &Instance) -> u32
    ensures value { result ≡ places_of instance.now }
    ensures known { IsAmong result MAX_DIMS }
{
    instance.dims() + instance.cap_count()
}

/// A vector with further numbers behind it, and zeros up to N places.
pub fn extended<const N: usize>(
    alloc: Global,
    vector: &[u32],
    further: &[u32],
) -> Result<Weights<N>, Memory>
    requires small { N ≤ 32 }
    requires room { length vector.now + length further.now ≤ N }
    ensures { IfOk result (λ weights. weights ≡ padded N (vector.now ++ further.now)) }
{
    let mut numbers = Vec::from_slice(alloc, vector)?;
    numbers.extend_from_slice(further)?;
    let Some(weights) = Weights::pad_from(numbers.as_slice()) else {
        unreachable!()
    };
    Ok(weights)
}

/// How the caps count a unit of item i: 1 for the cap of that item, and 0 for the others.
pub fn unit_by_caps(alloc: Global, instance: &Instance, i: u32) -> Result<Vec<u32>, Memory>
    ensures { IfOk result (λ counted. counted.items ≡ counted_by_caps instance.now i) }
{
    let mut counted = Vec::with_capacity(alloc, instance.caps().len())?;
    for cap in instance.caps() {
        counted.push(u32::from(i == cap.item))?;
    }
    Ok(counted)
}

/// How many units each cap allows.
fn cap_counts(alloc: Global, instance: &Instance) -> Result<Vec<u32>, Memory>
    ensures { IfOk result (λ counts. counts.items ≡ map (λ k. k.count) instance.now.caps) }
{
    let mut counts = Vec::with_capacity(alloc, instance.caps().len())?;
    for cap in instance.caps() {
        counts.push(cap.count)?;
    }
    Ok(counts)
}

/// The capacity of type t and the caps, with zeros up to N places.
pub fn capacity_in<const N: usize>(
    alloc: Global,
    instance: &Instance,
    t: u32,
) -> Result<Weights<N>, Memory>
    requires small { N ≤ 32 }
    requires in_range { IsAmong t (length instance.now.types) }
    requires wide { places_of instance.now ≤ N }
    ensures { IfOk result (λ cap. cap ≡ padded N (extended_capacity instance.now t)) }
{
    let Some(bin_type) = instance.bin_type(t) else {
        unreachable!()
    };
    let counts = cap_counts(alloc, instance)?;
    extended(alloc, bin_type.cap.as_slice(), counts.as_slice())
}
