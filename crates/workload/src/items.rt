//! The items of a generated instance, by the states of a generator.

ghost use Rattle.std.specs.Prelude.{◌≡◌, ◌≤◌, ◌<◌, ◌^◌, [], ◌∷◌, None, map, IfOk};
ghost use Rattle.std.specs.List.{range_with_len};
ghost use Rattle.arc_num.specs.declared.TheConstants.{MAX_ITEMS};
ghost use Rattle.workload.specs.Generated.{state_behind, state_at, drawn, weight_of, demand_of, item_of, generated_item, generated_value};

use arc_num::Memory;
use packing_laws::{BinType, Instance, Item, Numbers, Vectors};
use std::alloc::Global;

/// What a bin holds.
const CAPACITY: u32 = 10_000;
/// The least weight.
const LEAST_WEIGHT: u32 = 500;
/// How many weights there are.
const WEIGHTS: u64 = 4_501;
/// How many demands there are, the least of which is 1.
const DEMANDS: u64 = 40;

/// The state that follows a state of the generator.
fn state_behind(state: u64) -> u64
    ensures { result ≡ state_behind state }
{
    state
        .wrapping_mul(6_364_136_223_846_793_005)
        .wrapping_add(1_442_695_040_888_963_407)
}

/// The number that a state draws: its upper 31 bits.
fn drawn(state: u64) -> u64
    ensures value { result ≡ drawn state }
    ensures small { result < 2 ^ 31 }
{
    state >> 33
}

fn weight_of(drawn: u64) -> u32
    ensures { result ≡ weight_of drawn }
{
    LEAST_WEIGHT + (drawn % WEIGHTS) as u32
}

fn demand_of(drawn: u64) -> u32
    ensures { result ≡ demand_of drawn }
{
    1 + (drawn / WEIGHTS % DEMANDS) as u32
}

/// The item that a number gives.
fn item_of(alloc: Global, drawn: u64) -> Result<Item, Memory>
    ensures { IfOk result (λ item. item ≡ item_of drawn) }
{
    let form = Numbers::new(vec![in alloc; weight_of(drawn)]?);
    let forms = Vectors::new(vec![in alloc; form]?);
    Ok(Item {
        demand: demand_of(drawn),
        forms,
    })
}

/// The items of a seed.
fn items_of(alloc: Global, seed: u64, size: u32) -> Result<Vec<Item>, Memory>
    ensures { IfOk result (λ items. items.items ≡ map (generated_item seed) (range_with_len 1 size)) }
{
    let mut items = Vec::new(alloc);
    let mut state = seed;
    for _ in 0..size {
        state = state_behind(state);
        let item = item_of(alloc, drawn(state))?;
        items.push(item)?;
    }
    Ok(items)
}

/// The one type of bins.
fn bin_type(alloc: Global) -> Result<BinType, Memory>
    ensures { IfOk result (λ t. t ≡ record { cap = 10000 ∷ []; cost = 1; limit = None }) }
{
    let cap = Numbers::new(vec![in alloc; CAPACITY]?);
    Ok(BinType {
        cap,
        cost: 1,
        limit: None,
    })
}

/// The instance that a seed generates, with so many items.
pub fn generated(alloc: Global, seed: u64, size: u32) -> Result<Instance, Memory>
    requires { size ≤ MAX_ITEMS }
    ensures { IfOk result (λ I. I ≡ generated_value seed size) }
{
    let bin_type = bin_type(alloc)?;
    let types = vec![in alloc; bin_type]?;
    let items = items_of(alloc, seed, size)?;
    match Instance::new(1, types, items) {
        Some(instance) => Ok(instance),
        None => unreachable!(),
    }
}
