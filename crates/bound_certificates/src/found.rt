ghost use Rattle.std.specs.Prelude.{◌≡◌, ◌<◌, ◌≤◌};
ghost use Rattle.packing_laws.specs.Packings.{IsFloor};
ghost use Rattle.packing_laws.specs.Floors.{material_of};
ghost use Rattle.step_bounds.specs.declared.bounds.StepFound.{StepFound};
ghost use Rattle.step_bounds.specs.Steps.{IsStepBound};
ghost use Rattle.bound_certificates.specs.FoundBounds.{IsFound};

use arc_num::MAX_PRICE;
use packing_laws::{Instance, material_bound, material_is_floor};
use step_bounds::{StepFound, step_bound, step_values_are_floors};

/// Where a bound comes from: a dimension, by its number from 1, and a step in it, or what all units weigh.
#[derive(Clone, Copy, Debug, PartialEq, Eq)]
pub enum BoundKind {
    Step { dim: u32, step: u32 },
    Material,
}

/// A cost that no packing goes below.
#[derive(Clone, Copy, Debug, PartialEq, Eq)]
pub struct FoundBound {
    /// At most 2^62.
    pub bound: u64,
    pub kind: BoundKind,
}

/// The step bound where it exists and reaches the material bound, and else the material bound, which is cut to 2^62: it
/// passes that only where some item with a demand fits nowhere.
pub fn find_bound(instance: &Instance) -> FoundBound
    ensures kept { IsFound instance.now result }
    ensures small { result.bound ≤ MAX_PRICE }
    ensures floor { IsFloor instance.now result.bound }
{
    let material = material_bound(instance);
    match step_bound(instance) {
        Some(found) if found.value >= material => by_step(instance, found),
        _ => by_material(instance, material),
    }
}

/// The step bound, which reaches the material bound.
fn by_step(instance: &Instance, found: StepFound) -> FoundBound
    requires is { IsStepBound instance.now found }
    requires reaches { material_of instance.now ≤ found.value }
    ensures kept { IsFound instance.now result }
    ensures small { result.bound ≤ MAX_PRICE }
    ensures floor { IsFloor instance.now result.bound }
{
    instance.known();
    step_values_are_floors();
    FoundBound {
        bound: found.value as u64,
        kind: BoundKind::Step {
            dim: found.dim,
            step: found.step,
        },
    }
}

/// The material bound, which no step bound reaches.
fn by_material(instance: &Instance, material: u128) -> FoundBound
    requires is { material ≡ material_of instance.now }
    requires passes { (f : StepFound) → IsStepBound instance.now f → f.value < material }
    ensures kept { IsFound instance.now result }
    ensures small { result.bound ≤ MAX_PRICE }
    ensures floor { IsFloor instance.now result.bound }
{
    material_is_floor();
    FoundBound {
        bound: material.min(u128::from(MAX_PRICE)) as u64,
        kind: BoundKind::Material,
    }
}
