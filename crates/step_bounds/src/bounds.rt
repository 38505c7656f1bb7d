ghost use Rattle.std.specs.Prelude.{◌≡◌, ◌↔◌, ◌-◌, ◌≤◌, All, IsSome, IfSome, length, slice_index};
ghost use Rattle.packing_laws.specs.Instances.{IsAmong};
ghost use Rattle.step_bounds.specs.Steps.{IsStep, IsStepBound};
ghost use Rattle.step_bounds.specs.inner.Looks.{IsFound, IsBestIn, Improves, HasLooked, IsGreaterOf, IsBetterOf};

use crate::values::{room_in, value_at};
use packing_laws::{Instance, Numbers};

/// A step value, with the dimension, by its number from 1, and the step that give it.
#[derive(Clone, Copy, Debug, PartialEq, Eq)]
pub struct StepFound {
    pub value: u128,
    pub dim: u32,
    pub step: u32,
}

/// The greatest step value of all dimensions and steps, with the first such dimension and its least such step. None
/// where the instance has not one type.
pub fn step_bound(instance: &Instance) -> Option<StepFound>
    ensures some { IsSome result ↔ (length instance.now.types ≡ 1) }
    ensures found { IfSome result (IsStepBound instance.now) }
{
    if instance.type_count() != 1 {
        return None;
    }
    let dims = instance.dims();
    let mut best = best_in(instance, 1);
    for dim in 2..dims + 1 {
        best = greater(best, best_in(instance, dim));
    }
    Some(best)
}

/// The one of greater value; the first where both are equal.
fn greater(best: StepFound, next: StepFound) -> StepFound
    ensures { IsGreaterOf best next result }
{
    if next.value > best.value { next } else { best }
}

/// The greatest step value of a dimension with its least such step. From one step to the next a value rises only where
/// some weight begins to count for a whole bin: step 0 and the steps of the weights are enough.
fn best_in(instance: &Instance, dim: u32) -> StepFound
    requires single { length instance.now.types ≡ 1 }
    requires dim { IsAmong dim instance.now.dims }
    ensures { IsBestIn instance.now dim result }
{
    let value = value_at(instance, dim, 0);
    let mut best = StepFound {
        value,
        dim,
        step: 0,
    };
    for item in instance.items() {
        best = best_with_forms(instance, dim, best, item.forms.as_slice());
    }
    best
}

fn best_with_forms(
    instance: &Instance,
    dim: u32,
    mut best: StepFound,
    forms: &[Numbers],
) -> StepFound
    requires found { IsFound instance.now dim best }
    requires forms { All (λ v. dim ≤ length v) forms.now }
    ensures improved { Improves instance.now dim best result }
    ensures looked { All (λ v. HasLooked instance.now dim result (slice_index v (dim - 1))) forms.now }
{
    for form in forms {
        let weight = form.as_slice()[dim as usize - 1];
        best = best_with_weight(instance, dim, best, weight);
    }
    best
}

/// With the least step at which the weight counts for a whole bin, where there is one.
fn best_with_weight(instance: &Instance, dim: u32, best: StepFound, weight: u32) -> StepFound
    requires { IsFound instance.now dim best }
    ensures improved { Improves instance.now dim best result }
    ensures looked { HasLooked instance.now dim result weight }
{
    let room = room_in(instance, dim);
    let step = (room + 1).saturating_sub(weight);
    if 2 * u64::from(step) > u64::from(room) {
        return best;
    }
    let value = value_at(instance, dim, step);
    better(best, StepFound { value, dim, step })
}

/// The one of greater value; that of the least step where both are equal.
fn better(best: StepFound, next: StepFound) -> StepFound
    ensures { IsBetterOf best next result }
{
    if next.value > best.value || (next.value == best.value && next.step < best.step) {
        next
    } else {
        best
    }
}
