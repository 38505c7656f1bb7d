ghost use Rattle.std.specs.Prelude.{◌≡◌, ◌↔◌, ◌-◌, ◌*◌, ◌^◌, ◌<◌, ◌≤◌, All, IsSome, IfSome, length, map, slice_index};
ghost use Rattle.packing_laws.specs.Instances.{IsAmong};
ghost use Rattle.packing_laws.specs.Floors.{least_of, room_in};
ghost use Rattle.step_bounds.specs.Steps.{stepped, stepped_in, step_value_of, IsStep};

use packing_laws::{Instance, Numbers};

/// The step value of a dimension, by its number from 1, and a step. None where the instance has not one type, the
/// dimension does not exist, or twice the step passes the capacity there. No packing costs less: see
/// `step_values_are_floors`.
pub fn step_value(instance: &Instance, dim: u32, step: u32) -> Option<u128>
    ensures some { IsSome result ↔ IsStep instance.now dim step }
    ensures value { IfSome result (λ v. v ≡ step_value_of instance.now dim step) }
{
    if instance.type_count() != 1 || dim == 0 || dim > instance.dims() {
        return None;
    }
    if 2 * u64::from(step) > u64::from(room_in(instance, dim)) {
        return None;
    }
    Some(value_at(instance, dim, step))
}

/// What a bin of the one type holds in a dimension, by its number from 1.
pub(crate) fn room_in(instance: &Instance, dim: u32) -> u32
    requires single { length instance.now.types ≡ 1 }
    requires dim { IsAmong dim instance.now.dims }
    ensures value { result ≡ room_in instance.now dim 1 }
    ensures small { result < 2 ^ 31 }
{
    instance.types()[0].cap.as_slice()[dim as usize - 1]
}

/// The step value of a dimension and a step that exist.
pub(crate) fn value_at(instance: &Instance, dim: u32, step: u32) -> u128
    requires { IsStep instance.now dim step }
    ensures { result ≡ step_value_of instance.now dim step }
{
    let room = room_in(instance, dim);
    if room == 0 {
        return 0;
    }
    let total = stepped_in(instance, dim, room, step);
    let bins = (total + u64::from(room - 1)) / u64::from(room);
    u128::from(instance.types()[0].cost) * u128::from(bins)
}

/// What all units count for in a dimension, each in the form that counts least.
fn stepped_in(instance: &Instance, dim: u32, room: u32, step: u32) -> u64
    requires dim { IsAmong dim instance.now.dims }
    requires half { 2 * step ≤ room }
    ensures value { result ≡ stepped_in instance.now dim room step }
    ensures small { result ≤ 1000 * 2 ^ 52 }
{
    let mut total = 0;
    for item in instance.items() {
        total += u64::from(item.demand) * least_stepped(item.forms.as_slice(), dim, room, step);
    }
    total
}

/// What the form counts for that counts least.
fn least_stepped(forms: &[Numbers], dim: u32, room: u32, step: u32) -> u64
    requires low { 1 ≤ dim }
    requires high { All (λ v. dim ≤ length v) forms.now }
    requires half { 2 * step ≤ room }
    ensures value { result ≡ least_of (map (λ v. stepped room step (slice_index v (dim - 1))) forms.now) }
    ensures small { result < 2 ^ 32 }
{
    let mut least = None;
    for form in forms {
        let count = u64::from(stepped(form.as_slice()[dim as usize - 1], room, step));
        least = Some(least.map_or(count, |other| count.min(other)));
    }
    least.unwrap_or(0)
}

/// What a weight counts for: the capacity where less than the step is left beside it, and nothing below the step.
fn stepped(weight: u32, room: u32, step: u32) -> u32
    requires { 2 * step ≤ room }
    ensures { result ≡ stepped room step weight }
{
    if weight > room - step {
        room
    } else if weight >= step {
        weight
    } else {
        0
    }
}
