ghost use Rattle.std.specs.Prelude.{◌≡◌, ◌+◌, ◌-◌, ◌*◌, ◌^◌, ◌<◌, ◌≤◌, All, MatchOption, length, map, min, slice_index};
ghost use Rattle.packing_laws.specs.Instances.{IsAmong};
ghost use Rattle.packing_laws.specs.Floors.{least_of, div_up, material_in, floor_in, material_of};

use crate::instances::Instance;
use crate::numbers::Numbers;

/// No packing costs less: see `material_is_floor`.
pub fn material_bound(instance: &Instance) -> u128
    ensures { result ≡ material_of instance.now }
{
    let mut bound = 0;
    for d in 1..=instance.dims() {
        bound = floor_in(instance, d).max(bound);
    }
    bound
}

/// The floor in one dimension, by its number from 1.
pub(crate) fn floor_in(instance: &Instance, d: u32) -> u128
    requires { IsAmong d instance.now.dims }
    ensures { result ≡ floor_in instance.now d }
{
    let material = material_in(instance, d);
    let mut least = None;
    for bin_type in instance.types() {
        let room = bin_type.cap.as_slice()[d as usize - 1];
        if room > 0 {
            let cost = div_up(material * u128::from(bin_type.cost), room);
            least = Some(smaller(least, cost));
        }
    }
    least.unwrap_or(0)
}

/// What all units weigh at least in one dimension, by its number from 1.
fn material_in(instance: &Instance, d: u32) -> u128
    requires { IsAmong d instance.now.dims }
    ensures value { result ≡ material_in instance.now d }
    ensures small { result ≤ 1000 * 2 ^ 52 }
{
    let mut material = 0;
    for item in instance.items() {
        material += u128::from(item.demand) * least_weight(item.forms.as_slice(), d);
    }
    material
}

/// The least weight of a form in one dimension, by its number from 1.
fn least_weight(forms: &[Numbers], d: u32) -> u128
    requires low { 1 ≤ d }
    requires high { All (λ v. d ≤ length v) forms.now }
    ensures value { result ≡ least_of (map (λ v. slice_index v (d - 1)) forms.now) }
    ensures small { result < 2 ^ 32 }
{
    let mut least = None;
    for form in forms {
        let weight = form.as_slice()[d as usize - 1];
        least = Some(smaller(least, u128::from(weight)));
    }
    least.unwrap_or(0)
}

fn smaller(least: Option<u128>, x: u128) -> u128
    ensures { MatchOption least (result ≡ x) (λ y. result ≡ min y x) }
{
    match least {
        None => x,
        Some(y) => y.min(x),
    }
}

fn div_up(a: u128, b: u32) -> u128
    requires some { 0 < b }
    requires small { a < 2 ^ 120 }
    ensures { result ≡ div_up a b }
{
    (a + u128::from(b - 1)) / u128::from(b)
}
