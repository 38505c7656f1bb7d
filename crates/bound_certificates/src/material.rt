ghost use Rattle.std.specs.Prelude.{◌≡◌, ◌-◌, ◌^◌, ◌<◌, ◌≤◌, [], All, IfOk, length, map, slice_index};
ghost use Rattle.packing_laws.specs.Instances.{IsAmong};
ghost use Rattle.packing_laws.specs.Packings.{cost_at};
ghost use Rattle.packing_laws.specs.Floors.{least_of, room_in};
ghost use Rattle.bound_certificates.specs.MaterialPrices.{IsMaterialPrices, weight_prices};

use arc_num::{Listed, Memory};
use cert_text::{ItemPrice, Prices};
use packing_laws::{Instance, MaterialSource, Numbers, material_source};
use std::alloc::Global;

/// Prices that close every box for the material bound: see `material_prices_close`. Items alone are priced, each by its
/// least weight in the dimension of greatest floor, in parts of the room of the type with the most room there for its cost.
pub fn material_prices(alloc: Global, instance: &Instance) -> Result<Prices, Memory>
    ensures { IfOk result (IsMaterialPrices instance.now) }
{
    match material_source(instance) {
        None => Ok(no_prices(alloc)),
        Some(source) => prices_from(alloc, instance, source),
    }
}

/// Prices that show that no packing costs less than 0.
fn no_prices(alloc: Global) -> Prices
    ensures { result ≡ record { scale = 1; items = []; arcs = [] } }
{
    Prices {
        scale: 1,
        items: Listed::empty(alloc),
        arcs: Listed::empty(alloc),
    }
}

fn prices_from(alloc: Global, instance: &Instance, source: MaterialSource) -> Result<Prices, Memory>
    requires dim { IsAmong source.dim instance.now.dims }
    requires bin_type { IsAmong source.bin_type (length instance.now.types) }
    ensures { IfOk result (λ p. p ≡ record { scale = room_in instance.now source.dim source.bin_type; items = weight_prices instance.now source.dim (cost_at instance.now source.bin_type); arcs = [] }) }
{
    let bin_type = &instance.types()[source.bin_type as usize - 1];
    let room = bin_type.cap.as_slice()[source.dim as usize - 1];
    let items = weight_prices(alloc, instance, source.dim, bin_type.cost)?;
    Ok(Prices {
        scale: u64::from(room),
        items,
        arcs: Listed::empty(alloc),
    })
}

/// The prices of all items by weight, where a bin costs so much, but for those of 0.
fn weight_prices(
    alloc: Global,
    instance: &Instance,
    dim: u32,
    cost: u32,
) -> Result<Listed<ItemPrice>, Memory>
    requires dim { IsAmong dim instance.now.dims }
    requires small { cost < 2 ^ 31 }
    ensures { IfOk result (λ prices. prices ≡ weight_prices instance.now dim cost) }
{
    let mut prices = Listed::empty(alloc);
    for (index, item) in instance.items().iter().enumerate() {
        let price = u64::from(lightest(item.forms.as_slice(), dim)) * u64::from(cost);
        if price > 0 {
            prices.push(ItemPrice {
                item: index as u32 + 1,
                price,
            })?;
        }
    }
    Ok(prices)
}

/// The least weight of a form in a dimension, by its number from 1.
fn lightest(forms: &[Numbers], dim: u32) -> u32
    requires low { 1 ≤ dim }
    requires high { All (λ v. dim ≤ length v) forms.now }
    ensures value { result ≡ least_of (map (λ v. slice_index v (dim - 1)) forms.now) }
{
    let mut least: Option<u32> = None;
    for form in forms {
        let weight = form.as_slice()[dim as usize - 1];
        least = Some(least.map_or(weight, |other| weight.min(other)));
    }
    least.unwrap_or(0)
}
