ghost use Rattle.std.specs.Prelude.{◌≡◌, ◌↔◌, IsTrue, IsNone, IfSome};
ghost use Rattle.packing_laws.specs.Instances.{IsAmong};
ghost use Rattle.packing_laws.specs.Floors.{material_of, floor_in, IsGreatestFloor, IsFirstBestType};
ghost use Rattle.packing_laws.specs.inner.Offers.{HasMore, IsBetterOf};

use crate::floors::floor_in;
use crate::instances::Instance;

/// Where the material bound comes from, by numbers from 1: a dimension, and the type that fills it at least cost.
#[derive(Clone, Copy, Debug, PartialEq, Eq)]
pub struct MaterialSource {
    pub dim: u32,
    pub bin_type: u32,
}

/// The first dimension of greatest floor, and in it the first type with the most room for its cost. None where the
/// material bound is 0. See `best_type_gives_floor`.
pub fn material_source(instance: &Instance) -> Option<MaterialSource>
    ensures none { IsNone result ↔ (material_of instance.now ≡ 0) }
    ensures dim { IfSome result (λ s. IsGreatestFloor instance.now s.dim) }
    ensures bin_type { IfSome result (λ s. IsFirstBestType instance.now s.dim s.bin_type) }
{
    let dim = greatest_dim(instance)?;
    let bin_type = best_type(instance, dim)?;
    Some(MaterialSource { dim, bin_type })
}

/// The first dimension of greatest floor.
fn greatest_dim(instance: &Instance) -> Option<u32>
    ensures none { IsNone result ↔ (material_of instance.now ≡ 0) }
    ensures some { IfSome result (IsGreatestFloor instance.now) }
{
    let mut greatest = 0;
    let mut dim = None;
    for d in 1..instance.dims() + 1 {
        let floor = floor_in(instance, d);
        if floor > greatest {
            greatest = floor;
            dim = Some(d);
        }
    }
    dim
}

/// What a type of bins, by its number from 1, holds in a dimension, and what it costs.
#[derive(Clone, Copy)]
struct Offer {
    bin_type: u32,
    room: u32,
    cost: u32,
}

/// The first type with the most room for its cost in a dimension. None where no type has room there.
fn best_type(instance: &Instance, d: u32) -> Option<u32>
    requires { IsAmong d instance.now.dims }
    ensures none { IsNone result → floor_in instance.now d ≡ 0 }
    ensures some { IfSome result (IsFirstBestType instance.now d) }
{
    let mut best = None;
    for (at, bin_type) in instance.types().iter().enumerate() {
        let room = bin_type.cap.as_slice()[d as usize - 1];
        if room > 0 {
            let next = Offer {
                bin_type: at as u32 + 1,
                room,
                cost: bin_type.cost,
            };
            best = Some(better(best, next));
        }
    }
    match best {
        Some(offer) => Some(offer.bin_type),
        None => None,
    }
}

/// The offer with more room for its cost; the one that came first where they have as much.
fn better(best: Option<Offer>, next: Offer) -> Offer
    ensures { IsBetterOf best next result }
{
    match best {
        Some(offer) if !has_more(next, offer) => offer,
        _ => next,
    }
}

fn has_more(next: Offer, best: Offer) -> bool
    ensures { IsTrue result ↔ HasMore next best }
{
    let own = u64::from(next.room) * u64::from(best.cost);
    own > u64::from(best.room) * u64::from(next.cost)
}
