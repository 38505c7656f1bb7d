ghost use Rattle.std.specs.Prelude.{◌≡◌, ℕ, ◌+◌, ◌<◌, ◌≤◌, ◌==◌, MatchResult};
ghost use Rattle.std.specs.List.{list_all};
ghost use Rattle.packing_laws.specs.Places.{next_vector, next_form, GivesOrMemory};

use crate::Places;
use arc_num::MAX_VALUE;
use packing_laws::{Numbers, ReadFault};
use std::alloc::Global;

#[tactic(auto, using(crate::proofs::Repeats::repeats), unfolding(packing_laws::specs::Places::next_vector))]
/// The vector at the next places: a number for each dimension.
pub fn vector(alloc: Global, places: &mut Places, dims: u32) -> Result<Numbers, ReadFault>
    ensures { GivesOrMemory result places.new (next_vector dims places.old) }
{
    let mut list = Vec::new(alloc);
    for _d in 0..dims {
        list.push(places.number(0, MAX_VALUE)?)?;
    }
    Ok(Numbers::new(list))
}

#[tactic(auto, unfolding(packing_laws::specs::Places::next_form))]
/// The weight vector at the next places, which is a form of an item. Items and forms are numbered from 1.
pub fn form(
    alloc: Global,
    places: &mut Places,
    dims: u32,
    item: u32,
    form: u32,
) -> Result<Numbers, ReadFault>
    ensures { GivesOrMemory result places.new (next_form dims item form places.old) }
{
    let weights = vector(alloc, places, dims)?;
    if are_all_zero(weights.as_slice()) {
        return Err(ReadFault::ZeroWeight {
            index: places.count(),
            item,
            form,
        });
    }
    Ok(weights)
}

fn are_all_zero(numbers: &[u32]) -> bool
    ensures { result ≡ list_all (λ x. x == 0) numbers.now }
{
    numbers.iter().all(|x| *x == 0)
}
