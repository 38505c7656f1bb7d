ghost use Rattle.std.specs.Prelude.{◌≡◌, ◌⊎◌, ℕ, ◌+◌, ◌-◌, ◌<◌, ◌≤◌, min, [], IfOk, Ok, Err, MatchResult};
ghost use Rattle.packing_laws.specs.Places.{several, Gives};
ghost use Rattle.packing_laws.specs.Layouts.{next_cap, cap_behind, caps_if, caps_at};

use crate::Places;
use arc_num::{MAX_CAP, MAX_DIMS, MAX_ITEMS};
use packing_laws::{ItemCap, ReadFault};
use std::alloc::Global;

#[tactic(auto, unfolding(packing_laws::specs::Layouts::caps_at))]
/// What stands behind the last of so many items: the caps, if any, and the end of the text.
pub fn caps(
    alloc: Global,
    places: &mut Places,
    dims: u32,
    items: u32,
) -> Result<Vec<ItemCap>, ReadFault>
    requires dims { dims ≤ MAX_DIMS }
    requires items { items ≤ MAX_ITEMS }
    ensures { let read = caps_at dims items places.old in
        MatchResult result (λ v. read ≡ Ok v.items) (λ e. (e ≡ ReadFault.Memory) ⊎ (read ≡ Err e)) }
{
    let follow = places.caps_word()?;
    let caps = caps_if(alloc, places, dims, items, follow)?;
    places.end()?;
    Ok(caps)
}

// The caps, where their word stood.
fn caps_if(
    alloc: Global,
    places: &mut Places,
    dims: u32,
    items: u32,
    follow: bool,
) -> Result<Vec<ItemCap>, ReadFault>
    requires dims { dims ≤ MAX_DIMS }
    requires items { items ≤ MAX_ITEMS }
    ensures { let read = caps_if follow dims items places.old in
        MatchResult result (λ v. read ≡ Ok (v.items, places.new)) (λ e. (e ≡ ReadFault.Memory) ⊎ (read ≡ Err e)) }
{
    if !follow {
        return Ok(Vec::new(alloc));
    }
    let count = places.number(0, items.min(MAX_DIMS - dims))?;
    listed_caps(alloc, places, items, count)
}

#[tactic(auto, using(crate::proofs::CapRows::cap_steps))]
fn listed_caps(
    alloc: Global,
    places: &mut Places,
    items: u32,
    count: u32,
) -> Result<Vec<ItemCap>, ReadFault>
    requires { items ≤ MAX_ITEMS }
    ensures { let read = several count (cap_behind items) [] places.old in
        MatchResult result (λ v. read ≡ Ok (v.items, places.new)) (λ e. (e ≡ ReadFault.Memory) ⊎ (read ≡ Err e)) }
{
    let mut caps = Vec::new(alloc);
    let mut last = 0;
    for _k in 0..count {
        let cap = cap(places, items, last)?;
        last = cap.item;
        caps.push(cap)?;
    }
    Ok(caps)
}

// The cap of an item above `last`.
#[tactic(auto, unfolding(packing_laws::specs::Layouts::next_cap))]
fn cap(places: &mut Places, items: u32, last: u32) -> Result<ItemCap, ReadFault>
    requires { last ≤ MAX_ITEMS }
    ensures read { Gives result places.new (next_cap items last places.old) }
    ensures within { IfOk result (λ k. k.item ≤ items) }
{
    let item = places.number(last + 1, items)?;
    let count = places.number(1, MAX_CAP)?;
    Ok(ItemCap { item, count })
}
