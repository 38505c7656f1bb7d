//! Reads instances with one type of bins, of cost 1 without limit, and one form for each item.
#![tactic(auto)]

ghost use Rattle.std.specs.Prelude.{◌≡◌, ◌≢◌, ◌⊎◌, ℕ, ◌+◌, ◌-◌, ◌<◌, ◌≤◌, [], ◌∷◌, length, MatchResult, IfOk, IfErr, Ok, Err, Some, None};
ghost use Rattle.packing_laws.specs.Places.{Place, several, GivesOrMemory, AnswersOrMemory};
ghost use Rattle.packing_laws.specs.Layouts.{Layout, Vbp, Reads, BadPlace, reading_of, next_plain_item, plain_item_behind, plain_instance_at};

use arc_num::{MAX_DEMAND, MAX_DIMS, MAX_INSTANCE, MAX_ITEMS};
use layout_walk::{Parts, Places, caps, form, vector};
use packing_laws::{BinType, Instance, Item, Numbers, ReadFault, Vectors};
use std::alloc::Global;

mod laws;

pub use laws::{
    a_text_reads_as_its_numbers, a_text_reads_as_its_row, examples_come_out, memory_is_no_place,
};

/// The instance that the text spells, or its first bad place.
pub fn read_vbp(alloc: Global, text: &[u8]) -> Result<Instance, ReadFault>
    requires { length text.now ≤ MAX_INSTANCE }
    ensures read { IfOk result (λ I. Reads Vbp text.now I) }
    ensures fault { IfErr result (λ e. (e ≡ ReadFault.Memory) ⊎ BadPlace Vbp text.now e) }
    ensures total { (k : ℕ) → result ≢ Err (ReadFault.Total k) }
{
    let parts = read_parts(alloc, &mut Places::new(text))?;
    Ok(parts.into_instance())
}

#[tactic(auto, unfolding(packing_laws::specs::Layouts::plain_instance_at))]
fn read_parts(alloc: Global, places: &mut Places) -> Result<Parts, ReadFault>
    ensures { AnswersOrMemory result (plain_instance_at places.old) }
{
    let dims = places.number(1, MAX_DIMS)?;
    let cap = vector(alloc, places, dims)?;
    let count = places.number(0, MAX_ITEMS)?;
    let items = read_items(alloc, places, dims, count)?;
    let caps = caps(alloc, places, dims, count)?;
    let bin_type = BinType {
        cap,
        cost: 1,
        limit: None,
    };
    Ok(Parts::new(dims, vec![in alloc; bin_type]?, items, caps))
}

#[tactic(auto, using(layout_walk::proofs::Repeats::repeats))]
fn read_items(
    alloc: Global,
    places: &mut Places,
    dims: u32,
    count: u32,
) -> Result<Vec<Item>, ReadFault>
    ensures { let read = several count (plain_item_behind dims) [] places.old in
        MatchResult result (λ v. read ≡ Ok (v.items, places.new)) (λ e. (e ≡ ReadFault.Memory) ⊎ (read ≡ Err e)) }
{
    let mut items = Vec::new(alloc);
    for i in 0..count {
        items.push(read_item(alloc, places, dims, i + 1)?)?;
    }
    Ok(items)
}

#[tactic(auto, unfolding(packing_laws::specs::Layouts::next_plain_item))]
fn read_item(alloc: Global, places: &mut Places, dims: u32, item: u32) -> Result<Item, ReadFault>
    ensures { GivesOrMemory result places.new (next_plain_item dims item places.old) }
{
    let weights = form(alloc, places, dims, item, 1)?;
    let demand = places.number(0, MAX_DEMAND)?;
    let forms = Vectors::new(vec![in alloc; weights]?);
    Ok(Item { demand, forms })
}
