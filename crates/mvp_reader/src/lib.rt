//! Reads instances with several types of bins, and several forms for each item.
#![tactic(auto)]

ghost use Rattle.std.specs.Prelude.{◌≡◌, ◌≢◌, ◌⊎◌, ℕ, ◌+◌, ◌-◌, ◌<◌, ◌≤◌, [], ◌∷◌, length, MatchResult, IfOk, IfErr, Ok, Err, Some, None};
ghost use Rattle.packing_laws.specs.Places.{Place, several, Gives, GivesOrMemory, AnswersOrMemory};
ghost use Rattle.packing_laws.specs.Layouts.{Layout, Mvp, Reads, BadPlace, reading_of, forms_of, next_form_count, form_behind, next_item, item_behind, next_type, type_behind, instance_at};

use arc_num::{
    MAX_ALL_FORMS, MAX_DEMAND, MAX_DIMS, MAX_FORMS, MAX_INSTANCE, MAX_ITEMS, MAX_TYPES, MAX_VALUE,
};
use layout_walk::{Parts, Places, caps, form, vector};
use packing_laws::{BinType, Instance, Item, ReadFault, Vectors};
use std::alloc::Global;

mod laws;

pub use laws::{a_text_reads_as_its_row, examples_come_out, memory_is_no_place};

/// The instance that the text spells, or its first bad place.
pub fn read_mvp(alloc: Global, text: &[u8]) -> Result<Instance, ReadFault>
    requires { length text.now ≤ MAX_INSTANCE }
    ensures read { IfOk result (λ I. Reads Mvp text.now I) }
    ensures fault { IfErr result (λ e. (e ≡ ReadFault.Memory) ⊎ BadPlace Mvp text.now e) }
{
    let parts = read_parts(alloc, &mut Places::new(text))?;
    Ok(parts.into_instance())
}

#[tactic(auto, unfolding(packing_laws::specs::Layouts::instance_at))]
fn read_parts(alloc: Global, places: &mut Places) -> Result<Parts, ReadFault>
    ensures { AnswersOrMemory result (instance_at places.old) }
{
    let dims = places.number(1, MAX_DIMS)?;
    let type_count = places.number(1, MAX_TYPES)?;
    let types = read_types(alloc, places, dims, type_count)?;
    let item_count = places.number(0, MAX_ITEMS)?;
    let items = read_items(alloc, places, dims, item_count)?;
    let caps = caps(alloc, places, dims, item_count)?;
    Ok(Parts::new(dims, types, items, caps))
}

#[tactic(auto, using(layout_walk::proofs::Repeats::repeats))]
fn read_types(
    alloc: Global,
    places: &mut Places,
    dims: u32,
    count: u32,
) -> Result<Vec<BinType>, ReadFault>
    ensures { let read = several count (type_behind dims) [] places.old in
        MatchResult result (λ v. read ≡ Ok (v.items, places.new)) (λ e. (e ≡ ReadFault.Memory) ⊎ (read ≡ Err e)) }
{
    let mut types = Vec::new(alloc);
    for _t in 0..count {
        types.push(read_type(alloc, places, dims)?)?;
    }
    Ok(types)
}

#[tactic(auto, unfolding(packing_laws::specs::Layouts::next_type))]
fn read_type(alloc: Global, places: &mut Places, dims: u32) -> Result<BinType, ReadFault>
    ensures { GivesOrMemory result places.new (next_type dims places.old) }
{
    let cap = vector(alloc, places, dims)?;
    let cost = places.number(0, MAX_VALUE)?;
    let limit = places.limit()?;
    Ok(BinType { cap, cost, limit })
}

#[tactic(auto, using(crate::proofs::Steps::item_steps))]
fn read_items(
    alloc: Global,
    places: &mut Places,
    dims: u32,
    count: u32,
) -> Result<Vec<Item>, ReadFault>
    ensures { let read = several count (item_behind dims) [] places.old in
        MatchResult result (λ v. read ≡ Ok (v.items, places.new)) (λ e. (e ≡ ReadFault.Memory) ⊎ (read ≡ Err e)) }
{
    let mut items = Vec::new(alloc);
    let mut forms = 0;
    for i in 0..count {
        let item = read_item(alloc, places, dims, i + 1, forms)?;
        forms += item.forms.as_slice().len() as u32;
        items.push(item)?;
    }
    Ok(items)
}

// The items before this one have `before` forms.
#[tactic(auto, unfolding(packing_laws::specs::Layouts::next_item))]
fn read_item(
    alloc: Global,
    places: &mut Places,
    dims: u32,
    item: u32,
    before: u32,
) -> Result<Item, ReadFault>
    requires { before ≤ MAX_ALL_FORMS }
    ensures read { GivesOrMemory result places.new (next_item dims item before places.old) }
    ensures total { IfOk result (λ x. before + length x.forms ≤ MAX_ALL_FORMS) }
{
    let count = read_form_count(places, before)?;
    let demand = places.number(0, MAX_DEMAND)?;
    let forms = read_forms(alloc, places, dims, item, count)?;
    Ok(Item { demand, forms })
}

#[tactic(auto, unfolding(packing_laws::specs::Layouts::next_form_count))]
fn read_form_count(places: &mut Places, before: u32) -> Result<u32, ReadFault>
    requires { before ≤ MAX_ALL_FORMS }
    ensures read { Gives result places.new (next_form_count before places.old) }
    ensures total { IfOk result (λ n. before + n ≤ MAX_ALL_FORMS) }
{
    let count = places.number(1, MAX_FORMS)?;
    if count > MAX_ALL_FORMS - before {
        return Err(ReadFault::Total {
            index: places.count(),
        });
    }
    Ok(count)
}

#[tactic(auto, using(layout_walk::proofs::Repeats::repeats))]
fn read_forms(
    alloc: Global,
    places: &mut Places,
    dims: u32,
    item: u32,
    count: u32,
) -> Result<Vectors, ReadFault>
    ensures read { GivesOrMemory result places.new (several count (form_behind dims item) [] places.old) }
    ensures count { IfOk result (λ vs. length vs ≡ count) }
{
    let mut forms = Vec::new(alloc);
    for f in 0..count {
        forms.push(form(alloc, places, dims, item, f + 1)?)?;
    }
    Ok(Vectors::new(forms))
}
