ghost use Rattle.std.specs.Prelude.{◌≡◌, ◌+◌, ◌-◌, ◌*◌, ◌^◌, ◌<◌, ◌≤◌, ◌↔◌, [], length, IsNone, IsSome, IfSome, MatchOption, min, ◌⊎◌, ◌&&◌, is_none, false};
ghost use Rattle.packing_laws.specs.Instances.{IsItem};
ghost use Rattle.packing_laws.specs.Floors.{item_fits, single_costs, single_of, HasSingle};
ghost use Rattle.packing_laws.specs.inner.Choices.{IsChoiceOf, IsCheapest};

use crate::instances::{BinType, Instance, Item};
use crate::places::fitting_form;
use arc_num::MAX_FORMS;

/// Where a unit of an item goes: a form, a type that it fits, both by their numbers from 1, and what the type costs.
#[derive(Clone, Copy)]
pub(crate) struct Choice {
    pub bin_type: u32,
    pub form: u32,
    pub cost: u32,
}

/// What one bin for each unit costs, each of the cheapest type without limit. None where an item with a demand fits no
/// type without limit.
pub fn single_cost(instance: &Instance) -> Option<u128>
    ensures exists { IsSome result ↔ HasSingle instance.now }
    ensures value { IfSome result (λ z. z ≡ single_of instance.now) }
{
    let mut total = 0;
    for item in instance.items() {
        if item.demand > 0 {
            match cheapest(instance, item) {
                None => return None,
                Some(choice) => total += cost_of_units(item.demand, choice.cost),
            }
        }
    }
    Some(total)
}

fn cost_of_units(units: u32, cost: u32) -> u128
    ensures value { result ≡ units * cost }
    ensures small { result ≤ 2 ^ 64 }
{
    u128::from(units) * u128::from(cost)
}

/// The cheapest type without limit that some form of the item fits, and such a form.
pub(crate) fn cheapest(instance: &Instance, item: &Item) -> Option<Choice>
    requires { IsItem instance.now.dims item.now }
    ensures none { IsNone result ↔ (single_costs instance.now item.now ≡ []) }
    ensures some { IfSome result (IsCheapest instance.now item.now) }
{
    let mut best = None;
    for (at, bin_type) in instance.types().iter().enumerate() {
        match choice_of(item, bin_type, at as u32 + 1) {
            Some(choice) => best = Some(cheaper(best, choice)),
            None => {}
        }
    }
    best
}

/// A form that fits the type, unless the type has a limit.
fn choice_of(item: &Item, bin_type: &BinType, number: u32) -> Option<Choice>
    requires { length item.now.forms ≤ MAX_FORMS }
    ensures none { IsNone result ↔ ((is_none bin_type.now.limit && item_fits item.now bin_type.now) ≡ false) }
    ensures some { IfSome result (IsChoiceOf item.now bin_type.now number) }
{
    if bin_type.limit.is_some() {
        return None;
    }
    match fitting_form(item.forms.as_slice(), bin_type.cap.as_slice()) {
        Some(form) => Some(Choice {
            bin_type: number,
            form,
            cost: bin_type.cost,
        }),
        None => None,
    }
}

fn cheaper(best: Option<Choice>, next: Choice) -> Choice
    ensures kept { (result ≡ next) ⊎ (best ≡ Some result) }
    ensures least { MatchOption best (result ≡ next) (λ b. result.cost ≡ min b.cost next.cost) }
{
    match best {
        Some(choice) if choice.cost <= next.cost => choice,
        _ => next,
    }
}
