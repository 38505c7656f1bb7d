ghost use Rattle.std.specs.Prelude.{◌≡◌, ◌-◌, ◌≤◌, ◌↔◌, true, false, [], length, slice_index_or, IsNone, IfSome};
ghost use Rattle.std.specs.List.{list_any};
ghost use Rattle.packing_laws.specs.Instances.{IsAmong};
ghost use Rattle.packing_laws.specs.Floors.{vector_fits, item_fits, HasPlaces, IsFirstHomeless};

use crate::instances::{BinType, Instance, Item};
use crate::numbers::Numbers;
use arc_num::MAX_FORMS;

/// The first item with a demand of which no form fits any type, by its number from 1. Where there is one, no packing
/// exists: see `no_place_no_packing`.
pub fn homeless_item(instance: &Instance) -> Option<u32>
    ensures none { IsNone result ↔ HasPlaces instance.now }
    ensures some { IfSome result (IsFirstHomeless instance.now) }
{
    let types = instance.types();
    for (at, item) in instance.items().iter().enumerate() {
        if item.demand > 0 && !fits_some(item, types) {
            return Some(at as u32 + 1);
        }
    }
    None
}

fn fits_some(item: &Item, types: &[BinType]) -> bool
    ensures { result ≡ list_any (item_fits item.now) types.now }
{
    types.iter().any(|bin_type| some_fits(item.forms.as_slice(), bin_type.cap.as_slice()))
}

fn some_fits(forms: &[Numbers], cap: &[u32]) -> bool
    ensures { result ≡ list_any (λ v. vector_fits v cap.now) forms.now }
{
    forms.iter().any(|form| vector_fits(form.as_slice(), cap))
}

/// A form that is nowhere greater than the capacity, by its number from 1.
pub(crate) fn fitting_form(forms: &[Numbers], cap: &[u32]) -> Option<u32>
    requires { length forms.now ≤ MAX_FORMS }
    ensures none { IsNone result ↔ (list_any (λ v. vector_fits v cap.now) forms.now ≡ false) }
    ensures some { IfSome result (λ f. IsAmong f (length forms.now) × (vector_fits (slice_index_or forms.now (f - 1) []) cap.now ≡ true)) }
{
    for (at, form) in forms.iter().enumerate() {
        if vector_fits(form.as_slice(), cap) {
            return Some(at as u32 + 1);
        }
    }
    None
}

/// Whether no number of the vector passes that of the capacity at its place. Places that one of them lacks are not looked
/// at.
pub fn vector_fits(vector: &[u32], cap: &[u32]) -> bool
    ensures { result ≡ vector_fits vector.now cap.now }
{
    vector.iter().zip(cap).all(|(x, most)| x <= most)
}
