//! Tests of the limits, part by part.

ghost use Rattle.std.specs.Prelude.{◌≤◌, ◌↔◌, IsTrue, length, All, sum_by};
ghost use Rattle.std.specs.List.Sorted.{IsStrictlySortedBy};
ghost use Rattle.packing_laws.specs.Instances.{IsVector, IsAmong, IsForm, IsLimit, IsBinType, IsItem, IsCap, AreCaps, IsInstance, cap_cmp};

use crate::instances::{BinType, Item, ItemCap};
use crate::numbers::Numbers;
use arc_num::{
    MAX_ALL_FORMS, MAX_CAP, MAX_DEMAND, MAX_DIMS, MAX_FORMS, MAX_ITEMS, MAX_TYPES, MAX_VALUE,
};

fn is_vector(vector: &[u32], dims: u32) -> bool
    ensures { IsTrue result ↔ IsVector dims vector.now }
{
    vector.len() == dims as usize && vector.iter().all(|x| *x <= MAX_VALUE)
}

fn is_form(form: &[u32], dims: u32) -> bool
    ensures { IsTrue result ↔ IsForm dims form.now }
{
    is_vector(form, dims) && form.iter().any(|x| *x > 0)
}

fn is_limit(limit: Option<u32>) -> bool
    ensures { IsTrue result ↔ IsLimit limit }
{
    match limit {
        None => true,
        Some(most) => most <= MAX_VALUE,
    }
}

fn is_bin_type(bin_type: &BinType, dims: u32) -> bool
    ensures { IsTrue result ↔ IsBinType dims bin_type.now }
{
    is_vector(bin_type.cap.as_slice(), dims)
        && bin_type.cost <= MAX_VALUE
        && is_limit(bin_type.limit)
}

fn are_forms(forms: &[Numbers], dims: u32) -> bool
    ensures { IsTrue result ↔ All (IsForm dims) forms.now }
{
    forms.iter().all(|form| is_form(form.as_slice(), dims))
}

fn is_among(count: usize, most: usize) -> bool
    ensures { IsTrue result ↔ IsAmong count most }
{
    1 <= count && count <= most
}

fn is_item(item: &Item, dims: u32) -> bool
    ensures { IsTrue result ↔ IsItem dims item.now }
{
    let forms = item.forms.as_slice();
    item.demand <= MAX_DEMAND && is_among(forms.len(), MAX_FORMS as usize) && are_forms(forms, dims)
}

/// Whether the items have at most as many forms together as the limit says.
fn is_form_total(items: &[Item]) -> bool
    ensures { IsTrue result ↔ (sum_by (λ x. length x.forms) items.now ≤ MAX_ALL_FORMS) }
{
    let mut room = MAX_ALL_FORMS as usize;
    for item in items {
        let count = item.forms.as_slice().len();
        if count > room {
            return false;
        }
        room -= count;
    }
    true
}

fn are_types(types: &[BinType], dims: u32) -> bool
    ensures { IsTrue result ↔ (IsAmong (length types.now) MAX_TYPES × All (IsBinType dims) types.now) }
{
    is_among(types.len(), MAX_TYPES as usize)
        && types.iter().all(|bin_type| is_bin_type(bin_type, dims))
}

fn are_items(items: &[Item], dims: u32) -> bool
    ensures { IsTrue result ↔ ((length items.now ≤ MAX_ITEMS) × All (IsItem dims) items.now) }
{
    items.len() <= MAX_ITEMS as usize && items.iter().all(|item| is_item(item, dims))
}

fn is_cap(cap: &ItemCap, items: usize) -> bool
    ensures { IsTrue result ↔ IsCap items cap.now }
{
    is_among(cap.item as usize, items) && is_among(cap.count as usize, MAX_CAP as usize)
}

/// Whether the caps are those of items in ascending order.
fn ascend(caps: &[ItemCap]) -> bool
    ensures { IsTrue result ↔ IsStrictlySortedBy cap_cmp caps.now }
{
    caps.is_sorted_by(|a, b| a.item < b.item)
}

/// Whether the caps are lawful, in so many dimensions and of so many items.
fn are_caps(caps: &[ItemCap], dims: u32, items: usize) -> bool
    requires { dims ≤ MAX_DIMS }
    ensures { IsTrue result ↔ AreCaps dims items caps.now }
{
    caps.len() <= (MAX_DIMS - dims) as usize
        && caps.iter().all(|cap| is_cap(cap, items))
        && ascend(caps)
}

/// Whether all numbers are within the limits, all vectors have `dims` numbers, no form is without weight, and the caps
/// are lawful.
pub(crate) fn is_instance(dims: u32, types: &[BinType], items: &[Item], caps: &[ItemCap]) -> bool
    ensures { IsTrue result ↔ IsInstance (record { dims = dims; types = types.now; items = items.now; caps = caps.now }) }
{
    is_among(dims as usize, MAX_DIMS as usize)
        && are_types(types, dims)
        && are_items(items, dims)
        && is_form_total(items)
        && are_caps(caps, dims, items.len())
}
