//! The forms that fit a type of bins.

ghost use Rattle.std.specs.Prelude.{◌≡◌, ◌+◌, ◌≤◌, ℕ, All, OnOk, IfOk, length, vec_len};
ghost use Rattle.std.specs.List.Sorted.{IsStrictlySortedBy};
ghost use Rattle.packing_laws.specs.Instances.{type_at};
ghost use Rattle.arc_compile.specs.Extended.{places_of, counted_by_caps};
ghost use Rattle.arc_compile.specs.inner.Ranks.{AddsForms, AreRanked, rank_cmp, forms_of};

use crate::extended::{extended, unit_by_caps};
use crate::ranks::Ranked;
use arc_num::{MAX_FORMS, Memory};
use label_graph::sort_distinct;
use packing_laws::{Instance, Item, vector_fits};
use std::alloc::Global;
use std::cmp::Reverse;

/// Adds the forms of item i that fit, with further numbers behind their weights, and zeros up to N places.
fn push_forms<const N: usize>(
    alloc: Global,
    ranked: &mut Vec<Ranked<N>>,
    i: u32,
    item: &Item,
    cap: &[u32],
    further: &[u32],
) -> Result<(), Memory>
    requires small { N ≤ 32 }
    requires sizes { All (λ v. length v + length further.now ≤ N) item.now.forms }
    requires few { length item.now.forms ≤ MAX_FORMS }
    ensures added { OnOk result (AddsForms i item.now cap.now further.now (length item.now.forms) ranked.old.items ranked.new.items) }
    ensures count { OnOk result (vec_len ranked.new ≤ vec_len ranked.old + length item.now.forms) }
{
    for (f, form) in item.forms.as_slice().iter().enumerate() {
        if vector_fits(form.as_slice(), cap) {
            let weight = extended(alloc, form.as_slice(), further)?;
            ranked.push(Ranked {
                weight: Reverse(weight),
                item: i,
                form: f as u32 + 1,
            })?;
        }
    }
    Ok(())
}

/// The forms that fit a type, of items with a demand, in no order.
fn gathered<const N: usize>(
    alloc: Global,
    instance: &Instance,
    cap: &[u32],
) -> Result<Vec<Ranked<N>>, Memory>
    requires small { N ≤ 32 }
    requires wide { places_of instance.now ≤ N }
    ensures ranked { (t : ℕ) → (type_at instance.now t).cap ≡ cap.now → IfOk result (λ ranked. AreRanked instance.now t (length instance.now.items) ranked.items) }
    ensures count { IfOk result (λ ranked. vec_len ranked ≤ forms_of instance.now.items) }
{
    let mut ranked = Vec::new(alloc);
    for (i, item) in instance.items().iter().enumerate() {
        if item.demand > 0 {
            let number = i as u32 + 1;
            let counted = unit_by_caps(alloc, instance, number)?;
            push_forms(alloc, &mut ranked, number, item, cap, counted.as_slice())?;
        }
    }
    Ok(ranked)
}

/// The forms that fit a type, of items with a demand, in the order of pieces.
pub fn ranked_forms<const N: usize>(
    alloc: Global,
    instance: &Instance,
    cap: &[u32],
) -> Result<Vec<Ranked<N>>, Memory>
    requires small { N ≤ 32 }
    requires wide { places_of instance.now ≤ N }
    ensures ranked { (t : ℕ) → (type_at instance.now t).cap ≡ cap.now → IfOk result (λ ranked. AreRanked instance.now t (length instance.now.items) ranked.items) }
    ensures sorted { IfOk result (λ ranked. IsStrictlySortedBy rank_cmp ranked.items) }
    ensures count { IfOk result (λ ranked. vec_len ranked ≤ forms_of instance.now.items) }
{
    let mut ranked = gathered(alloc, instance, cap)?;
    sort_distinct(&mut ranked);
    Ok(ranked)
}
