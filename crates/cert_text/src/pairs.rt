//! Pairs of a number and what it has, whose numbers ascend.

ghost use Rattle.std.specs.Prelude.{◌≡◌, ◌+◌, ◌<◌};
ghost use Rattle.cert_text.specs.inner.Fields.{number_at, widest, item_at, arc_at, part_at, items_at, arcs_at, parts_at, Gives};

use crate::faults::LineFault;
use crate::fields::{Fields, number_field, signed_field, small_field};
use crate::lines::{ArcPart, ArcPrice, ItemPrice};
use arc_num::{Listed, MAX_PRICE};
use std::alloc::Global;

/// The next field as a number above the last one.
fn next_number(fields: &mut Fields<'_>, last: u32) -> Result<u32, LineFault>
    ensures { Gives result (number_at (last + 1) widest fields.old) fields.new }
{
    small_field(fields, u64::from(last) + 1, u32::MAX)
}

#[tactic(auto, unfolding(crate::specs::inner::Fields::item_at))]
fn item(fields: &mut Fields<'_>, last: u32) -> Result<ItemPrice, LineFault>
    ensures { Gives result (item_at last fields.old) fields.new }
{
    let item = next_number(fields, last)?;
    let price = number_field(fields, 1, MAX_PRICE)?;
    Ok(ItemPrice { item, price })
}

#[tactic(auto, unfolding(crate::specs::inner::Fields::arc_at))]
fn arc(fields: &mut Fields<'_>, last: u32) -> Result<ArcPrice, LineFault>
    ensures { Gives result (arc_at last fields.old) fields.new }
{
    let arc = next_number(fields, last)?;
    let price = signed_field(fields)?;
    Ok(ArcPrice { arc, price })
}

#[tactic(auto, unfolding(crate::specs::inner::Fields::part_at))]
fn part(fields: &mut Fields<'_>, last: u32) -> Result<ArcPart, LineFault>
    ensures { Gives result (part_at last fields.old) fields.new }
{
    let arc = next_number(fields, last)?;
    let value = number_field(fields, 1, MAX_PRICE)?;
    Ok(ArcPart { arc, value })
}

/// So many prices of items.
pub(crate) fn items(
    alloc: Global,
    fields: &mut Fields<'_>,
    count: u32,
) -> Result<Listed<ItemPrice>, LineFault>
    ensures { Gives result (items_at count 0 fields.old) fields.new }
{
    let mut items = Listed::empty(alloc);
    let mut last = 0;
    for _ in 0..count {
        let next = item(fields, last)?;
        last = next.item;
        items.push(next)?;
    }
    Ok(items)
}

/// So many prices of arcs.
pub(crate) fn arcs(
    alloc: Global,
    fields: &mut Fields<'_>,
    count: u32,
) -> Result<Listed<ArcPrice>, LineFault>
    ensures { Gives result (arcs_at count 0 fields.old) fields.new }
{
    let mut arcs = Listed::empty(alloc);
    let mut last = 0;
    for _ in 0..count {
        let next = arc(fields, last)?;
        last = next.arc;
        arcs.push(next)?;
    }
    Ok(arcs)
}

/// So many parts of a flow.
pub(crate) fn parts(
    alloc: Global,
    fields: &mut Fields<'_>,
    count: u32,
) -> Result<Listed<ArcPart>, LineFault>
    ensures { Gives result (parts_at count 0 fields.old) fields.new }
{
    let mut parts = Listed::empty(alloc);
    let mut last = 0;
    for _ in 0..count {
        let next = part(fields, last)?;
        last = next.arc;
        parts.push(next)?;
    }
    Ok(parts)
}
