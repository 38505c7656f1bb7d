//! The units that arcs carry.

ghost use Rattle.std.specs.Prelude.{◌≡◌, ℕ, ◌+◌, ◌*◌, ◌<◌, ◌^◌, ◌++◌, if◌then◌else◌, IfOk, All, length};
ghost use Rattle.std.specs.Option.{option_to_list};
ghost use Rattle.packing_laws.specs.Instances.{IsAmong};
ghost use Rattle.flow_model.specs.Flows.{carries, weigh_arcs};
ghost use Rattle.pattern_extract.specs.Trims.{surplus_at};
ghost use Rattle.pattern_extract.specs.Extracts.{NamesItem, unit_on};

use arc_num::Memory;
use flow_graph::ArcKind;
use packing_laws::Count;
use std::alloc::Global;

/// How many units of each item the arcs of a row carry, by the place of the item.
pub fn carried_units(
    alloc: Global,
    count: usize,
    row: &[ArcKind],
    values: &[u64],
) -> Result<Vec<u64>, Memory>
    requires size { length values.now ≡ length row.now }
    requires items { All (NamesItem count) row.now }
    requires small { (i : ℕ) → weigh_arcs (λ kind. if carries i kind then 1 else 0) row.now values.now < 2 ^ 64 }
    ensures size { IfOk result (λ v. length v.items ≡ count) }
    ensures value { IfOk result (λ v. (i : ℕ) → IsAmong i count → surplus_at v.items i ≡ weigh_arcs (λ kind. if carries i kind then 1 else 0) row.now values.now) }
{
    let mut carried = vec![in alloc; 0; count]?;
    let units = carried.as_mut_slice();
    for (place, kind) in row.iter().enumerate() {
        add_units(units, kind, values[place]);
    }
    Ok(carried)
}

// Adds what an arc with this value carries.
fn add_units(units: &mut [u64], kind: &ArcKind, value: u64)
    requires item { NamesItem (length units.old) kind.now }
    requires small { (i : ℕ) → IsAmong i (length units.old) → surplus_at units.old i + (if carries i kind.now then 1 else 0) * value < 2 ^ 64 }
    ensures { (i : ℕ) → IsAmong i (length units.old) → surplus_at units.new i ≡ surplus_at units.old i + (if carries i kind.now then 1 else 0) * value }
{
    match *kind {
        ArcKind::Bin { .. } | ArcKind::Loss { .. } => {}
        ArcKind::Piece { item, .. } => units[item as usize - 1] += value,
    }
}

/// Appends the unit that an arc carries, if it carries one.
pub fn put_unit(counts: &mut Vec<Count>, kind: &ArcKind) -> Result<(), Memory>
    ensures { IfOk result (λ _. counts.new.items ≡ counts.old.items ++ option_to_list (unit_on kind.now)) }
{
    match *kind {
        ArcKind::Bin { .. } | ArcKind::Loss { .. } => {}
        ArcKind::Piece { item, form, .. } => counts.push(Count {
            item,
            form,
            count: 1,
        })?,
    }
    Ok(())
}
