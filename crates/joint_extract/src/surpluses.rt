//! How much more than is asked for a flow carries.

ghost use Rattle.std.specs.Prelude.{◌≡◌, ℕ, ◌+◌, IfOk, length};
ghost use Rattle.packing_laws.specs.Instances.{IsAmong, item_at};
ghost use Rattle.flow_model.specs.Flows.{carries};
ghost use Rattle.pattern_extract.specs.Trims.{surplus_at};
ghost use Rattle.joint_arcs.specs.Faithful.{GraphOf};
ghost use Rattle.joint_arcs.specs.Flows.{IsFlow, total_of};

use arc_num::Memory;
use joint_arcs::JointArcs;
use packing_laws::Instance;
use pattern_extract::carried_units;
use std::alloc::Global;

/// For each item how much more of it the flow carries than is asked for.
pub(crate) fn surpluses(
    alloc: Global,
    instance: &Instance,
    graph: &JointArcs,
    values: &[u64],
) -> Result<Vec<u64>, Memory>
    requires graph { GraphOf instance.now graph.now }
    requires flow { IsFlow instance.now graph.now values.now }
    ensures size { IfOk result (λ v. length v.items ≡ length instance.now.items) }
    ensures value { IfOk result (λ v. (i : ℕ) → IsAmong i (length instance.now.items) → total_of (carries i) graph.now values.now ≡ (item_at instance.now i).demand + surplus_at v.items i) }
{
    instance.known();
    graph.known();
    let items = instance.items();
    let mut surplus = carried_units(alloc, items.len(), graph.row(), values)?;
    let units = surplus.as_mut_slice();
    for (place, item) in items.iter().enumerate() {
        units[place] -= u64::from(item.demand);
    }
    Ok(surplus)
}
