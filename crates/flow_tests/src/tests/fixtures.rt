//! A worked instance with its graph and flows of it.

ghost use Rattle.std.specs.Prelude.{◌≡◌, IfOk};
ghost use Rattle.flow_model.specs.Worked.{three_of_one as three_of_one_is};

use arc_num::{Listed, Memory};
use flow_model::{Flow, FlowRow, three_of_one};
use packing_laws::Instance;
use std::alloc::Global;
use std::test::Fail;

/// Values that are no flow of three units, by the first row that they violate.
pub const NO_FLOWS: [([u64; 5], FlowRow); 3] = [
    ([2, 1, 0, 0, 1], FlowRow::Node { t: 1, node: 1 }),
    ([1, 1, 0, 0, 1], FlowRow::Demand { item: 1 }),
    ([4, 4, 0, 0, 4], FlowRow::Bound { arc: 1 }),
];

/// Three units of an item of weight 1, and bins of 2 for 3.
pub fn three_units(alloc: Global) -> Result<Instance, Fail>
    ensures { IfOk result (λ I. I ≡ three_of_one_is) }
{
    match three_of_one(alloc)? {
        Some(instance) => Ok(instance),
        None => Err("the numbers are those of an instance".into()),
    }
}

/// A flow of these values, arc by arc.
pub fn flow_of(alloc: Global, values: &[u64]) -> Result<Flow, Memory>
    ensures { IfOk result (λ flow. flow.values ≡ values.now) }
{
    Ok(Flow {
        values: Listed::new(Vec::from_slice(alloc, values)?),
    })
}

/// Takes what may be sent to another thread and shared with it.
pub fn needs_send<T: Send + Sync>(_value: &T) {}
