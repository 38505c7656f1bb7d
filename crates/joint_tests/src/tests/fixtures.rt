//! A worked instance of two types with its joint graph, and values of its arcs.

ghost use Rattle.std.specs.Prelude.{◌≡◌, IfOk};
ghost use Rattle.joint_arcs.specs.Joined.{IsJoint};
ghost use Rattle.joint_arcs.specs.Faithful.{GraphOf};
ghost use Rattle.joint_tests.specs.Worked.{two_types as two_types_are, two_targets as two_targets_are};

use arc_num::Memory;
use flow_graph::TypeArc;
use joint_arcs::JointArcs;
use joint_flows::JointRow;
use packing_laws::{BinType, Instance, Item, Numbers, Vectors};
use std::alloc::Global;
use std::test::Fail;

/// Values of the arcs, and the first row that they violate: none, where each type has one bin with a unit,
/// and one of each kind.
pub const FIRST_ROWS: [([u64; 7], Option<JointRow>); 4] = [
    ([1, 1, 2, 0, 0, 1, 1], None),
    ([1, 1, 2, 0, 0, 1, 0], Some(JointRow::Node { node: 2 })),
    ([1, 0, 1, 0, 0, 1, 0], Some(JointRow::Demand { item: 1 })),
    ([2, 0, 2, 0, 0, 2, 0], Some(JointRow::Bound { arc: 1 })),
];

/// Two units of an item that weighs 6, one bin of 10 for 1, and bins of 10 for 5 without limit.
pub fn two_types(alloc: Global) -> Result<Instance, Fail>
    ensures { IfOk result (λ I. I ≡ two_types_are) }
{
    let cheap = BinType {
        cap: Numbers::new(vec![in alloc; 10]?),
        cost: 1,
        limit: Some(1),
    };
    let dear = BinType {
        cap: Numbers::new(vec![in alloc; 10]?),
        cost: 5,
        limit: None,
    };
    let weight = Numbers::new(vec![in alloc; 6]?);
    let item = Item {
        demand: 2,
        forms: Vectors::new(vec![in alloc; weight]?),
    };
    match Instance::new(1, vec![in alloc; cheap, dear]?, vec![in alloc; item]?) {
        Some(instance) => Ok(instance),
        None => Err("the numbers are those of an instance".into()),
    }
}

/// The joint graph of that instance: a second node for one unit, and a target for each type.
pub fn two_targets(alloc: Global) -> Result<JointArcs, Memory>
    ensures { IfOk result (λ graph. graph ≡ two_targets_are) }
{
    worked_graph_is_joint();
    let arcs = vec![in alloc;
        arc(1, 2, 1),
        arc(1, 3, 0),
        arc(1, 4, 0),
        arc(2, 3, 0),
        arc(2, 4, 0),
    ]?;
    JointArcs::new(alloc, 2, 2, arcs)
}

// An arc that carries the first form of an item, where the item is 1, or nothing.
fn arc(tail: u32, head: u32, item: u32) -> TypeArc
    ensures { result ≡ record { tail = tail; head = head; item = item; form = item } }
{
    TypeArc {
        tail,
        head,
        item,
        form: item,
    }
}

/// The worked graph is one, and one of the worked instance.
pub fn worked_graph_is_joint()
    ensures joint { IsJoint two_targets_are }
    ensures of { GraphOf two_types_are two_targets_are }
{}
