//! Joint main compression: nodes with the same room for all types become one.

ghost use Rattle.std.specs.Prelude.{◌≡◌, ◌+◌, ◌≤◌, ◌<◌, ◌⊎◌, length, IfOk};
ghost use Rattle.std.specs.declared.cmp.Ordering.TheVariants.{Less};
ghost use Rattle.joint_graph.specs.Joints.{IsType};
ghost use Rattle.joint_graph.specs.Merged.{IsJointMain};
ghost use Rattle.joint_graph.specs.inner.Passes.{AreWaysOn};
ghost use Rattle.joint_graph.specs.inner.Classes.{AreClasses, AreKeys, WayBefore};

use crate::graph::Joint;
use crate::merging::image;
use crate::onward::ways_on;
use crate::ranks::{Ranks, order_is_total, rank_all};
use arc_num::Memory;
use std::alloc::Global;
use std::cmp::Reverse;
use weight_vec::Weights;

// A class of nodes by some types, and the weights of the ways on to the target of the next one. Heavier ones come first.
#[derive(Clone, Copy, PartialEq, Eq, PartialOrd, Ord)]
pub struct Key<const N: usize> {
    pub class: u64,
    pub way: Reverse<Option<Weights<N>>>,
}

/// The joint main graph of a joint graph.
pub fn joint_main<const N: usize>(alloc: Global, graph: &Joint<N>) -> Result<Joint<N>, Memory>
    requires small { N ≤ 32 }
    ensures { IfOk result (IsJointMain graph.now) }
{
    graph.known();
    let classes = classes_of(alloc, graph)?;
    image(alloc, graph, &classes)
}

// The nodes that are no targets, in classes by their rooms for all types.
fn classes_of<const N: usize>(alloc: Global, graph: &Joint<N>) -> Result<Ranks, Memory>
    requires small { N ≤ 32 }
    ensures { IfOk result (λ classes. AreClasses graph.now (length graph.now.caps) classes.numbers.items classes.count) }
{
    graph.known();
    let numbers = vec![in alloc; 1; graph.inner() as usize]?;
    let mut classes = Ranks { numbers, count: 1 };
    let types = graph.caps().len();
    for t in 0..types {
        let ways = ways_on(alloc, graph, t + 1)?;
        classes = refined(alloc, graph, t, &classes, ways.as_slice())?;
    }
    Ok(classes)
}

// The classes refined by the room for one more type.
fn refined<const N: usize>(
    alloc: Global,
    graph: &Joint<N>,
    _t: usize,
    classes: &Ranks,
    ways: &[Option<Weights<N>>],
) -> Result<Ranks, Memory>
    requires small { N ≤ 32 }
    requires in_range { IsType graph.now.caps (_t + 1) }
    requires classes { AreClasses graph.now _t classes.now.numbers.items classes.now.count }
    requires ways { AreWaysOn graph.now (_t + 1) ways.now }
    ensures { IfOk result (λ refined. AreClasses graph.now (_t + 1) refined.numbers.items refined.count) }
{
    graph.known();
    keys_are_in_order::<N>();
    order_is_total::<Key<N>>();
    let keys = keys_of(alloc, classes.numbers.as_slice(), ways)?;
    rank_all(alloc, keys.as_slice())
}

// A key for each node that is no target.
fn keys_of<const N: usize>(
    alloc: Global,
    classes: &[u64],
    ways: &[Option<Weights<N>>],
) -> Result<Vec<Key<N>>, Memory>
    requires small { N ≤ 32 }
    requires sized { length classes.now ≤ length ways.now }
    ensures { IfOk result (λ keys. AreKeys classes.now ways.now keys.items) }
{
    let mut keys = Vec::with_capacity(alloc, classes.len())?;
    for index in 0..classes.len() {
        keys.push(Key {
            class: classes[index],
            way: Reverse(ways[index]),
        })?;
    }
    Ok(keys)
}

// A call that costs nothing: the derived order of keys is by class, and then by ways, the heavier first.
fn keys_are_in_order<const N: usize>()
    requires { N ≤ 32 }
    ensures { (a b : Key N) → ((a.class < b.class) ⊎ ((a.class ≡ b.class) × WayBefore a.way.0 b.way.0)) → ⟦<Key<N> as Ord>⟧.cmp a b ≡ Less }
{}
