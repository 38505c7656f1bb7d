//! The sums of values at nodes and items.

ghost use Rattle.std.specs.Prelude.{◌≡◌, ◌+◌, ◌<◌, ◌≤◌, ◌^◌, ℕ, All, IfOk, length, slice_index, slice_set};
ghost use Rattle.arc_num.specs.declared.TheConstants.{MAX_NUMBERED};
ghost use Rattle.flow_model.specs.inner.Known.{NamesType};
ghost use Rattle.joint_arcs.specs.Joined.{head_of, node_count, numbered, tail_of};
ghost use Rattle.joint_flows.specs.inner.Sums.{IsTable, item_of, place_of};

use crate::known;
use arc_num::Memory;
use flow_graph::ArcKind;
use joint_arcs::JointArcs;
use packing_laws::Instance;
use std::alloc::Global;
use std::marker::Model;

/// What comes into each node, what goes out of it, and what is carried of each item, by number.
#[derive(Debug, Drop)]
pub(crate) struct Sums {
    inflow: Vec<u128>,
    outflow: Vec<u128>,
    items: Vec<u128>,
}

impl Model for Sums {
    ghost use Rattle.joint_flows.specs.inner.Sums.{SumsValue};

    ghost Value = { SumsValue };

    ghost view = { λ s. record { inflow = s.inflow.items; outflow = s.outflow.items; items = s.items.items } };
}

impl Sums {
    ghost use Rattle.std.specs.Prelude.{◌≡◌, ◌<◌, IfOk, length, slice_index};
    ghost use Rattle.joint_arcs.specs.Joined.{numbered};
    ghost use Rattle.joint_arcs.specs.Faithful.{GraphOf};
    ghost use Rattle.joint_flows.specs.inner.Sums.{AreSums, HasRoom};

    /// The sums of these values.
    pub(crate) fn new(
        alloc: Global,
        instance: &Instance,
        graph: &JointArcs,
        values: &[u64],
    ) -> Result<Sums, Memory>
        requires graph { GraphOf instance.now graph.now }
        requires size { length values.now ≡ length (numbered graph.now) }
        ensures room { IfOk result (λ sums. HasRoom instance.now graph.now sums) }
        ensures sums { IfOk result (λ sums. AreSums instance.now graph.now values.now sums) }
    {
        known::joint(instance, graph);
        let nodes = graph.node_count();
        let inflow = table_of(alloc, graph, values, Side::Heads, nodes)?;
        let outflow = table_of(alloc, graph, values, Side::Tails, nodes)?;
        let items = table_of(alloc, graph, values, Side::Items, instance.item_count())?;
        Ok(Sums {
            inflow,
            outflow,
            items,
        })
    }

    /// What comes into a node.
    pub(crate) fn into_node(&self, v: u32) -> u128
        requires { v < length self.now.inflow }
        ensures { result ≡ slice_index self.now.inflow v }
    {
        self.inflow[v as usize]
    }

    /// What goes out of a node.
    pub(crate) fn out_of_node(&self, v: u32) -> u128
        requires { v < length self.now.outflow }
        ensures { result ≡ slice_index self.now.outflow v }
    {
        self.outflow[v as usize]
    }

    /// What is carried of an item.
    pub(crate) fn of_item(&self, i: u32) -> u128
        requires { i < length self.now.items }
        ensures { result ≡ slice_index self.now.items i }
    {
        self.items[i as usize]
    }
}

/// By what the values of arcs are added up.
#[derive(Clone, Copy)]
enum Side {
    /// The node that an arc comes into.
    Heads,
    /// The node that an arc goes out of.
    Tails,
    /// The item that an arc carries.
    Items,
}

// For each number from 0 to the last the values of the arcs that have it, added up.
fn table_of(
    alloc: Global,
    graph: &JointArcs,
    values: &[u64],
    side: Side,
    last: u32,
) -> Result<Vec<u128>, Memory>
    requires size { length values.now ≡ length (numbered graph.now) }
    requires few { length (numbered graph.now) ≤ MAX_NUMBERED }
    requires names { All (NamesType graph.now.types) (numbered graph.now) }
    requires small { last ≤ MAX_NUMBERED }
    requires places { All (λ kind. place_of side graph.now kind ≤ last) (numbered graph.now) }
    ensures { IfOk result (λ table. IsTable (place_of side graph.now) last (numbered graph.now) values.now table.items) }
{
    let mut table = vec![in alloc; 0; last as usize + 1]?;
    let sums = table.as_mut_slice();
    for (index, kind) in graph.row().iter().enumerate() {
        raise(sums, place_of(graph, side, kind), values[index]);
    }
    Ok(table)
}

// Adds a value to the sum at a place.
fn raise(sums: &mut [u128], place: u32, value: u64)
    requires place { place < length sums.old }
    requires room { (j : ℕ) → slice_index sums.old j ≤ 2 ^ 127 }
    ensures { sums.new ≡ slice_set sums.old place (slice_index sums.old place + value) }
{
    sums[place as usize] += u128::from(value);
}

// The number under which the value of an arc is added up.
fn place_of(graph: &JointArcs, side: Side, kind: &ArcKind) -> u32
    requires { NamesType graph.now.types kind.now }
    ensures { result ≡ place_of side graph.now kind.now }
{
    match side {
        Side::Heads => head_of(kind),
        Side::Tails => tail_of(graph, kind),
        Side::Items => item_of(kind),
    }
}

// The node that an arc comes into.
fn head_of(kind: &ArcKind) -> u32
    ensures { result ≡ head_of kind.now }
{
    match *kind {
        ArcKind::Bin { .. } => 1,
        ArcKind::Loss { head, .. } | ArcKind::Piece { head, .. } => head,
    }
}

// The node that an arc goes out of.
fn tail_of(graph: &JointArcs, kind: &ArcKind) -> u32
    requires { NamesType graph.now.types kind.now }
    ensures { result ≡ tail_of graph.now kind.now }
{
    graph.known();
    match *kind {
        ArcKind::Bin { t } => graph.inner_count() + t,
        ArcKind::Loss { tail, .. } | ArcKind::Piece { tail, .. } => tail,
    }
}

// The item that an arc carries; 0 where it carries none.
fn item_of(kind: &ArcKind) -> u32
    ensures { result ≡ item_of kind.now }
{
    match *kind {
        ArcKind::Bin { .. } | ArcKind::Loss { .. } => 0,
        ArcKind::Piece { item, .. } => item,
    }
}
