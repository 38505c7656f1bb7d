//! The sums of a flow at nodes and items.

ghost use Rattle.std.specs.Prelude.{◌≡◌, [], ◌+◌, ◌*◌, ◌^◌, ◌<◌, ◌≤◌, ℕ, IfOk, All, length, sum_by, slice_index, take};
ghost use Rattle.packing_laws.specs.Instances.{IsAmong};
ghost use Rattle.flow_graph.specs.Arcs.{numbered};
ghost use Rattle.flow_model.specs.Tallies.{AreStarts, IsTallyOf};
ghost use Rattle.flow_model.specs.inner.Sums.{HasShapeOf, IsTypeIn, IsPlaced, IsRaised, AreBelow, Holds, tail_in, head_in, raised};

use crate::places::node_starts;
use arc_num::{MAX_ITEMS, MAX_NUMBERED, Memory};
use flow_graph::{ArcKind, FlowGraph, nodes_are_few};
use std::alloc::Global;
use std::marker::Model;

/// Room for the sums of a flow at the nodes of a graph, and for what it carries of each item.
#[derive(Debug, Drop)]
pub struct Tally {
    starts: Vec<u32>,
    inflow: Vec<u128>,
    outflow: Vec<u128>,
    items: Vec<u128>,
}

impl Model for Tally {
    ghost use Rattle.flow_model.specs.Tallies.{TallyValue};

    ghost Value = { TallyValue };

    ghost view = { λ t. record { starts = t.starts.items; inflow = t.inflow.items; outflow = t.outflow.items; items = t.items.items } };
}

impl Tally {
    pub fn new(alloc: Global, graph: &FlowGraph) -> Result<Tally, Memory>
        ensures { IfOk result (λ tally. IsTallyOf graph.now tally) }
    {
        graph.known();
        nodes_are_few();
        let starts = node_starts(alloc, graph)?;
        let nodes = starts[graph.type_count() as usize] as usize;
        Ok(Tally {
            starts,
            inflow: vec![in alloc; 0; nodes]?,
            outflow: vec![in alloc; 0; nodes]?,
            items: vec![in alloc; 0; MAX_ITEMS as usize]?,
        })
    }

    /// How many nodes the types before this one have.
    pub(crate) fn start(&self, t: u32) -> u32
        requires { t < length self.now.starts }
        ensures { result ≡ slice_index self.now.starts t }
    {
        self.starts[t as usize]
    }

    /// What comes into the node at this place, from 0, and what goes out of it.
    pub(crate) fn node(&self, place: usize) -> (u128, u128)
        requires inflow { place < length self.now.inflow }
        requires outflow { place < length self.now.outflow }
        ensures { result ≡ (slice_index self.now.inflow place, slice_index self.now.outflow place) }
    {
        (self.inflow[place], self.outflow[place])
    }

    /// What is carried of the item at this place, from 0.
    pub(crate) fn item(&self, place: usize) -> u128
        requires { place < length self.now.items }
        ensures { result ≡ slice_index self.now.items place }
    {
        self.items[place]
    }

    /// Takes the sums of these values, whatever they were before.
    pub(crate) fn take_sums(&mut self, row: &[ArcKind], values: &[u64])
        requires size { length values.now ≡ length row.now }
        requires few { length row.now ≤ MAX_NUMBERED }
        requires placed { All (IsPlaced (length self.old.inflow) self.old.starts) row.now }
        requires nodes { length self.old.inflow ≤ MAX_NUMBERED }
        requires outflow { length self.old.outflow ≡ length self.old.inflow }
        requires items { length self.old.items ≡ MAX_ITEMS }
        ensures shape { HasShapeOf self.old self.new }
        ensures sums { Holds row.now values.now self.new }
    {
        self.clear();
        let mut index = 0;
        for kind in row {
            self.add(kind, values[index]);
            index += 1;
        }
    }

    // Makes all sums 0.
    fn clear(&mut self)
        ensures shape { HasShapeOf self.old self.new }
        ensures below { AreBelow 0 self.new }
        ensures sums { Holds [] [] self.new }
    {
        self.inflow.fill(0);
        self.outflow.fill(0);
        self.items.fill(0);
    }

    // Adds what an arc carries to the sums.
    fn add(&mut self, kind: &ArcKind, value: u64)
        requires placed { IsPlaced (length self.old.inflow) self.old.starts kind.now }
        requires outflow { length self.old.outflow ≡ length self.old.inflow }
        requires nodes { length self.old.inflow ≤ MAX_NUMBERED }
        requires items { length self.old.items ≡ MAX_ITEMS }
        requires below { AreBelow (2 ^ 127) self.old }
        ensures { IsRaised self.old self.new kind.now value }
    {
        let (tail, head) = ends(self.starts.as_slice(), kind);
        raise(self.outflow.as_mut_slice(), tail, value);
        raise(self.inflow.as_mut_slice(), head, value);
        if let ArcKind::Piece { item, .. } = *kind {
            raise(self.items.as_mut_slice(), item, value);
        }
    }
}

// The places of the nodes that an arc goes out of and comes into.
fn ends(starts: &[u32], kind: &ArcKind) -> (u32, u32)
    requires of_type { IsTypeIn starts.now kind.now }
    requires tail { tail_in starts.now kind.now < 2 ^ 32 }
    requires head { head_in starts.now kind.now < 2 ^ 32 }
    ensures { result ≡ (tail_in starts.now kind.now, head_in starts.now kind.now) }
{
    match *kind {
        ArcKind::Bin { t } => (starts[t as usize], starts[t as usize - 1] + 1),
        ArcKind::Loss { t, tail, head } | ArcKind::Piece { t, tail, head, .. } => {
            let start = starts[t as usize - 1];
            (start + tail, start + head)
        }
    }
}

// Adds a value to the sum at a place, from 1.
fn raise(sums: &mut [u128], place: u32, value: u64)
    requires place { IsAmong place (length sums.old) }
    requires room { (j : ℕ) → slice_index sums.old j ≤ 2 ^ 127 }
    ensures { sums.new ≡ raised sums.old place value }
{
    sums[place as usize - 1] += u128::from(value);
}
