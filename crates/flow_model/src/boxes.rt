//! Ranges of arcs.

ghost use Rattle.std.specs.Prelude.{◌≡◌, IfOk, length};
ghost use Rattle.packing_laws.specs.Instances.{units_of};
ghost use Rattle.flow_graph.specs.Faithful.{GraphOf};
ghost use Rattle.flow_model.specs.Boxes.{limited, root_ranges, upper_of};
ghost use Rattle.flow_model.specs.inner.Known.{NamesType};

use crate::known;
use arc_num::Memory;
use flow_graph::{ArcKind, FlowGraph};
use packing_laws::Instance;
use std::alloc::Global;
use std::marker::Model;

/// A range for each arc, by number.
#[derive(Clone, Debug, Drop)]
pub struct FlowBox {
    ranges: Vec<(u32, u32)>,
}

impl Model for FlowBox {
    ghost use Rattle.std.specs.Prelude.{ℕ, ◌≤◌, List, All};

    ghost Value = { List (ℕ × ℕ) };

    ghost view = { λ b. b.ranges.items };

    ghost invariant = { λ b. All (λ r. r.0 ≤ r.1) b.ranges.items };
}

impl FlowBox {
    ghost use Rattle.std.specs.Prelude.{◌≡◌, ◌↔◌, ◌-◌, ◌≤◌, All, IsSome, IfSome, length, slice_set};
    ghost use Rattle.packing_laws.specs.Instances.{IsAmong};
    ghost use Rattle.flow_graph.specs.Chords.{range_at};

    /// A call that costs nothing: no range is empty.
    pub fn known(&self)
        ensures { All (λ r. r.0 ≤ r.1) self.now }
    {
        let _ranges = &self.ranges;
    }

    /// The range of the arc with this number.
    pub fn range(&self, a: u32) -> Option<(u32, u32)>
        ensures some { IsSome result ↔ IsAmong a (length self.now) }
        ensures value { IfSome result (λ r. r ≡ range_at self.now a) }
        ensures known { IfSome result (λ r. r.0 ≤ r.1) }
    {
        if a == 0 {
            return None;
        }
        self.ranges.get(a as usize - 1).copied()
    }

    /// Gives an arc another range, and the others keep theirs.
    pub fn set_range(&mut self, a: u32, lower: u32, upper: u32)
        requires arc { IsAmong a (length self.old) }
        requires range { lower ≤ upper }
        ensures { self.new ≡ slice_set self.old (a - 1) (lower, upper) }
    {
        self.ranges[a as usize - 1] = (lower, upper);
    }
}

/// The widest ranges: no arc carries more than all units, and no bin arc more than the limit of its type.
pub fn root_box(alloc: Global, instance: &Instance, graph: &FlowGraph) -> Result<FlowBox, Memory>
    requires { GraphOf instance.now graph.now }
    ensures { IfOk result (λ ranges. ranges ≡ root_ranges instance.now graph.now) }
{
    known::graph(instance, graph);
    let row = graph.row();
    let units = instance.units();
    let mut ranges = Vec::with_capacity(alloc, row.len())?;
    for kind in row {
        ranges.push((0, upper(instance, units, kind)))?;
    }
    Ok(FlowBox { ranges })
}

/// What an arc carries at most, where `units` is the sum of the demands.
pub fn upper(instance: &Instance, units: u32, kind: &ArcKind) -> u32
    requires units { units ≡ units_of instance.now }
    requires arc { NamesType (length instance.now.types) kind.now }
    ensures { result ≡ upper_of instance.now kind.now }
{
    match *kind {
        ArcKind::Bin { t } => match instance.bin_type(t) {
            Some(bin_type) => limited(units, bin_type.limit),
            None => units,
        },
        ArcKind::Loss { .. } | ArcKind::Piece { .. } => units,
    }
}

// The number, or the limit where there is one and it is smaller.
fn limited(n: u32, limit: Option<u32>) -> u32
    ensures { result ≡ limited n limit }
{
    match limit {
        None => n,
        Some(limit) => n.min(limit),
    }
}
