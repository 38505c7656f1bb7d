//! Why values of arcs are no flow in a box.

ghost use Rattle.std.specs.Prelude.{◌≡◌, ◌≤◌, length};
ghost use Rattle.packing_laws.specs.Instances.{IsAmong};
ghost use Rattle.flow_graph.specs.Chords.{range_at};
ghost use Rattle.fixed_leaf.specs.inner.Priced.{IsAbove, IsBelow, IsRangeFault};

use arc_num::MAX_NUMBERED;
use flow_model::FlowBox;

/// Why values of arcs are no flow in a box.
#[derive(Clone, Copy, Debug, PartialEq, Eq)]
pub(crate) enum Fault {
    /// The value of an arc is below its range.
    Below { arc: u32 },
    /// The value of an arc is above its range.
    Above { arc: u32 },
    /// An item is carried less often than is asked for.
    Unmet { item: u32 },
}

/// Why values are out of their ranges, if some are: the first that is below its own, and else the first above.
pub(crate) fn range_fault(ranges: &FlowBox, values: &[i64]) -> Option<Fault>
    requires size { length values.now ≡ length ranges.now }
    requires few { length values.now ≤ MAX_NUMBERED }
    ensures { IsRangeFault ranges.now values.now result }
{
    if let Some(arc) = first_below(ranges, values) {
        return Some(Fault::Below { arc });
    }
    match first_above(ranges, values) {
        Some(arc) => Some(Fault::Above { arc }),
        None => None,
    }
}

// The first arc whose value is below its range.
fn first_below(ranges: &FlowBox, values: &[i64]) -> Option<u32>
    requires size { length values.now ≡ length ranges.now }
    requires few { length values.now ≤ MAX_NUMBERED }
    ensures { IsBelow ranges.now values.now result }
{
    let mut arc = 0;
    for value in values {
        arc += 1;
        let (lower, _) = range(ranges, arc);
        if *value < i64::from(lower) {
            return Some(arc);
        }
    }
    None
}

// The first arc whose value is above its range.
fn first_above(ranges: &FlowBox, values: &[i64]) -> Option<u32>
    requires size { length values.now ≡ length ranges.now }
    requires few { length values.now ≤ MAX_NUMBERED }
    ensures { IsAbove ranges.now values.now result }
{
    let mut arc = 0;
    for value in values {
        arc += 1;
        let (_, upper) = range(ranges, arc);
        if *value > i64::from(upper) {
            return Some(arc);
        }
    }
    None
}

// The range of an arc.
fn range(ranges: &FlowBox, arc: u32) -> (u32, u32)
    requires { IsAmong arc (length ranges.now) }
    ensures { result ≡ range_at ranges.now arc }
{
    match ranges.range(arc) {
        Some(range) => range,
        None => unreachable!(),
    }
}
