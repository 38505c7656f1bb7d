//! Whether values lie in a box.

ghost use Rattle.std.specs.Prelude.{◌≡◌, ◌↔◌, ◌≤◌, IsTrue, length};
ghost use Rattle.packing_laws.specs.Instances.{IsAmong};
ghost use Rattle.flow_graph.specs.Chords.{range_at};
ghost use Rattle.needs_check.specs.inner.Laid.{IsInScaled, LieInScaled};

use arc_num::MAX_NUMBERED;
use flow_model::FlowBox;

/// Whether each value, in parts of one in the scale, is in the range of its arc.
pub(crate) fn lie_in(ranges: &FlowBox, scale: u64, values: &[u64]) -> bool
    requires size { length values.now ≡ length ranges.now }
    requires few { length values.now ≤ MAX_NUMBERED }
    ensures { IsTrue result ↔ LieInScaled scale ranges.now values.now }
{
    for index in 0..values.len() {
        let range = range_of(ranges, index as u32 + 1);
        if !is_in(range, scale, values[index]) {
            return false;
        }
    }
    true
}

// The range of an arc.
fn range_of(ranges: &FlowBox, a: u32) -> (u32, u32)
    requires { IsAmong a (length ranges.now) }
    ensures { result ≡ range_at ranges.now a }
{
    match ranges.range(a) {
        Some(range) => range,
        None => unreachable!(),
    }
}

// Whether a value, in parts of one in the scale, is in a range.
fn is_in(range: (u32, u32), scale: u64, value: u64) -> bool
    ensures { IsTrue result ↔ IsInScaled scale range value }
{
    let scale = u128::from(scale);
    let value = u128::from(value);
    let low = scale * u128::from(range.0);
    let high = scale * u128::from(range.1);
    low <= value && value <= high
}
