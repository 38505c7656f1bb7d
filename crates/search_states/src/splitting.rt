//! Where a box is split.

ghost use Rattle.std.specs.Prelude.{◌≡◌, ◌≤◌, true, IfSome, IsNone, length, List};
ghost use Rattle.flow_graph.specs.Arcs.{TypeValue, numbered};
ghost use Rattle.flow_graph.specs.Chords.{IsGenuine, is_chord, range_at};
ghost use Rattle.packing_laws.specs.Instances.{IsAmong};
ghost use Rattle.fixed_leaf.specs.Leaves.{ChordsAreFixed, TellsChords};

use arc_num::MAX_NUMBERED;
use flow_model::FlowBox;
use search_tree::SplitAt;

/// The first chord with more than one value, split in the middle of its range. None where each chord has one value.
pub fn open_chord(chords: &[bool], ranges: &FlowBox) -> Option<SplitAt>
    requires same { length chords.now ≡ length ranges.now }
    requires few { length chords.now ≤ MAX_NUMBERED }
    ensures chord { (g : List TypeValue) → TellsChords g chords.now → IfSome result (λ s. is_chord g s.arc ≡ true) }
    ensures genuine { IfSome result (λ s. IsGenuine ranges.now s.arc s.k) }
    ensures none { (g : List TypeValue) → TellsChords g chords.now → IsNone result → ChordsAreFixed g ranges.now }
{
    for index in 0..chords.len() {
        if chords[index] {
            if let Some(split) = middle(ranges, index as u32 + 1) {
                return Some(split);
            }
        }
    }
    None
}

// The split in the middle of the range of an arc. None where it has one value.
fn middle(ranges: &FlowBox, arc: u32) -> Option<SplitAt>
    requires { IsAmong arc (length ranges.now) }
    ensures some { IfSome result (λ s. (s.arc ≡ arc) × IsGenuine ranges.now s.arc s.k) }
    ensures none { IsNone result → (range_at ranges.now arc).0 ≡ (range_at ranges.now arc).1 }
{
    match ranges.range(arc) {
        Some((lower, upper)) if lower < upper => {
            let k = lower + (upper - lower - 1) / 2;
            Some(SplitAt { arc, k })
        }
        _ => None,
    }
}
