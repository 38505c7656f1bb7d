//! Which chord a box is split on.

ghost use Rattle.std.specs.Prelude.{◌≡◌, true, IfSome, length, List};
ghost use Rattle.flow_graph.specs.Arcs.{TypeValue};
ghost use Rattle.flow_graph.specs.Chords.{IsGenuine, is_chord};
ghost use Rattle.fixed_leaf.specs.Leaves.{TellsChords};

use cert_text::{ArcPart, Need};
use flow_graph::{ArcKind, FlowGraph};
use flow_model::FlowBox;
use search_tree::SplitAt;

/// A chord on which a box may be split.
#[derive(Clone, Copy, Debug, PartialEq, Eq)]
struct Candidate {
    split: SplitAt,
    is_bin: bool,
    /// How far what it carries is from a whole number, in parts of the flow's scale.
    distance: u64,
}

/// The chord of a flow in fractions on which a box is best split: a bin arc before all others, then the one that carries what is
/// farthest from a whole number, then the least. None where each chord carries a whole number or one outside its range.
pub fn fractional_chord(
    graph: &FlowGraph,
    chords: &[bool],
    ranges: &FlowBox,
    flow: &Need,
) -> Option<SplitAt> {
    let mut best: Option<Candidate> = None;
    for part in flow.parts.as_slice() {
        let next = candidate_of(graph, chords, ranges, *part, flow.scale);
        best = better_of(best, next);
    }
    Some(best?.split)
}

// The first of two candidates, unless the second is better.
fn better_of(first: Option<Candidate>, second: Option<Candidate>) -> Option<Candidate> {
    match (first, second) {
        (None, other) => other,
        (Some(first), None) => Some(first),
        (Some(first), Some(second)) => Some(better(first, second)),
    }
}

fn better(first: Candidate, second: Candidate) -> Candidate {
    let is_second = if first.is_bin == second.is_bin {
        second.distance > first.distance
    } else {
        second.is_bin
    };
    if is_second { second } else { first }
}

// What an arc carries, if it is a chord that carries no whole number, on both sides of which its range has numbers.
fn candidate_of(
    graph: &FlowGraph,
    chords: &[bool],
    ranges: &FlowBox,
    part: ArcPart,
    scale: u64,
) -> Option<Candidate> {
    let scale = scale.max(1);
    let rest = part.value % scale;
    let distance = rest.min(scale - rest);
    if distance <= scale >> 14 {
        return None;
    }
    let k = u32::try_from(part.value / scale).ok()?;
    let split = genuine_split(chords, ranges, SplitAt { arc: part.arc, k })?;
    let is_bin = matches!(graph.arc(part.arc), Some(ArcKind::Bin { .. }));
    Some(Candidate {
        split,
        is_bin,
        distance,
    })
}

/// The split, if it is one of a chord and leaves numbers of its range on both sides.
pub(crate) fn genuine_split(chords: &[bool], ranges: &FlowBox, split: SplitAt) -> Option<SplitAt>
    ensures chord { (g : List TypeValue) → TellsChords g chords.now → IfSome result (λ s. is_chord g s.arc ≡ true) }
    ensures genuine { IfSome result (λ s. IsGenuine ranges.now s.arc s.k) }
{
    let arc = split.arc;
    if arc == 0 || arc as usize > chords.len() || !chords[arc as usize - 1] {
        return None;
    }
    match ranges.range(arc) {
        Some((lower, upper)) if lower <= split.k && split.k < upper => Some(split),
        _ => None,
    }
}
