//! A state is finished once what lies behind it is: its label and the arcs of its steps are added to what was found.

ghost use Rattle.std.specs.Prelude.{◌≡◌, ℕ, ◌≤◌, ◌<◌, List, length, IfErr, OnOk};
ghost use Rattle.label_graph.specs.declared.parts.GraphArc.{GraphArc};
ghost use Rattle.label_graph.specs.declared.parts.Mark.TheVariants.{Loss};
ghost use Rattle.lift_build.specs.declared.found.Ahead.TheVariants.{Known};
ghost use Rattle.weight_vec.specs.Weight.{AtMost, lower, minus};
ghost use Rattle.lift_build.specs.inner.Numbers.{IsAdded};
ghost use Rattle.lift_build.specs.inner.Rooms.{IsLift};
ghost use Rattle.lift_build.specs.inner.Searches.{state_of, skip_arc, take_arc, IsSearch, IsTooMuch, GrowsInto, LiesAhead, KnownTake, IsBefore, AreBehind, IsGrownBy};

use crate::found::Search;
use crate::numbered::Numbered;
use crate::states::LiftedState;
use label_graph::{GraphArc, GraphFault, Mark, Piece};
use weight_vec::Weights;

/// Finishes a state: the numbers are those of the labels behind its skip and its take, if there is one.
pub fn finish<const N: usize>(
    pieces: &[Piece<N>],
    cap: &Weights<N>,
    room: u32,
    found: &mut Search<N>,
    state: LiftedState<N>,
    skip: u64,
    take: Option<u64>,
) -> Result<(), GraphFault>
    requires small { N ≤ 32 }
    requires search { IsSearch pieces.now cap.now room found.old }
    requires lift { IsLift pieces.now cap.now (state_of state) }
    requires within { state.piece ≤ length pieces.now }
    requires skip { LiesAhead pieces.now cap.now found.old (state_of state) Loss (Known skip) }
    requires take { KnownTake pieces.now cap.now found.old (state_of state) take }
    ensures search { OnOk result (IsSearch pieces.now cap.now room found.new) }
    ensures grows { OnOk result (GrowsInto found.old found.new) }
    ensures full { IfErr result (λ fault. fault ≡ GraphFault.TooManyArcs → IsTooMuch pieces.now cap.now room) }
{
    cap.known();
    let piece = &pieces[state.piece as usize - 1];
    let label = label_before(&piece.weight, found.labels.as_slice(), skip, take);
    let number = found.labels.insert(label)?;
    match add_arc(&mut found.arcs, room, skip_arc_of(number, skip)) {
        Ok(()) => {}
        Err(fault) => return Err(fault),
    }
    match add_arc(
        &mut found.arcs,
        room,
        take_arc_of(number, take, state.piece),
    ) {
        Ok(()) => {}
        Err(fault) => return Err(fault),
    }
    found.note(state, number)?;
    Ok(())
}

// The label before a skip and a take: what is left behind both.
fn label_before<const N: usize>(
    weight: &Weights<N>,
    labels: &[Weights<N>],
    skip: u64,
    take: Option<u64>,
) -> Weights<N>
    requires small { N ≤ 32 }
    requires behind { AreBehind weight.now labels.now skip take }
    ensures { IsBefore weight.now labels.now skip take result }
{
    match take {
        None => labels[skip as usize - 1],
        Some(take) => both_left(
            weight,
            &labels[skip as usize - 1],
            &labels[take as usize - 1],
        ),
    }
}

// What is left before a skip and a take, from what is left behind them.
fn both_left<const N: usize>(
    weight: &Weights<N>,
    skip: &Weights<N>,
    take: &Weights<N>,
) -> Weights<N>
    requires small { N ≤ 32 }
    requires fits { AtMost weight.now take.now }
    ensures { result ≡ lower skip.now (minus take.now weight.now) }
{
    match take.sub(weight) {
        Some(left) => skip.low(&left),
        None => unreachable!(),
    }
}

// The arc of a skip, unless it leads from a node to itself.
fn skip_arc_of(number: u64, skip: u64) -> Option<GraphArc>
    ensures { result ≡ skip_arc number skip }
{
    if number == skip {
        return None;
    }
    Some(GraphArc {
        tail: number,
        head: skip,
        mark: Mark::Loss,
    })
}

// The arc of a take, if there is one.
fn take_arc_of(number: u64, take: Option<u64>, piece: u32) -> Option<GraphArc>
    ensures { result ≡ take_arc number take piece }
{
    match take {
        Some(head) => Some(GraphArc {
            tail: number,
            head,
            mark: Mark::Piece(piece),
        }),
        None => None,
    }
}

// Adds an arc, if there is one, while there is room.
fn add_arc(
    arcs: &mut Numbered<GraphArc>,
    room: u32,
    arc: Option<GraphArc>,
) -> Result<(), GraphFault>
    requires { length arcs.old ≤ room }
    ensures grown { OnOk result (IsGrownBy arc arcs.old arcs.new) }
    ensures roomy { OnOk result (length arcs.new ≤ room) }
    ensures full { IfErr result (λ fault. fault ≡ GraphFault.TooManyArcs → (over : List GraphArc) × IsGrownBy arc arcs.old over × (room < length over)) }
{
    match arc {
        Some(arc) => add_within(arcs, room, arc),
        None => Ok(()),
    }
}

// Adds an arc while there is room.
fn add_within(arcs: &mut Numbered<GraphArc>, room: u32, arc: GraphArc) -> Result<(), GraphFault>
    ensures grown { OnOk result ((n : ℕ) × IsAdded arcs.old arcs.new arc n) }
    ensures roomy { OnOk result (length arcs.new ≤ room) }
    ensures full { IfErr result (λ fault. fault ≡ GraphFault.TooManyArcs → (over : List GraphArc) × ((n : ℕ) × IsAdded arcs.old over arc n) × (room < length over)) }
{
    arcs.insert(arc)?;
    if arcs.count() > room as usize {
        return Err(GraphFault::TooManyArcs);
    }
    Ok(())
}
