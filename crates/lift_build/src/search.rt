//! A search through the states of a list of pieces: each is looked at once, what lies behind it first.

ghost use Rattle.std.specs.Prelude.{◌≡◌, ◌+◌, ◌≤◌, [], ◌∷◌, ◌++◌, length, All, IfOk, IfErr, OnOk};
ghost use Rattle.label_graph.specs.declared.parts.Mark.TheVariants.{Loss};
ghost use Rattle.level_graph.specs.Levels.{IsPieceList, source};
ghost use Rattle.lift_build.specs.declared.found.Ahead.TheVariants.{Known};
ghost use Rattle.lift_build.specs.inner.Rooms.{IsLift, IsUnder};
ghost use Rattle.lift_build.specs.inner.Searches.{state_of, IsSearch, IsWaiting, IsWhole, IsTooMuch, GrowsInto, LiesAhead, KnownTake};
ghost use Rattle.lift_build.specs.inner.Tables.{AreRows};

use crate::finish::finish;
use crate::found::{Ahead, Frame, Search};
use crate::states::LiftedState;
use crate::steps::{lift_of, skip_of, take_of};
use crate::tables::rows_of;
use arc_num::{Listed, Memory};
use label_graph::{GraphFault, Piece};
use std::alloc::Global;
use weight_vec::Weights;

/// All labels and arcs of the main graph, unless there are more arcs than there is room for.
pub fn search<const N: usize>(
    alloc: Global,
    pieces: &[Piece<N>],
    cap: &Weights<N>,
    room: u32,
) -> Result<Search<N>, GraphFault>
    requires small { N ≤ 32 }
    requires pieces { IsPieceList pieces.now cap.now }
    ensures whole { IfOk result (λ found. IsWhole pieces.now cap.now found.labels found.arcs) }
    ensures roomy { IfOk result (λ found. length found.arcs ≤ room) }
    ensures full { IfErr result (λ fault. fault ≡ GraphFault.TooManyArcs → IsTooMuch pieces.now cap.now room) }
{
    cap.known();
    let mut found = Search::start(alloc, pieces, cap, room)?;
    if pieces.is_empty() {
        return Ok(found);
    }
    let rows = rows_of(alloc, pieces, cap)?;
    match explore(alloc, pieces, cap, rows.as_slice(), room, &mut found) {
        Ok(()) => Ok(found),
        Err(fault) => Err(fault),
    }
}

// Looks at states until the first one is finished. Those that wait for others are on a stack of the call's own.
fn explore<const N: usize>(
    alloc: Global,
    pieces: &[Piece<N>],
    cap: &Weights<N>,
    rows: &[Listed<Listed<u32>>],
    room: u32,
    found: &mut Search<N>,
) -> Result<(), GraphFault>
    requires small { N ≤ 32 }
    requires pieces { IsPieceList pieces.now cap.now }
    requires some { 1 ≤ length pieces.now }
    requires rows { AreRows pieces.now cap.now (length pieces.now + 1) rows.now }
    requires search { IsSearch pieces.now cap.now room found.old }
    ensures whole { OnOk result (IsWhole pieces.now cap.now found.new.labels found.new.arcs) }
    ensures roomy { OnOk result (length found.new.arcs ≤ room) }
    ensures full { IfErr result (λ fault. fault ≡ GraphFault.TooManyArcs → IsTooMuch pieces.now cap.now room) }
{
    cap.known();
    let first = first_state(pieces, cap, rows);
    let mut stack: Vec<Frame<N>> = Vec::new(alloc);
    for _ in 0..u64::MAX {
        match stack.pop() {
            Some(frame) => match look_at(pieces, cap, rows, room, found, &mut stack, frame) {
                Ok(()) => {}
                Err(fault) => return Err(fault),
            },
            None => match found.number_of(&first) {
                Some(_) => return Ok(()),
                None => put(&mut stack, first, None)?,
            },
        }
    }
    // There is no memory for so many states.
    Err(GraphFault::Memory)
}

// The first state, lifted.
fn first_state<const N: usize>(
    pieces: &[Piece<N>],
    cap: &Weights<N>,
    rows: &[Listed<Listed<u32>>],
) -> LiftedState<N>
    requires small { N ≤ 32 }
    requires pieces { IsPieceList pieces.now cap.now }
    requires some { 1 ≤ length pieces.now }
    requires rows { AreRows pieces.now cap.now (length pieces.now + 1) rows.now }
    ensures under { IsUnder pieces.now cap.now (source N) (state_of result) }
    ensures piece { result.piece ≡ 1 }
{
    let state = LiftedState {
        piece: 1,
        copies: 0,
        used: Weights::zero(),
    };
    lift_of(pieces, cap, rows, state)
}

// One more state on the stack.
fn put<const N: usize>(
    stack: &mut Vec<Frame<N>>,
    state: LiftedState<N>,
    skip: Option<u64>,
) -> Result<(), Memory>
    requires small { N ≤ 32 }
    ensures { OnOk result (stack.new.items ≡ stack.old.items ++ (record { state = state.entry; skip = skip }) ∷ []) }
{
    stack.push(Frame { state, skip })?;
    Ok(())
}

// Finishes the state if all that lies behind it is finished. Else it waits, and the state behind it comes next.
fn look_at<const N: usize>(
    pieces: &[Piece<N>],
    cap: &Weights<N>,
    rows: &[Listed<Listed<u32>>],
    room: u32,
    found: &mut Search<N>,
    stack: &mut Vec<Frame<N>>,
    frame: Frame<N>,
) -> Result<(), GraphFault>
    requires small { N ≤ 32 }
    requires pieces { IsPieceList pieces.now cap.now }
    requires rows { AreRows pieces.now cap.now (length pieces.now + 1) rows.now }
    requires search { IsSearch pieces.now cap.now room found.old }
    requires stack { All (IsWaiting pieces.now cap.now found.old) stack.old.items }
    requires frame { IsWaiting pieces.now cap.now found.old frame }
    ensures search { OnOk result (IsSearch pieces.now cap.now room found.new) }
    ensures stack { OnOk result (All (IsWaiting pieces.now cap.now found.new) stack.new.items) }
    ensures full { IfErr result (λ fault. fault ≡ GraphFault.TooManyArcs → IsTooMuch pieces.now cap.now room) }
{
    cap.known();
    match skip_ahead(pieces, cap, rows, room, found, &frame) {
        Ahead::Lifted(next) => wait_for(pieces, cap, found, stack, frame, next)?,
        Ahead::Known(skip) => {
            return look_at_take(pieces, cap, rows, room, found, stack, frame.state, skip);
        }
    }
    Ok(())
}

// What lies behind the skip of a state that waits.
fn skip_ahead<const N: usize>(
    pieces: &[Piece<N>],
    cap: &Weights<N>,
    rows: &[Listed<Listed<u32>>],
    room: u32,
    found: &Search<N>,
    frame: &Frame<N>,
) -> Ahead<N>
    requires small { N ≤ 32 }
    requires pieces { IsPieceList pieces.now cap.now }
    requires rows { AreRows pieces.now cap.now (length pieces.now + 1) rows.now }
    requires search { IsSearch pieces.now cap.now room found.now }
    requires frame { IsWaiting pieces.now cap.now found.now frame.now }
    ensures { LiesAhead pieces.now cap.now found.now (state_of frame.now.state) Loss result }
{
    match frame.skip {
        Some(number) => Ahead::Known(number),
        None => skip_of(pieces, cap, rows, room, found, &frame.state),
    }
}

// Finishes the state if what lies behind its take is finished too, or if it has none.
fn look_at_take<const N: usize>(
    pieces: &[Piece<N>],
    cap: &Weights<N>,
    rows: &[Listed<Listed<u32>>],
    room: u32,
    found: &mut Search<N>,
    stack: &mut Vec<Frame<N>>,
    state: LiftedState<N>,
    skip: u64,
) -> Result<(), GraphFault>
    requires small { N ≤ 32 }
    requires pieces { IsPieceList pieces.now cap.now }
    requires rows { AreRows pieces.now cap.now (length pieces.now + 1) rows.now }
    requires search { IsSearch pieces.now cap.now room found.old }
    requires stack { All (IsWaiting pieces.now cap.now found.old) stack.old.items }
    requires lift { IsLift pieces.now cap.now (state_of state) }
    requires within { state.piece ≤ length pieces.now }
    requires skip { LiesAhead pieces.now cap.now found.old (state_of state) Loss (Known skip) }
    ensures search { OnOk result (IsSearch pieces.now cap.now room found.new) }
    ensures stack { OnOk result (All (IsWaiting pieces.now cap.now found.new) stack.new.items) }
    ensures full { IfErr result (λ fault. fault ≡ GraphFault.TooManyArcs → IsTooMuch pieces.now cap.now room) }
{
    cap.known();
    match take_of(pieces, cap, rows, room, found, &state) {
        Some(Ahead::Lifted(next)) => {
            let frame = Frame {
                state,
                skip: Some(skip),
            };
            wait_for(pieces, cap, found, stack, frame, next)?;
            Ok(())
        }
        Some(Ahead::Known(take)) => finish(pieces, cap, room, found, state, skip, Some(take)),
        None => finish(pieces, cap, room, found, state, skip, None),
    }
}

// Puts a state that waits on the stack, and the state that it waits for on top of it.
fn wait_for<const N: usize>(
    _pieces: &[Piece<N>],
    _cap: &Weights<N>,
    _found: &Search<N>,
    stack: &mut Vec<Frame<N>>,
    frame: Frame<N>,
    next: LiftedState<N>,
) -> Result<(), Memory>
    requires small { N ≤ 32 }
    requires stack { All (IsWaiting _pieces.now _cap.now _found.now) stack.old.items }
    requires frame { IsWaiting _pieces.now _cap.now _found.now frame }
    requires lift { IsLift _pieces.now _cap.now (state_of next) }
    requires within { next.piece ≤ length _pieces.now }
    ensures { OnOk result (All (IsWaiting _pieces.now _cap.now _found.now) stack.new.items) }
{
    put(stack, frame.state, frame.skip)?;
    put(stack, next, None)?;
    Ok(())
}
