//! What lies behind the steps of a state.

ghost use Rattle.std.specs.Prelude.{◌≡◌, ◌↔◌, ◌⊎◌, suc, ◌+◌, ◌-◌, ◌*◌, ◌^◌, ◌≤◌, ◌<◌, length, IsTrue};
ghost use Rattle.level_graph.specs.Levels.{IsPieceList};
ghost use Rattle.label_graph.specs.declared.parts.Mark.TheVariants.{Loss};
ghost use Rattle.weight_vec.specs.Weight.{AtMost, plus};
ghost use Rattle.lift_build.specs.inner.Rooms.{IsFull, IsLift, IsUnder};
ghost use Rattle.lift_build.specs.inner.Searches.{state_of, IsSearch, IsTake, IsNextTake, LiesFrom, LiesAhead, MayTake};
ghost use Rattle.lift_build.specs.inner.Tables.{AreRows};

use crate::found::{Ahead, Search};
use crate::states::LiftedState;
use crate::tables::lifted;
use arc_num::Listed;
use label_graph::Piece;
use weight_vec::Weights;

/// What lies behind the skip of a state. The target's label has number 1.
pub fn skip_of<const N: usize>(
    pieces: &[Piece<N>],
    cap: &Weights<N>,
    rows: &[Listed<Listed<u32>>],
    room: u32,
    found: &Search<N>,
    state: &LiftedState<N>,
) -> Ahead<N>
    requires small { N ≤ 32 }
    requires pieces { IsPieceList pieces.now cap.now }
    requires rows { AreRows pieces.now cap.now (length pieces.now + 1) rows.now }
    requires search { IsSearch pieces.now cap.now room found.now }
    requires lift { IsLift pieces.now cap.now (state_of state.now) }
    requires within { state.now.piece ≤ length pieces.now }
    ensures { LiesAhead pieces.now cap.now found.now (state_of state.now) Loss result }
{
    let _room = room;
    cap.known();
    if state.piece as usize == pieces.len() {
        return Ahead::Known(1);
    }
    let next = LiftedState {
        piece: state.piece + 1,
        copies: 0,
        used: state.used,
    };
    ahead_from(pieces, cap, rows, room, found, next)
}

/// What lies behind the take of one more copy, if one fits.
pub fn take_of<const N: usize>(
    pieces: &[Piece<N>],
    cap: &Weights<N>,
    rows: &[Listed<Listed<u32>>],
    room: u32,
    found: &Search<N>,
    state: &LiftedState<N>,
) -> Option<Ahead<N>>
    requires small { N ≤ 32 }
    requires pieces { IsPieceList pieces.now cap.now }
    requires rows { AreRows pieces.now cap.now (length pieces.now + 1) rows.now }
    requires search { IsSearch pieces.now cap.now room found.now }
    requires lift { IsLift pieces.now cap.now (state_of state.now) }
    requires within { state.now.piece ≤ length pieces.now }
    ensures { MayTake pieces.now cap.now found.now (state_of state.now) result }
{
    let _room = room;
    cap.known();
    let piece = &pieces[state.piece as usize - 1];
    match take(piece, cap, state) {
        Some(next) => Some(ahead_from(pieces, cap, rows, room, found, next)),
        None => None,
    }
}

// What lies from a state on. States without a take are passed by: nothing is known of them but what they pass into.
fn ahead_from<const N: usize>(
    pieces: &[Piece<N>],
    cap: &Weights<N>,
    rows: &[Listed<Listed<u32>>],
    room: u32,
    found: &Search<N>,
    state: LiftedState<N>,
) -> Ahead<N>
    requires small { N ≤ 32 }
    requires pieces { IsPieceList pieces.now cap.now }
    requires rows { AreRows pieces.now cap.now (length pieces.now + 1) rows.now }
    requires search { IsSearch pieces.now cap.now room found.now }
    requires low { 1 ≤ state.piece }
    requires high { state.piece ≤ length pieces.now }
    requires fits { AtMost state.used cap.now }
    ensures { LiesFrom pieces.now cap.now found.now (state_of state.entry) result }
{
    let _room = room;
    cap.known();
    match next_take(pieces, cap, state) {
        Some(next) => found.ahead_of(lift_of(pieces, cap, rows, next)),
        None => Ahead::Known(1),
    }
}

// The state, or the first one behind it where one more copy fits; none where no more copy fits on the way to the target.
fn next_take<const N: usize>(
    pieces: &[Piece<N>],
    cap: &Weights<N>,
    state: LiftedState<N>,
) -> Option<LiftedState<N>>
    requires small { N ≤ 32 }
    requires few { length pieces.now + 1 ≤ 2 ^ 32 - 1 }
    requires low { 1 ≤ state.piece }
    requires high { state.piece ≤ length pieces.now }
    ensures { IsNextTake pieces.now cap.now state.entry result }
{
    cap.known();
    let mut here = state;
    for index in state.piece as usize - 1..pieces.len() {
        if has_take(&pieces[index], cap, &here) {
            return Some(here);
        }
        here = LiftedState {
            piece: index as u32 + 2,
            copies: 0,
            used: state.used,
        };
    }
    None
}

// The state with one more copy of the piece, if one fits.
fn take<const N: usize>(
    piece: &Piece<N>,
    cap: &Weights<N>,
    state: &LiftedState<N>,
) -> Option<LiftedState<N>>
    requires small { N ≤ 32 }
    ensures { IsTake piece.now cap.now state.now result }
{
    cap.known();
    if !has_take(piece, cap, state) {
        return None;
    }
    Some(LiftedState {
        piece: state.piece,
        copies: state.copies + 1,
        used: state.used.plus(&piece.weight),
    })
}

// Is one more copy of the piece left, and does it fit?
fn has_take<const N: usize>(piece: &Piece<N>, cap: &Weights<N>, state: &LiftedState<N>) -> bool
    requires small { N ≤ 32 }
    ensures left { IsTrue result → state.now.copies < piece.now.copies }
    ensures counted { IsTrue result → state.now.copies + 1 < 2 ^ 32 }
    ensures fits { IsTrue result → AtMost (plus state.now.used piece.now.weight) cap.now }
    ensures never { state.now.copies < piece.now.copies → AtMost (plus state.now.used piece.now.weight) cap.now → IsTrue result }
{
    if state.copies >= piece.copies {
        return false;
    }
    fits_beside(&piece.weight, cap, &state.used)
}

// Does a weight fit beside another? Most that do not fit fail in the first place.
fn fits_beside<const N: usize>(weight: &Weights<N>, cap: &Weights<N>, used: &Weights<N>) -> bool
    requires small { N ≤ 32 }
    ensures { IsTrue result ↔ AtMost (plus used.now weight.now) cap.now }
{
    weight.known();
    used.known();
    for d in 0..N {
        if used.get(d) as u64 + weight.get(d) as u64 > cap.get(d) as u64 {
            return false;
        }
    }
    true
}

/// The state, lifted by the tables of the pieces that are to come. Copies for which there is no room then are taken too.
pub fn lift_of<const N: usize>(
    pieces: &[Piece<N>],
    cap: &Weights<N>,
    rows: &[Listed<Listed<u32>>],
    state: LiftedState<N>,
) -> LiftedState<N>
    requires small { N ≤ 32 }
    requires few { length pieces.now + 1 ≤ 2 ^ 32 }
    requires rows { AreRows pieces.now cap.now (length pieces.now + 1) rows.now }
    requires low { 1 ≤ state.piece }
    requires high { state.piece ≤ length pieces.now }
    requires fits { AtMost state.used cap.now }
    ensures under { IsUnder pieces.now cap.now (state_of state.entry) (state_of result) }
    ensures piece { result.piece ≡ state.entry.piece }
{
    cap.known();
    state.used.known();
    let row = &rows[pieces.len() + 1 - state.piece as usize];
    let used = lifted(row.as_slice(), cap, &state.used);
    let piece = &pieces[state.piece as usize - 1];
    LiftedState {
        piece: state.piece,
        copies: copies_at(piece, cap, &used, state.copies),
        used,
    }
}

// So many copies, or more: the greatest number that leaves as many as there is room for.
fn copies_at<const N: usize>(
    piece: &Piece<N>,
    cap: &Weights<N>,
    used: &Weights<N>,
    copies: u32,
) -> u32
    requires small { N ≤ 32 }
    requires fits { AtMost used.now cap.now }
    ensures more { copies ≤ result }
    ensures enough { (result ≡ copies) ⊎ IsFull cap.now piece.now.weight (piece.now.copies - result) used.now }
{
    let mut needed = piece.copies;
    for d in 0..N {
        needed = fitting(needed, cap.get(d) - used.get(d), piece.weight.get(d));
    }
    copies.max(piece.copies - needed)
}

// As many of the copies of a weight as a room holds.
fn fitting(copies: u32, room: u32, weight: u32) -> u32
    ensures fewer { result ≤ copies }
    ensures full { (result ≡ copies) ⊎ (room < suc result * weight) }
{
    if weight == 0 {
        return copies;
    }
    copies.min(room / weight)
}
