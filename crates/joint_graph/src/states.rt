//! The states of the joint levels, and the steps between them.

ghost use Rattle.std.specs.Prelude.{◌≡◌, ◌↔◌, ◌≤◌, ◌<◌, suc, true, All, length, IfOk, OnOk, IsTrue, slice_index_or};
ghost use Rattle.label_graph.specs.declared.parts.Mark.TheVariants.{Loss, Piece as Carries};
ghost use Rattle.arc_num.specs.declared.TheConstants.{MAX_ALL_FORMS};
ghost use Rattle.weight_vec.specs.Weight.{IsInRange};
ghost use Rattle.joint_graph.specs.Joints.{FitsSome};
ghost use Rattle.joint_graph.specs.JointLevels.{source};
ghost use Rattle.joint_graph.specs.inner.Pushes.{Follows, Adds, IsFound, AreStates};

use arc_num::Memory;
use indexmap::IndexSet;
use label_graph::{Piece, sort_distinct};
use std::alloc::Global;
use std::hash::Hash;
use weight_vec::Weights;

/// At this piece, with so many copies of it taken and this weight used.
#[derive(Clone, Copy, PartialEq, Eq, PartialOrd, Ord, Hash)]
pub struct State<const N: usize> {
    pub piece: u32,
    pub copies: u32,
    pub used: Weights<N>,
}

// Does the weight fit some type?
fn fits_some<const N: usize>(caps: &[Weights<N>], weight: &Weights<N>) -> bool
    requires small { N ≤ 32 }
    ensures { IsTrue result ↔ FitsSome caps.now weight.now }
{
    for t in 0..caps.len() {
        if weight.fits(&caps[t]) {
            return true;
        }
    }
    false
}

// The state after one more copy, if there is one that fits some type.
pub fn take<const N: usize>(
    pieces: &[Piece<N>],
    caps: &[Weights<N>],
    state: &State<N>,
) -> Option<State<N>>
    requires small { N ≤ 32 }
    requires ranged { All (λ l. IsInRange l) caps.now }
    requires low { 1 ≤ state.now.piece }
    ensures { Follows pieces.now caps.now state.now (Carries state.now.piece) result }
{
    let number = state.piece as usize;
    if number > pieces.len() {
        return None;
    }
    let piece = &pieces[number - 1];
    if state.copies >= piece.copies {
        return None;
    }
    let Some(used) = state.used.add(&piece.weight) else {
        return None;
    };
    if !fits_some(caps, &used) {
        return None;
    }
    Some(State {
        piece: state.piece,
        copies: state.copies + 1,
        used,
    })
}

// The state at the next piece, if there is one.
pub fn skip<const N: usize>(
    pieces: &[Piece<N>],
    _caps: &[Weights<N>],
    state: &State<N>,
) -> Option<State<N>>
    requires small { N ≤ 32 }
    requires few { length pieces.now ≤ MAX_ALL_FORMS }
    ensures { Follows pieces.now _caps.now state.now Loss result }
{
    if state.piece as usize >= pieces.len() {
        return None;
    }
    Some(State {
        piece: state.piece + 1,
        copies: 0,
        used: state.used,
    })
}

// All states, in order.
pub fn states_of<const N: usize>(
    alloc: Global,
    pieces: &[Piece<N>],
    caps: &[Weights<N>],
) -> Result<Vec<State<N>>, Memory>
    requires small { N ≤ 32 }
    requires few { length pieces.now ≤ MAX_ALL_FORMS }
    requires ranged { All (λ l. IsInRange l) caps.now }
    ensures { IfOk result (λ states. AreStates pieces.now caps.now states.items) }
{
    let found = found_states(alloc, pieces, caps)?;
    let mut states = Vec::from_slice(alloc, found.as_slice())?;
    sort_distinct(&mut states);
    Ok(states)
}

// All states, each once, in the order in which they are found.
fn found_states<const N: usize>(
    alloc: Global,
    pieces: &[Piece<N>],
    caps: &[Weights<N>],
) -> Result<IndexSet<State<N>>, Memory>
    requires small { N ≤ 32 }
    requires few { length pieces.now ≤ MAX_ALL_FORMS }
    requires ranged { All (λ l. IsInRange l) caps.now }
    ensures { IfOk result (λ found. IsFound pieces.now caps.now found.keys (length found.keys)) }
{
    let mut found = IndexSet::new(alloc);
    add(&mut found, Some(first_state()))?;
    for index in 0..usize::MAX {
        if index >= found.len() {
            return Ok(found);
        }
        look_at(pieces, caps, &mut found, index)?;
    }
    // There is no memory for so many states.
    Err(Memory)
}

// At the first piece, with nothing taken.
fn first_state<const N: usize>() -> State<N>
    requires { N ≤ 32 }
    ensures { result ≡ source N }
{
    State {
        piece: 1,
        copies: 0,
        used: Weights::zero(),
    }
}

// Adds what follows the state at this index.
fn look_at<const N: usize>(
    pieces: &[Piece<N>],
    caps: &[Weights<N>],
    found: &mut IndexSet<State<N>>,
    index: usize,
) -> Result<(), Memory>
    requires small { N ≤ 32 }
    requires few { length pieces.now ≤ MAX_ALL_FORMS }
    requires ranged { All (λ l. IsInRange l) caps.now }
    requires index { index < length found.old.keys }
    requires found { IsFound pieces.now caps.now found.old.keys index }
    ensures { OnOk result (IsFound pieces.now caps.now found.new.keys (suc index)) }
{
    let state = state_at(found, index);
    let taken = take(pieces, caps, &state);
    add(found, taken)?;
    let skipped = skip(pieces, caps, &state);
    add(found, skipped)?;
    Ok(())
}

// The state at this index.
fn state_at<const N: usize>(found: &IndexSet<State<N>>, index: usize) -> State<N>
    requires small { N ≤ 32 }
    requires index { index < length found.now.keys }
    ensures { result ≡ slice_index_or found.now.keys index result }
{
    found.as_slice()[index]
}

// Adds the value, if there is one and it is not yet there.
fn add<T: Eq + Hash + Drop>(set: &mut IndexSet<T>, value: Option<T>) -> Result<(), Memory>
    requires { (x y : T) → T.eq x y ≡ true → x ≡ y }
    ensures { OnOk result (Adds set.old.keys set.new.keys value) }
{
    if let Some(value) = value {
        set.insert(value)?;
    }
    Ok(())
}
