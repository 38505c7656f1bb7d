ghost use Rattle.std.specs.Prelude.{◌≡◌, ◌<◌, ◌≤◌, length, All, AllPairs, Contains, IfOk, OnOk};
ghost use Rattle.level_graph.specs.Levels.{IsPieceList, IsLevelGraph, IsLevels, IsNode, StateBefore, target};
ghost use Rattle.level_graph.specs.inner.Layers.{AreStates, AppendsStep, take_mark, skip_mark, skipped};

use crate::layers::{layer_of, take, used_weights, weights_of};
use crate::states::State;
use arc_num::{MAX_ALL_FORMS, Memory};
use label_graph::{Graph, GraphArc, Mark, Piece, known_pieces, known_weights};
use std::alloc::Global;
use weight_vec::Weights;

/// The level graph of the pieces: its nodes are the states that takes and skips reach, each labelled with its weight
/// and the target with the capacity, and its arcs are the takes and skips. Without pieces the source is the target, and
/// is labelled with no weight.
pub fn levels<const N: usize>(
    alloc: Global,
    pieces: &[Piece<N>],
    cap: &Weights<N>,
) -> Result<Graph<N>, Memory>
    requires small { N ≤ 32 }
    requires pieces { IsPieceList pieces.now cap.now }
    ensures { IfOk result (λ graph. IsLevelGraph pieces.now cap.now graph) }
{
    let states = states_of(alloc, pieces, cap)?;
    let arcs = arcs_of(alloc, pieces, cap, states.as_slice())?;
    let labels = used_weights(alloc, states.as_slice())?;
    let pieces = Vec::from_slice(alloc, pieces)?;
    known_weights(labels.as_slice());
    known_pieces(pieces.as_slice());
    Ok(Graph::new(pieces, labels, arcs))
}

// All states, in order, the target last.
fn states_of<const N: usize>(
    alloc: Global,
    pieces: &[Piece<N>],
    cap: &Weights<N>,
) -> Result<Vec<State<N>>, Memory>
    requires small { N ≤ 32 }
    requires pieces { IsPieceList pieces.now cap.now }
    ensures { IfOk result (λ states. AreStates pieces.now cap.now states.items) }
{
    let mut states = Vec::new(alloc);
    let mut entering = vec![in alloc; Weights::zero()]?;
    let mut number: u32 = 0;
    for piece in pieces {
        number += 1;
        let layer = layer_of(alloc, number, piece, cap, entering.as_slice())?;
        states.extend_from_slice(layer.as_slice())?;
        entering = weights_of(alloc, layer.as_slice())?;
    }
    states.push(target_of(pieces, cap))?;
    Ok(states)
}

// The state past the last piece.
fn target_of<const N: usize>(pieces: &[Piece<N>], cap: &Weights<N>) -> State<N>
    requires small { N ≤ 32 }
    requires few { length pieces.now ≤ MAX_ALL_FORMS }
    ensures { result ≡ target pieces.now cap.now }
{
    if pieces.is_empty() {
        return at_start(1, Weights::zero());
    }
    at_start(pieces.len() as u32 + 1, *cap)
}

// At this piece, with no copy of it taken.
fn at_start<const N: usize>(piece: u32, used: Weights<N>) -> State<N>
    requires small { N ≤ 32 }
    ensures { result ≡ record { piece = piece; copies = 0; used = used.entry } }
{
    State {
        piece,
        copies: 0,
        used,
    }
}

// The arcs between the states, in order.
fn arcs_of<const N: usize>(
    alloc: Global,
    pieces: &[Piece<N>],
    cap: &Weights<N>,
    states: &[State<N>],
) -> Result<Vec<GraphArc>, Memory>
    requires small { N ≤ 32 }
    requires few { length pieces.now ≤ MAX_ALL_FORMS }
    requires states { AreStates pieces.now cap.now states.now }
    ensures { IfOk result (λ arcs. IsLevels pieces.now cap.now states.now arcs.items) }
{
    let mut arcs = Vec::with_capacity(alloc, states.len())?;
    for index in 0..states.len() {
        push_take(&mut arcs, pieces, cap, states, index)?;
        push_skip(&mut arcs, pieces, cap, states, index)?;
    }
    Ok(arcs)
}

// The node at which the state stands, from 1 on.
fn node_of<const N: usize>(states: &[State<N>], wanted: &State<N>) -> u64
    requires small { N ≤ 32 }
    requires ordered { AllPairs StateBefore states.now }
    requires there { Contains states.now wanted.now }
    ensures { IsNode states.now result wanted.now }
{
    match states.binary_search(wanted) {
        Ok(index) => index as u64 + 1,
        Err(_) => unreachable!(),
    }
}

// Appends the arc of a take from the state at this index, if there is one.
fn push_take<const N: usize>(
    arcs: &mut Vec<GraphArc>,
    pieces: &[Piece<N>],
    cap: &Weights<N>,
    states: &[State<N>],
    index: usize,
) -> Result<(), Memory>
    requires small { N ≤ 32 }
    requires states { AreStates pieces.now cap.now states.now }
    requires index { index < length states.now }
    ensures { OnOk result (AppendsStep pieces.now cap.now states.now index take_mark arcs.old.items arcs.new.items) }
{
    let state = &states[index];
    let number = state.piece as usize;
    if number > pieces.len() {
        return Ok(());
    }
    if let Some(next) = take(state, &pieces[number - 1], cap) {
        arcs.push(GraphArc {
            tail: index as u64 + 1,
            head: node_of(states, &next),
            mark: Mark::Piece(state.piece),
        })?;
    }
    Ok(())
}

// Appends the arc of a skip from the state at this index, if there is one.
fn push_skip<const N: usize>(
    arcs: &mut Vec<GraphArc>,
    pieces: &[Piece<N>],
    cap: &Weights<N>,
    states: &[State<N>],
    index: usize,
) -> Result<(), Memory>
    requires small { N ≤ 32 }
    requires few { length pieces.now ≤ MAX_ALL_FORMS }
    requires states { AreStates pieces.now cap.now states.now }
    requires index { index < length states.now }
    ensures { OnOk result (AppendsStep pieces.now cap.now states.now index skip_mark arcs.old.items arcs.new.items) }
{
    if let Some(next) = skip(&states[index], pieces, cap) {
        arcs.push(GraphArc {
            tail: index as u64 + 1,
            head: node_of(states, &next),
            mark: Mark::Loss,
        })?;
    }
    Ok(())
}

// The state at the next piece or past the last one, if there is one.
fn skip<const N: usize>(state: &State<N>, pieces: &[Piece<N>], cap: &Weights<N>) -> Option<State<N>>
    requires small { N ≤ 32 }
    requires few { length pieces.now ≤ MAX_ALL_FORMS }
    ensures { result ≡ skipped pieces.now cap.now state.now }
{
    let number = state.piece as usize;
    if number < pieces.len() {
        return Some(at_start(state.piece + 1, state.used));
    }
    if number == pieces.len() {
        return Some(target_of(pieces, cap));
    }
    None
}
