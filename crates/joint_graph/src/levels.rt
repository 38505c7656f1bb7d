//! The joint level graph.

ghost use Rattle.std.specs.Prelude.{◌≡◌, ◌≤◌, ◌<◌, ◌^◌, ℕ, All, length, Contains, IfOk, OnOk, Some};
ghost use Rattle.std.specs.List.Sorted.{IsStrictlySortedBy};
ghost use Rattle.arc_num.specs.declared.TheConstants.{MAX_ALL_FORMS, MAX_TYPES};
ghost use Rattle.weight_vec.specs.Weight.{IsInRange};
ghost use Rattle.joint_graph.specs.JointLevels.{ArePieces, AreJointLevels, state_cmp};
ghost use Rattle.joint_graph.specs.declared.states.State.{State};
ghost use Rattle.joint_graph.specs.inner.Pushes.{AreStates, Appends, IsArcTo, IsEndTo, IsArcFrom, AreArcsBefore};

use crate::graph::Joint;
use crate::ranks::number_in;
use crate::states::{State, skip, states_of, take};
use arc_num::Memory;
use label_graph::{
    GraphArc, Mark, Piece, arcs_are_in_order, known_pieces, known_weights, sort_distinct,
};
use std::alloc::Global;
use weight_vec::Weights;

/// The joint level graph of the pieces and the capacities of all types.
pub fn joint_levels<const N: usize>(
    alloc: Global,
    pieces: &[Piece<N>],
    caps: &[Weights<N>],
) -> Result<Joint<N>, Memory>
    requires small { N ≤ 32 }
    requires pieces { ArePieces pieces.now }
    requires some { 1 ≤ length caps.now }
    requires types { length caps.now ≤ MAX_TYPES }
    ensures { IfOk result (λ graph. AreJointLevels pieces.now caps.now graph) }
{
    known_pieces(pieces);
    known_weights(caps);
    let states = states_of(alloc, pieces, caps)?;
    let mut arcs = arcs_of(alloc, pieces, caps, states.as_slice())?;
    sort_distinct(&mut arcs);
    arcs_are_in_order();
    let pieces = Vec::from_slice(alloc, pieces)?;
    let caps = Vec::from_slice(alloc, caps)?;
    Ok(Joint::new(pieces, caps, states.as_slice().len() as u64, arcs))
}

// The arcs from all states.
fn arcs_of<const N: usize>(
    alloc: Global,
    pieces: &[Piece<N>],
    caps: &[Weights<N>],
    states: &[State<N>],
) -> Result<Vec<GraphArc>, Memory>
    requires small { N ≤ 32 }
    requires few { length pieces.now ≤ MAX_ALL_FORMS }
    requires ranged { All (λ l. IsInRange l) caps.now }
    requires types { length caps.now ≤ MAX_TYPES }
    requires states { AreStates pieces.now caps.now states.now }
    ensures { IfOk result (λ arcs. AreArcsBefore pieces.now caps.now states.now (length states.now) arcs.items) }
{
    let mut arcs = Vec::with_capacity(alloc, states.len())?;
    for index in 0..states.len() {
        push_arcs(&mut arcs, pieces, caps, states, index)?;
    }
    Ok(arcs)
}

// Appends all arcs from the state at this index.
fn push_arcs<const N: usize>(
    arcs: &mut Vec<GraphArc>,
    pieces: &[Piece<N>],
    caps: &[Weights<N>],
    states: &[State<N>],
    index: usize,
) -> Result<(), Memory>
    requires small { N ≤ 32 }
    requires few { length pieces.now ≤ MAX_ALL_FORMS }
    requires ranged { All (λ l. IsInRange l) caps.now }
    requires types { length caps.now ≤ MAX_TYPES }
    requires states { AreStates pieces.now caps.now states.now }
    requires index { index < length states.now }
    ensures { OnOk result (Appends arcs.old.items arcs.new.items (IsArcFrom pieces.now caps.now states.now index)) }
{
    let state = &states[index];
    let taken = take(pieces, caps, state);
    push_step(arcs, states, index, Mark::Piece(state.piece), taken)?;
    let skipped = skip(pieces, caps, state);
    push_step(arcs, states, index, Mark::Loss, skipped)?;
    let number = state.piece as usize;
    if number < pieces.len() {
        return Ok(());
    }
    push_ends(arcs, caps, states.len(), index, &state.used)?;
    Ok(())
}

// Appends the arc to the next state, if there is one.
fn push_step<const N: usize>(
    arcs: &mut Vec<GraphArc>,
    states: &[State<N>],
    index: usize,
    mark: Mark,
    next: Option<State<N>>,
) -> Result<(), Memory>
    requires small { N ≤ 32 }
    requires ordered { IsStrictlySortedBy state_cmp states.now }
    requires index { index < length states.now }
    requires there { (t : State N) → next ≡ Some t → Contains states.now t }
    ensures { OnOk result (Appends arcs.old.items arcs.new.items (IsArcTo states.now index mark next.entry)) }
{
    if let Some(next) = next {
        arcs.push(GraphArc {
            tail: index as u64 + 1,
            head: number_in(states, &next),
            mark,
        })?;
    }
    Ok(())
}

// Appends the arcs to the targets of all types that the weight fits.
fn push_ends<const N: usize>(
    arcs: &mut Vec<GraphArc>,
    caps: &[Weights<N>],
    count: usize,
    index: usize,
    used: &Weights<N>,
) -> Result<(), Memory>
    requires small { N ≤ 32 }
    requires few { count < 2 ^ 63 }
    requires types { length caps.now ≤ MAX_TYPES }
    requires index { index < count }
    ensures { OnOk result (Appends arcs.old.items arcs.new.items (IsEndTo caps.now count index used.now)) }
{
    for t in 0..caps.len() {
        if used.fits(&caps[t]) {
            arcs.push(GraphArc {
                tail: index as u64 + 1,
                head: (count + t + 1) as u64,
                mark: Mark::Loss,
            })?;
        }
    }
    Ok(())
}
