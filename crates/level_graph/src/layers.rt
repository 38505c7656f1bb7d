//! The states at one piece, from the weights that enter it.

ghost use Rattle.std.specs.Prelude.{◌≡◌, ◌≤◌, length, map, All, AllPairs, IfOk};
ghost use Rattle.weight_vec.specs.Weight.{Before};
ghost use Rattle.level_graph.specs.inner.Layers.{taken, entered, IsLayer, AreWeights};

use crate::states::State;
use arc_num::Memory;
use label_graph::Piece;
use std::alloc::Global;
use weight_vec::Weights;

// The state after one more copy of the piece, if there is one that fits.
pub fn take<const N: usize>(
    state: &State<N>,
    piece: &Piece<N>,
    cap: &Weights<N>,
) -> Option<State<N>>
    requires small { N ≤ 32 }
    ensures { result ≡ taken piece.now cap.now state.now }
{
    cap.known();
    if state.copies >= piece.copies {
        return None;
    }
    let Some(used) = state.used.add(&piece.weight) else {
        return None;
    };
    if !used.fits(cap) {
        return None;
    }
    Some(State {
        piece: state.piece,
        copies: state.copies + 1,
        used,
    })
}

// The states at the piece with this number, from the weights that enter it.
pub fn layer_of<const N: usize>(
    alloc: Global,
    number: u32,
    piece: &Piece<N>,
    cap: &Weights<N>,
    entering: &[Weights<N>],
) -> Result<Vec<State<N>>, Memory>
    requires small { N ≤ 32 }
    requires entering { AllPairs Before entering.now }
    ensures { IfOk result (λ layer. IsLayer number piece.now cap.now entering.now layer.items) }
{
    let mut layer = entered_states(alloc, number, entering)?;
    piece.weight.known();
    for index in 0..usize::MAX {
        if index == layer.len() {
            return Ok(layer);
        }
        if let Some(next) = take(&layer[index], piece, cap) {
            layer.push(next)?;
        }
    }
    unreachable!()
}

// The states of a piece before any copy of it is taken.
fn entered_states<const N: usize>(
    alloc: Global,
    number: u32,
    entering: &[Weights<N>],
) -> Result<Vec<State<N>>, Memory>
    requires small { N ≤ 32 }
    ensures items { IfOk result (λ layer. layer.items ≡ entered number entering.now) }
    ensures sized { IfOk result (λ layer. All (λ s. length s.used ≡ N) layer.items) }
    ensures here { IfOk result (λ layer. All (λ s. s.piece ≡ number) layer.items) }
{
    let mut layer = Vec::with_capacity(alloc, entering.len())?;
    for weight in entering {
        weight.known();
        layer.push(State {
            piece: number,
            copies: 0,
            used: *weight,
        })?;
    }
    Ok(layer)
}

// The different weights of the states, in order.
pub fn weights_of<const N: usize>(
    alloc: Global,
    layer: &[State<N>],
) -> Result<Vec<Weights<N>>, Memory>
    requires small { N ≤ 32 }
    ensures { IfOk result (λ weights. AreWeights layer.now weights.items) }
{
    let mut weights = used_weights(alloc, layer)?;
    weights.sort_unstable();
    weights.dedup();
    Ok(weights)
}

// The weight of each state.
pub fn used_weights<const N: usize>(
    alloc: Global,
    layer: &[State<N>],
) -> Result<Vec<Weights<N>>, Memory>
    requires small { N ≤ 32 }
    ensures { IfOk result (λ weights. weights.items ≡ map (λ s. s.used) layer.now) }
{
    let mut weights = Vec::with_capacity(alloc, layer.len())?;
    for state in layer {
        weights.push(state.used)?;
    }
    Ok(weights)
}
