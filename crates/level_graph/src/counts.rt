ghost use Rattle.std.specs.Prelude.{◌≤◌, IfOk};
ghost use Rattle.level_graph.specs.Levels.{IsPieceList, IsLevelCount};

use crate::layers::{layer_of, weights_of};
use arc_num::Memory;
use label_graph::Piece;
use std::alloc::Global;
use weight_vec::Weights;

/// The numbers of nodes and arcs of the level graph, with the states of one piece in memory at a time.
pub fn level_counts<const N: usize>(
    alloc: Global,
    pieces: &[Piece<N>],
    cap: &Weights<N>,
) -> Result<(u128, u128), Memory>
    requires small { N ≤ 32 }
    requires pieces { IsPieceList pieces.now cap.now }
    ensures { IfOk result (λ counts. IsLevelCount pieces.now cap.now counts.0 counts.1) }
{
    let mut states: u128 = 0;
    let mut takes: u128 = 0;
    let mut entering = vec![in alloc; Weights::zero()]?;
    let mut number: u32 = 0;
    for piece in pieces {
        number += 1;
        let layer = layer_of(alloc, number, piece, cap, entering.as_slice())?;
        states += layer.len() as u128;
        takes += (layer.len() - entering.len()) as u128;
        entering = weights_of(alloc, layer.as_slice())?;
    }
    Ok((states + 1, states + takes))
}
