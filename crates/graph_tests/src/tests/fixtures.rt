//! Weights, pieces and graphs that are built from plain numbers.

ghost use Rattle.std.specs.Prelude.{◌≡◌, ◌+◌, ◌≤◌, [], ◌∷◌, All, IfOk, IsTrue};
ghost use Rattle.weight_vec.specs.Weight.{AtMost, IsZero};
ghost use Rattle.label_graph.specs.Worked.{two_pieces};
ghost use Rattle.level_graph.specs.Levels.{IsPieceList};

use arc_num::MAX_ALL_FORMS;
use label_graph::{Graph, GraphArc, Mark, Piece};
use std::alloc::{AllocError, Global};
use weight_vec::Weights;

/// The graph of one node, which is source and target.
pub fn one_node(alloc: Global) -> Result<Graph<1>, AllocError> {
    let zero = Weights::zero();
    zero.known();
    let labels = vec![in alloc; zero]?;
    Ok(Graph::new(Vec::new(alloc), labels, Vec::new(alloc)))
}

pub fn weight(number: u32) -> Weights<1>
    ensures { result ≡ number ∷ [] }
{
    match Weights::pad_from(&[number]) {
        Some(weights) => weights,
        None => unreachable!(),
    }
}

pub fn piece(item: u32, number: u32) -> Piece<1>
    ensures { result ≡ record { item = item; form = 1; weight = number ∷ []; copies = 1 } }
{
    Piece {
        item,
        form: 1,
        weight: weight(number),
        copies: 1,
    }
}

pub fn arc(tail: u64, head: u64, mark: Mark) -> GraphArc
    ensures { result ≡ record { tail = tail; head = head; mark = mark } }
{
    GraphArc { tail, head, mark }
}

/// A graph of two pieces that weigh 6 and 5, which is its own main graph with the capacity 10.
pub fn two_forms(alloc: Global) -> Result<Graph<1>, AllocError>
    ensures { IfOk result (λ graph. graph ≡ two_pieces) }
{
    let pieces = vec![in alloc; piece(1, 6), piece(2, 5)]?;
    let labels = vec![in alloc; weight(4), weight(5), weight(10)]?;
    let arcs = vec![in alloc;
        arc(1, 2, Mark::Loss),
        arc(1, 3, Mark::Piece(1)),
        arc(2, 3, Mark::Loss),
        arc(2, 3, Mark::Piece(2)),
    ]?;
    Ok(Graph::new(pieces, labels, arcs))
}

pub fn all_fit(labels: &[Weights<1>], cap: &Weights<1>) -> bool
    ensures { IsTrue result → All (λ l. AtMost l cap.now) labels.now }
{
    labels.iter().all(|label| label.fits(cap))
}

/// Are these pieces numbered by item in their order, with copies, and each of a weight that fits?
pub fn are_pieces<const N: usize>(pieces: &[Piece<N>], cap: &Weights<N>) -> bool
    requires small { N ≤ 32 }
    ensures { IsTrue result → IsPieceList pieces.now cap.now }
{
    if pieces.len() > MAX_ALL_FORMS as usize {
        return false;
    }
    for index in 0..pieces.len() {
        if !is_piece(index, &pieces[index], cap) {
            return false;
        }
    }
    true
}

pub fn is_piece<const N: usize>(index: usize, piece: &Piece<N>, cap: &Weights<N>) -> bool
    requires small { N ≤ 32 }
    ensures { IsTrue result → ((piece.now.item ≡ index + 1) × (1 ≤ piece.now.copies) × (IsZero piece.now.weight → ⊥) × AtMost piece.now.weight cap.now) }
{
    piece.item > 0
        && piece.item as usize - 1 == index
        && piece.copies > 0
        && !piece.weight.is_zero()
        && piece.weight.fits(cap)
}

pub fn padded<const N: usize>(part: &[u32]) -> Weights<N>
    requires small { N ≤ 32 }
{
    match Weights::pad_from(part) {
        Some(weights) => weights,
        None => Weights::zero(),
    }
}

/// Takes what may be sent to another thread and shared with it.
pub fn needs_send<T: Send + Sync>(_value: &T) {}
