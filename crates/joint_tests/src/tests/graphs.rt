//! The joint graph of two pieces and one capacity.

ghost use Rattle.std.specs.Prelude.{◌≡◌, ◌≤◌, All, IfOk, IsTrue, length};
ghost use Rattle.weight_vec.specs.Weight.{IsZero};

use arc_num::{MAX_ALL_FORMS, MAX_TYPES};
use joint_graph::{Joint, JointGraph, JointSize, joint, joint_paths_cover, joint_paths_fit};
use label_graph::{GraphFault, Piece};
use std::alloc::{AllocError, Global};
use std::test::Fail;
use weight_vec::Weights;

fn weight(number: u32) -> Weights<1> {
    match Weights::pad_from(&[number]) {
        Some(weights) => weights,
        None => Weights::zero(),
    }
}

fn piece(item: u32, number: u32) -> Piece<1> {
    Piece {
        item,
        form: 1,
        weight: weight(number),
        copies: 1,
    }
}

fn are_heavy(pieces: &[Piece<1>]) -> bool
    ensures { IsTrue result → All (λ q. IsZero q.weight → ⊥) pieces.now }
{
    pieces.iter().all(|piece| !piece.weight.is_zero())
}

fn two_pieces(alloc: Global) -> Result<Vec<Piece<1>>, AllocError> {
    let pieces = vec![in alloc; piece(1, 6), piece(2, 5)]?;
    Ok(pieces)
}

fn one_capacity(alloc: Global) -> Result<Vec<Weights<1>>, AllocError> {
    let caps = vec![in alloc; weight(10)]?;
    Ok(caps)
}

/// The joint graph of items that weigh 6 and 5 and of bins of 10, where there is room for so many arcs.
fn joint_of_two(alloc: Global, room: u32) -> Result<JointGraph<1>, GraphFault> {
    let pieces = two_pieces(alloc)?;
    let caps = one_capacity(alloc)?;
    let few = pieces.len() <= MAX_ALL_FORMS as usize && caps.len() <= MAX_TYPES as usize;
    if !few || caps.is_empty() || !are_heavy(pieces.as_slice()) {
        return Err(GraphFault::Memory);
    }
    joint(alloc, pieces.as_slice(), caps.as_slice(), room)
}

#[test]
fn five_arcs_have_room_for_five(rt: HostRuntime) -> Result<(), Fail> {
    let size = JointSize {
        main_nodes: 4,
        main_arcs: 5,
        final_nodes: 3,
        final_arcs: 4,
    };
    assert_eq!(rt; joint_of_two(rt.alloc(), 5)?.size(), size);
    let narrow = joint_of_two(rt.alloc(), 4);
    assert!(rt; narrow.is_err_and(|fault| fault == GraphFault::TooManyArcs));
    Ok(())
}

/// A joint graph of the same parts.
fn copy_of(alloc: Global, graph: &Joint<1>) -> Result<Joint<1>, AllocError>
    ensures { IfOk result (λ copy. copy ≡ graph.now) }
{
    graph.known();
    let pieces = Vec::from_slice(alloc, graph.pieces())?;
    let caps = Vec::from_slice(alloc, graph.caps())?;
    let arcs = Vec::from_slice(alloc, graph.arcs())?;
    Ok(Joint::new(pieces, caps, graph.inner(), arcs))
}

#[test]
fn a_joint_graph_keeps_its_parts(rt: HostRuntime) -> Result<(), Fail> {
    let last = joint_of_two(rt.alloc(), 5)?;
    let copy = copy_of(rt.alloc(), last.graph())?;
    assert_eq!(rt; (copy.pieces().len(), copy.caps().len()), (2, 1));
    assert_eq!(rt; (copy.inner(), copy.arcs().len()), (2, 4));
    Ok(())
}

#[test]
fn laws_of_joint_graphs_hold() {
    joint_paths_fit();
    joint_paths_cover();
}
