//! The joint graph of all types.

ghost use Rattle.std.specs.Prelude.{◌≡◌, ◌≤◌, ◌<◌, ℕ, length, IfOk, IfErr};
ghost use Rattle.arc_num.specs.declared.TheConstants.{MAX_TYPES};
ghost use Rattle.joint_graph.specs.Joints.{node_count};
ghost use Rattle.joint_graph.specs.JointLevels.{ArePieces};
ghost use Rattle.joint_graph.specs.JointLaws.{IsJointOf, HasJointMain};

use crate::arriving::joint_final;
use crate::graph::Joint;
use crate::levels::joint_levels;
use crate::mains::joint_main;
use label_graph::{GraphFault, Piece};
use std::alloc::Global;
use weight_vec::Weights;

/// The numbers of nodes and arcs of a joint main and a joint final graph.
#[derive(Clone, Copy, Debug, PartialEq, Eq)]
pub struct JointSize {
    pub main_nodes: u64,
    pub main_arcs: u64,
    pub final_nodes: u64,
    pub final_arcs: u64,
}

/// A joint final graph, with the sizes of it and of its main graph.
#[derive(Drop)]
pub struct JointGraph<const N: usize> {
    graph: Joint<N>,
    size: JointSize,
}

impl<const N: usize> JointGraph<N> {
    ghost use Rattle.std.specs.Prelude.{◌≡◌};

    /// The joint final graph.
    pub fn graph(&self) -> &Joint<N>
        ensures { result.now ≡ self.now.graph }
    {
        &self.graph
    }

    /// The sizes of the main and the final graph.
    pub fn size(&self) -> JointSize
        ensures { result ≡ self.now.size }
    {
        self.size
    }
}

/// The joint final graph of the pieces and the capacities of all types, where its main graph has not more arcs than
/// there is room for.
pub fn joint<const N: usize>(
    alloc: Global,
    pieces: &[Piece<N>],
    caps: &[Weights<N>],
    room: u32,
) -> Result<JointGraph<N>, GraphFault>
    requires small { N ≤ 32 }
    requires pieces { ArePieces pieces.now }
    requires some { 1 ≤ length caps.now }
    requires types { length caps.now ≤ MAX_TYPES }
    ensures graphs { IfOk result (λ joint. IsJointOf pieces.now caps.now joint.graph joint.size) }
    ensures roomy { IfOk result (λ joint. joint.size.main_arcs ≤ room) }
    ensures full { IfErr result (λ fault. fault ≡ GraphFault.TooManyArcs → (arcs : ℕ) × HasJointMain pieces.now caps.now arcs × (room < arcs)) }
{
    let levels = joint_levels(alloc, pieces, caps)?;
    levels.known();
    let main = joint_main(alloc, &levels)?;
    main.known();
    if main.arcs().len() > room as usize {
        return Err(GraphFault::TooManyArcs);
    }
    let last = joint_final(alloc, &main)?;
    last.known();
    let size = size_of(&main, &last);
    Ok(JointGraph { graph: last, size })
}

// The numbers of nodes and arcs of two graphs.
fn size_of<const N: usize>(main: &Joint<N>, last: &Joint<N>) -> JointSize
    requires small { N ≤ 32 }
    ensures main_nodes { result.main_nodes ≡ node_count main.now }
    ensures main_arcs { result.main_arcs ≡ length main.now.arcs }
    ensures final_nodes { result.final_nodes ≡ node_count last.now }
    ensures final_arcs { result.final_arcs ≡ length last.now.arcs }
{
    main.known();
    last.known();
    JointSize {
        main_nodes: main.inner() + main.caps().len() as u64,
        main_arcs: main.arcs().len() as u64,
        final_nodes: last.inner() + last.caps().len() as u64,
        final_arcs: last.arcs().len() as u64,
    }
}
