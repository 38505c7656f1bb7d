use label_graph::{GraphArc, Piece};
use std::marker::Model;
use weight_vec::Weights;

/// A graph with a target for each type of bins: node 1 is the source, the last nodes are the targets.
#[derive(Drop)]
pub struct Joint<const N: usize> {
    pieces: Vec<Piece<N>>,
    caps: Vec<Weights<N>>,
    inner: u64,
    arcs: Vec<GraphArc>,
}

impl<const N: usize> Model for Joint<N> {
    ghost use Rattle.joint_graph.specs.Joints.{JointValue, IsJoint};

    ghost Value = { JointValue N };

    ghost view = { λ g. record { pieces = g.pieces.items; caps = g.caps.items; inner = g.inner; arcs = g.arcs.items } };

    ghost invariant = { λ g. IsJoint N (record { pieces = g.pieces.items; caps = g.caps.items; inner = g.inner; arcs = g.arcs.items }) };
}

impl<const N: usize> Joint<N> {
    ghost use Rattle.std.specs.Prelude.{◌≡◌};
    ghost use Rattle.joint_graph.specs.Joints.{JointValue, IsJoint};

    /// The graph of these parts. Arcs stand by tail, head and mark.
    pub fn new(
        pieces: Vec<Piece<N>>,
        caps: Vec<Weights<N>>,
        inner: u64,
        arcs: Vec<GraphArc>,
    ) -> Joint<N>
        requires { IsJoint N (record { pieces = pieces.items; caps = caps.items; inner = inner; arcs = arcs.items }) }
        ensures { result ≡ record { pieces = pieces.entry.items; caps = caps.entry.items; inner = inner; arcs = arcs.items } }
    {
        Joint {
            pieces,
            caps,
            inner,
            arcs,
        }
    }

    /// A call that costs nothing: what each joint graph keeps.
    pub fn known(&self)
        ensures { IsJoint N self.now }
    {
        let _arcs = &self.arcs;
    }

    /// The pieces, by number.
    pub fn pieces(&self) -> &[Piece<N>]
        ensures { result.now ≡ self.now.pieces }
    {
        self.pieces.as_slice()
    }

    /// The capacities of the types.
    pub fn caps(&self) -> &[Weights<N>]
        ensures { result.now ≡ self.now.caps }
    {
        self.caps.as_slice()
    }

    /// How many nodes are no targets.
    pub fn inner(&self) -> u64
        ensures { result ≡ self.now.inner }
    {
        self.inner
    }

    /// The arcs, by tail, head and mark.
    pub fn arcs(&self) -> &[GraphArc]
        ensures { result.now ≡ self.now.arcs }
    {
        self.arcs.as_slice()
    }
}
