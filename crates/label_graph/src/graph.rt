use crate::parts::{GraphArc, Piece};
use std::marker::Model;
use weight_vec::Weights;

/// A graph of pieces: node 1 is the source, the last node the target.
#[derive(Debug, Drop)]
pub struct Graph<const N: usize> {
    pieces: Vec<Piece<N>>,
    labels: Vec<Weights<N>>,
    arcs: Vec<GraphArc>,
}

impl<const N: usize> Model for Graph<N> {
    ghost use Rattle.label_graph.specs.Graph.{GraphValue, IsGraph};

    ghost Value = { GraphValue N };

    ghost view = { λ g. record { pieces = g.pieces.items; labels = g.labels.items; arcs = g.arcs.items } };

    ghost invariant = { λ g. IsGraph N (record { pieces = g.pieces.items; labels = g.labels.items; arcs = g.arcs.items }) };
}

impl<const N: usize> Graph<N> {
    ghost use Rattle.std.specs.Prelude.{◌≡◌};
    ghost use Rattle.label_graph.specs.Graph.{GraphValue, IsGraph};

    /// The graph of these parts. Arcs stand by tail, head and mark.
    pub fn new(pieces: Vec<Piece<N>>, labels: Vec<Weights<N>>, arcs: Vec<GraphArc>) -> Graph<N>
        requires { IsGraph N (record { pieces = pieces.items; labels = labels.items; arcs = arcs.items }) }
        ensures { result ≡ record { pieces = pieces.entry.items; labels = labels.entry.items; arcs = arcs.items } }
    {
        Graph {
            pieces,
            labels,
            arcs,
        }
    }

    /// A call that costs nothing: what each graph keeps.
    pub fn known(&self)
        ensures { IsGraph N self.now }
    {
        let _arcs = &self.arcs;
    }

    /// The pieces, by number.
    pub fn pieces(&self) -> &[Piece<N>]
        ensures { result.now ≡ self.now.pieces }
    {
        self.pieces.as_slice()
    }

    /// The labels of the nodes, by number.
    pub fn labels(&self) -> &[Weights<N>]
        ensures { result.now ≡ self.now.labels }
    {
        self.labels.as_slice()
    }

    /// The arcs, by tail, head and mark.
    pub fn arcs(&self) -> &[GraphArc]
        ensures { result.now ≡ self.now.arcs }
    {
        self.arcs.as_slice()
    }
}
