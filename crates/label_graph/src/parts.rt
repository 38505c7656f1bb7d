use arc_num::Memory;
use std::alloc::AllocError;
use thiserror::Error;
use weight_vec::Weights;

/// A form of an item, with its weight and the number of its copies. Items and forms are numbered from 1.
#[derive(Clone, Copy, Debug, PartialEq, Eq)]
pub struct Piece<const N: usize> {
    pub item: u32,
    pub form: u32,
    pub weight: Weights<N>,
    pub copies: u32,
}

/// What an arc carries: nothing, or one copy of the piece with this number, from 1 on.
#[derive(Clone, Copy, Debug, PartialEq, Eq, PartialOrd, Ord, Hash)]
pub enum Mark {
    Loss,
    Piece(u32),
}

/// An arc between two nodes, which are numbered from 1.
#[derive(Clone, Copy, Debug, PartialEq, Eq, PartialOrd, Ord, Hash)]
pub struct GraphArc {
    pub tail: u64,
    pub head: u64,
    pub mark: Mark,
}

/// Why a graph is not made.
#[derive(Clone, Copy, Debug, PartialEq, Eq, Error)]
pub enum GraphFault {
    #[error("too many arcs")]
    TooManyArcs,
    #[error("out of memory")]
    Memory,
}

impl From<Memory> for GraphFault {
    ghost use Rattle.std.specs.Prelude.{◌≡◌};
    ghost use Rattle.label_graph.specs.declared.parts.GraphFault.TheVariants.{Memory as NoMemory};

    ghost from_gives = { λ _ e. e ≡ NoMemory };

    fn from(_e: Memory) -> GraphFault {
        GraphFault::Memory
    }
}

impl From<AllocError> for GraphFault {
    ghost use Rattle.std.specs.Prelude.{◌≡◌};
    ghost use Rattle.label_graph.specs.declared.parts.GraphFault.TheVariants.{Memory as NoMemory};

    ghost from_gives = { λ _ e. e ≡ NoMemory };

    fn from(_e: AllocError) -> GraphFault {
        GraphFault::Memory
    }
}
