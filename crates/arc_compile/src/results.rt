//! What compiling an instance gives.

use arc_num::{Listed, Memory};
use flow_graph::FlowGraph;
use thiserror::Error;

/// The numbers of nodes and arcs of the main and the final graph of a type, without its bin arc.
#[derive(Clone, Copy, Debug, PartialEq, Eq)]
pub struct TypeSize {
    pub main_nodes: u32,
    pub main_arcs: u32,
    pub final_nodes: u32,
    pub final_arcs: u32,
}

/// The sizes of the graphs of all types, in order.
pub type Sizes = Listed<TypeSize>;

/// An instance compiled: the final graphs of its types as one row of arcs, and the sizes of the graphs.
#[derive(Debug, Drop)]
pub struct Compiled {
    pub graph: FlowGraph,
    pub sizes: Sizes,
}

/// Why an instance is not compiled.
#[derive(Clone, Copy, Debug, PartialEq, Eq, Error)]
pub enum CompileFault {
    /// The main graphs of the types up to this one have more than 1,000,000 arcs together.
    #[error("type {t}: too many arcs")]
    TooManyArcs { t: u32 },
    #[error("out of memory")]
    Memory,
}

impl From<Memory> for CompileFault {
    ghost use Rattle.std.specs.Prelude.{◌≡◌};
    ghost use Rattle.arc_compile.specs.declared.results.CompileFault.TheVariants.{Memory as NoMemory};

    ghost from_gives = { λ _ e. e ≡ NoMemory };

    fn from(_e: Memory) -> CompileFault {
        CompileFault::Memory
    }
}
