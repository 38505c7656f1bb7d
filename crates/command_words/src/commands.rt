//! What the command line asks for.

ghost use Rattle.std.specs.Prelude.{◌≡◌, ◌↔◌, option_map, string_bytes, IfOk, IsTrue};
ghost use Rattle.command_words.specs.Requests.{Named, request_of, certificate_of, source_value, source_of, name_of, verb_of, workers_of, is_joint, MakesGraphs};

use crate::table::Verb;
use arc_num::Memory;
use std::alloc::Global;

/// The splits that are granted to a search where nothing is said.
pub const DEFAULT_SPLITS: u32 = 1_000;

/// What the command line asks for. `mvp` says that the instance is read in the `.mvp` layout, `workers` how many threads
/// may work at once, `nodes` how many splits are granted to a search, `cert` under which name a certificate is read or
/// written, `joint` that one graph is made for all types in place of one for each.
#[derive(Debug, Drop)]
pub enum Command {
    Compile {
        name: String,
        mvp: bool,
        workers: u32,
    },
    Solve {
        name: String,
        mvp: bool,
        nodes: u32,
        cert: Option<String>,
        workers: u32,
    },
    Check {
        name: String,
        cert: String,
        mvp: bool,
        workers: u32,
    },
    Export {
        name: String,
        mvp: bool,
        joint: bool,
    },
    Extract {
        name: String,
        solution: String,
        mvp: bool,
    },
    Bound {
        name: String,
        mvp: bool,
        cert: Option<String>,
    },
    /// The instance is generated.
    Make {
        seed: u64,
        size: u32,
        nodes: u32,
        workers: u32,
    },
}

/// Where the instance comes from that is asked about.
#[derive(Clone, Copy, Debug)]
pub enum Source<'a> {
    /// It is read.
    Named {
        name: &'a str,
        /// Whether it is read in the `.mvp` layout.
        mvp: bool,
    },
    /// It is generated.
    Generated {
        seed: u64,
        /// How many items it has.
        size: u32,
    },
}

/// An instance that is read under this name.
fn named(name: &String, mvp: bool) -> Source<'_>
    ensures { source_value result ≡ Named (string_bytes name.now) mvp }
{
    Source::Named {
        name: name.as_str(),
        mvp,
    }
}

impl Command {
    /// Where the instance comes from that is asked about.
    pub fn source(&self) -> Source<'_>
        ensures { source_value result ≡ source_of (request_of self.now) }
    {
        match self {
            Command::Compile { name, mvp, .. } => named(name, *mvp),
            Command::Solve { name, mvp, .. } => named(name, *mvp),
            Command::Check { name, mvp, .. } => named(name, *mvp),
            Command::Export { name, mvp, .. } => named(name, *mvp),
            Command::Extract { name, mvp, .. } => named(name, *mvp),
            Command::Bound { name, mvp, .. } => named(name, *mvp),
            Command::Make { seed, size, .. } => Source::Generated {
                seed: *seed,
                size: *size,
            },
        }
    }

    fn verb(&self) -> Verb
        ensures { result ≡ verb_of (request_of self.now) }
    {
        match self {
            Command::Compile { .. } => Verb::Compile,
            Command::Solve { .. } => Verb::Solve,
            Command::Check { .. } => Verb::Check,
            Command::Export { .. } => Verb::Export,
            Command::Extract { .. } => Verb::Extract,
            Command::Bound { .. } => Verb::Bound,
            Command::Make { .. } => Verb::Make,
        }
    }

    /// How many threads may work at once for the command: 1 where it has no word on that.
    pub fn workers(&self) -> u32
        ensures { result ≡ workers_of (request_of self.now) }
    {
        match self {
            Command::Compile { workers, .. } => *workers,
            Command::Solve { workers, .. } => *workers,
            Command::Check { workers, .. } => *workers,
            Command::Export { .. } => 1,
            Command::Extract { .. } => 1,
            Command::Bound { .. } => 1,
            Command::Make { workers, .. } => *workers,
        }
    }

    /// Whether one graph for all types is made for the command.
    pub fn is_joint(&self) -> bool
        ensures { result ≡ is_joint (request_of self.now) }
    {
        match self {
            Command::Compile { .. } => false,
            Command::Solve { .. } => false,
            Command::Check { .. } => false,
            Command::Export { joint, .. } => *joint,
            Command::Extract { .. } => false,
            Command::Bound { .. } => false,
            Command::Make { .. } => false,
        }
    }

    /// Whether a graph for each type is made for the command.
    pub fn makes_graphs(&self) -> bool
        ensures { IsTrue result ↔ MakesGraphs (request_of self.now) }
    {
        self.verb().row().makes_graphs && !self.is_joint()
    }

    /// The name of the instance, given away: that of one that is generated is the word `make`.
    pub fn into_name(self, alloc: Global) -> Result<String, Memory>
        ensures { IfOk result (λ name. string_bytes name ≡ name_of (request_of self)) }
    {
        match self {
            Command::Compile { name, .. } => Ok(name),
            Command::Solve { name, .. } => Ok(name),
            Command::Check { name, .. } => Ok(name),
            Command::Export { name, .. } => Ok(name),
            Command::Extract { name, .. } => Ok(name),
            Command::Bound { name, .. } => Ok(name),
            Command::Make { .. } => {
                let name = String::from_str(alloc, "make")?;
                Ok(name)
            }
        }
    }

    /// The name under which a certificate is to be written, given away, where one is asked for.
    pub fn into_certificate(self) -> Option<String>
        ensures { option_map string_bytes result ≡ certificate_of (request_of self) }
    {
        match self {
            Command::Compile { .. } => None,
            Command::Solve { cert, .. } => cert,
            Command::Check { .. } => None,
            Command::Export { .. } => None,
            Command::Extract { .. } => None,
            Command::Bound { cert, .. } => cert,
            Command::Make { .. } => None,
        }
    }
}
