//! Ways to fill a bin, by which columns are found again.

use std::hash::{Hash, Hasher};
use std::marker::Model;

/// Numbers of arcs, in ascending order.
#[derive(Debug, Drop)]
pub struct Arcs {
    numbers: Vec<u32>,
}

impl Model for Arcs {
    ghost use Rattle.std.specs.Prelude.{ℕ, List};

    ghost Value = { List ℕ };

    ghost view = { λ a. a.numbers.items };
}

impl Arcs {
    ghost use Rattle.std.specs.Prelude.{◌≡◌};

    pub fn new(numbers: Vec<u32>) -> Arcs
        ensures { result ≡ numbers.items }
    {
        Arcs { numbers }
    }

    pub fn as_slice(&self) -> &[u32]
        ensures { result.now ≡ self.now }
    {
        self.numbers.as_slice()
    }
}

impl PartialEq for Arcs {
    ghost use Rattle.std.specs.Prelude.{nat_eq};
    ghost use Rattle.std.specs.Cmp.Lexicographic.{pointwise, nat_list_eq_equiv};
    ghost use Rattle.std.specs.Cmp.{partial_equiv_from_equiv};

    ghost eq = { pointwise nat_eq };

    ghost laws = { partial_equiv_from_equiv nat_list_eq_equiv };

    fn eq(&self, other: &Arcs) -> bool {
        self.numbers.as_slice() == other.numbers.as_slice()
    }
}

impl Eq for Arcs {
    ghost use Rattle.std.specs.Cmp.Lexicographic.{nat_list_eq_equiv};

    ghost laws = { nat_list_eq_equiv };
}

impl Hash for Arcs {
    ghost use Rattle.std.specs.Hash as fed;
    ghost use Rattle.std.specs.Cmp.Rules.{hashing};
    ghost use Rattle.std.proofs.Common.{rules};

    ghost hash_input = { λ a. fed.slice fed.u32 a };

    ghost respects_eq = { Prim.search (hashing, rules) };

    fn hash<H: Hasher>(&self, state: &mut H) {
        self.numbers.as_slice().hash(state);
    }
}

/// A way to fill a bin: its type, and the arcs of a path through the graph of that type.
#[derive(Debug, PartialEq, Eq, Hash, Drop)]
pub struct Way {
    pub bin_type: u32,
    pub arcs: Arcs,
}
