ghost use Rattle.std.specs.Prelude.{◌≡◌, ℕ, List};

use arc_num::Listed;
use std::alloc::Global;
use std::marker::Model;

/// So many units of a form of an item. Items and forms are numbered from 1.
#[derive(Clone, Copy, Debug, Default, PartialEq, Eq, PartialOrd, Ord)]
pub struct Count {
    pub item: u32,
    pub form: u32,
    pub count: u32,
}

/// What is in a bin.
pub type Counts = Listed<Count>;

/// Bins of a type, numbered from 1, that are alike: so many times, with these counts in each.
#[derive(Clone, Debug, Drop)]
pub struct Bin {
    pub bin_type: u32,
    pub times: u32,
    pub counts: Counts,
}

/// Bins, and how often each is used. It need not be a packing of any instance.
#[derive(Clone, Debug, Drop)]
pub struct Packing {
    bins: Vec<Bin>,
}

impl Model for Packing {
    ghost use Rattle.std.specs.Prelude.{List};
    ghost use Rattle.packing_laws.specs.declared.packings.Bin.{Bin};

    ghost Value = { List Bin };

    ghost view = { λ s. s.bins.items };
}

impl Packing {
    pub fn new(bins: Vec<Bin>) -> Self
        ensures { result ≡ bins.items }
    {
        Packing { bins }
    }

    pub fn bins(&self) -> &[Bin]
        ensures { result.now ≡ self.now }
    {
        self.bins.as_slice()
    }

    pub(crate) fn into_bins(self) -> Vec<Bin>
        ensures { result.items ≡ self }
    {
        self.bins
    }

    /// The allocator that the bins were made with.
    pub(crate) fn allocator(&self) -> Global {
        *self.bins.allocator()
    }
}
