//! Names and their places.

ghost use Rattle.std.specs.Prelude.{◌≡◌, ℕ, [], ◌∷◌, ◌++◌, length, map, None, OnOk, OnErr};
ghost use Rattle.mps_text.specs.Meaning.{place_of};

use arc_num::Memory;
use indexmap::IndexSet;
use std::alloc::Global;
use std::marker::Model;

/// Names that are apart, each with its place from 0. They are parts of the text that is read.
#[derive(Drop)]
pub(crate) struct Names<'a> {
    set: IndexSet<&'a [u8]>,
}

impl<'a> Model for Names<'a> {
    ghost use Rattle.std.specs.Prelude.{ℕ, List, map};

    ghost Value = { List (List ℕ) };

    ghost view = { λ s. map (λ name. name.now) s.set.keys };
}

impl<'a> Names<'a> {
    pub(crate) fn new(alloc: Global) -> Self
        ensures { result ≡ [] }
    {
        Names {
            set: IndexSet::new(alloc),
        }
    }

    /// The place of a name.
    pub(crate) fn find(&self, name: &[u8]) -> Option<usize>
        ensures { result ≡ place_of name.now self.now }
    {
        self.set.get_index_of(name)
    }

    /// One more name.
    pub(crate) fn add(&mut self, name: &'a [u8]) -> Result<(), Memory>
        requires { place_of name.now self.old ≡ None }
        ensures ok { OnOk result (self.new ≡ self.old ++ name.now ∷ []) }
        ensures err { OnErr result (self.new ≡ self.old) }
    {
        self.set.insert(name)?;
        Ok(())
    }
}
