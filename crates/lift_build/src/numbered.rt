ghost use Rattle.std.specs.Prelude.{◌≡◌, ◌≤◌, true, [], length, IfOk, IfSome};
ghost use Rattle.lift_build.specs.inner.Numbers.{IsNumber, IsAdded, AreApart};

use arc_num::Memory;
use indexmap::IndexSet;
use std::alloc::Global;
use std::hash::Hash;
use std::marker::Model;

/// Different values, numbered from 1 on in the order in which they came.
#[derive(Drop)]
pub struct Numbered<T: Eq + Hash> {
    set: IndexSet<T>,
}

impl<T: Eq + Hash> Model for Numbered<T> {
    ghost use Rattle.std.specs.Prelude.{List};

    ghost Value = { List T };

    ghost view = { λ s. s.set.keys };
}

impl<T: Eq + Hash + Drop> Numbered<T> {
    /// No values yet.
    pub fn new(alloc: Global) -> Self
        ensures { result ≡ [] }
    {
        Numbered {
            set: IndexSet::new(alloc),
        }
    }

    /// The values, by number.
    pub fn as_slice(&self) -> &[T]
        ensures { result.now ≡ self.now }
    {
        self.set.as_slice()
    }

    /// How many values there are.
    pub fn count(&self) -> usize
        ensures { result ≡ length self.now }
    {
        self.set.len()
    }

    /// The number of a value, if it is there.
    pub fn number_of(&self, value: &T) -> Option<u64>
        requires { (x y : T) → T.eq x y ≡ true → x ≡ y }
        ensures { IfSome result (λ number. IsNumber self.now number value.now) }
    {
        let _count = self.set.len();
        let index = self.set.get_index_of(value)?;
        Some(index as u64 + 1)
    }

    /// The number of a value, which is added if it is not there.
    pub fn insert(&mut self, value: T) -> Result<u64, Memory>
        requires { (x y : T) → T.eq x y ≡ true → x ≡ y }
        ensures { IfOk result (IsAdded self.old self.new value) }
    {
        let (index, _added) = self.set.insert_full(value)?;
        let _count = self.set.len();
        Ok(index as u64 + 1)
    }
}
