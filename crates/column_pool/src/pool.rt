//! The pool of columns: each way to fill a bin that was ever found, once.

use crate::columns::Column;
use crate::ways::Way;
use arc_num::Memory;
use indexmap::IndexMap;
use std::alloc::Global;
use std::marker::Model;

/// Columns by number, from 0, each with the way that it stands for.
#[derive(Drop)]
pub struct ColumnPool {
    columns: IndexMap<Way, Column>,
}

/// Where a column stands, and whether it was put in just now.
#[derive(Clone, Copy, Debug, PartialEq, Eq)]
pub struct Place {
    pub number: usize,
    pub is_new: bool,
}

impl Model for ColumnPool {
    ghost use Rattle.std.specs.Prelude.{List};
    ghost use Rattle.column_pool.specs.declared.ways.Way.{Way};
    ghost use Rattle.column_pool.specs.declared.columns.Column.{Column};

    ghost Value = { List (Way × Column) };

    ghost view = { λ p. p.columns.entries };
}

impl ColumnPool {
    ghost use Rattle.std.specs.Prelude.{◌≡◌, ◌↔◌, ◌<◌, ◌++◌, ◌∷◌, [], IsTrue, IsSome, IfOk, IfSome, OnOk, OnErr, if◌then◌else◌, length, slice_get, true, Contains};
    ghost use Rattle.column_pool.specs.Pools.{AllDiffer, ways_of};

    /// A pool of no columns.
    pub fn new(alloc: Global) -> ColumnPool
        ensures { result ≡ [] }
    {
        ColumnPool {
            columns: IndexMap::new(alloc),
        }
    }

    /// A call that costs nothing: no two columns stand for the same way.
    pub fn known(&self)
        ensures { AllDiffer self.now }
    {
        let _count = self.columns.len();
    }

    pub fn len(&self) -> usize
        ensures { result ≡ length self.now }
    {
        self.columns.len()
    }

    pub fn is_empty(&self) -> bool
        ensures { IsTrue result ↔ (self.now ≡ []) }
    {
        self.columns.is_empty()
    }

    /// Puts a column in, or finds the one that stands for the same way, which stays as it is.
    pub fn put(&mut self, way: Way, column: Column) -> Result<Place, Memory>
        ensures found { IfOk result (λ p. slice_get (ways_of self.new) p.number ≡ Some way) }
        ensures fresh { IfOk result (λ p. IsTrue p.is_new ↔ ¬ Contains (ways_of self.old) way) }
        ensures kept { IfOk result (λ p. self.new ≡ (if p.is_new then self.old ++ (way, column) ∷ [] else self.old)) }
        ensures err { OnErr result (self.new ≡ self.old) }
    {
        match self.columns.get_index_of(&way) {
            Some(number) => Ok(Place {
                number,
                is_new: false,
            }),
            None => self.add(way, column),
        }
    }

    fn add(&mut self, way: Way, column: Column) -> Result<Place, Memory>
        requires { ¬ Contains (ways_of self.old) way }
        ensures found { IfOk result (λ p. slice_get (ways_of self.new) p.number ≡ Some way) }
        ensures fresh { IfOk result (λ p. p.is_new ≡ true) }
        ensures added { OnOk result (self.new ≡ self.old ++ (way, column) ∷ []) }
        ensures err { OnErr result (self.new ≡ self.old) }
    {
        let number = self.columns.len();
        self.columns.insert(way, column)?;
        Ok(Place {
            number,
            is_new: true,
        })
    }

    /// The column with this number and its way.
    pub fn get(&self, number: usize) -> Option<(&Way, &Column)>
        ensures some { IsSome result ↔ (number < length self.now) }
        ensures value { IfSome result (λ p. slice_get self.now number ≡ Some (p.0.now, p.1.now)) }
    {
        self.columns.get_index(number)
    }
}
