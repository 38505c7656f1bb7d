//! The numbers that a pivot works on most, small enough for the product of two of them to fit.

ghost use Rattle.std.specs.Prelude.{◌≡◌, ◌+◌, ◌^◌, ◌<◌, ◌≤◌, unsigned_abs};

use crate::products::{ONE, POINT, narrowed, product, small_product, unscaled};

const MOST_ENTRY: i64 = 1 << 60;

const MOST_WEIGHT: i64 = 1 << 60;

const MOST_SLIGHT: i64 = 1 << 42;

/// An entry of the inverse, in units of 2^-40: at most 2^20.
#[derive(Clone, Copy, Debug, PartialEq, Eq)]
pub struct Entry {
    value: i64,
    ghost bounded: { unsigned_abs value ≤ 2 ^ 60 },
}

/// What a basic variable loses by one unit of a column, in units of 2^-40: at most 2^20.
#[derive(Clone, Copy, Debug, PartialEq, Eq)]
pub struct Weight {
    value: i64,
    ghost bounded: { unsigned_abs value ≤ 2 ^ 60 },
}

/// A weight to divide by.
#[derive(Clone, Copy, Debug, PartialEq, Eq)]
pub struct Pivot {
    value: i64,
    ghost bounded: { unsigned_abs value ≤ 2 ^ 60 },
    ghost real: { 0 < unsigned_abs value },
}

/// An entry that is small enough for its product with a weight to fit 64 bits once the point is moved back.
#[derive(Clone, Copy, Debug, PartialEq, Eq)]
pub(crate) struct Slight {
    value: i64,
    ghost bounded: { unsigned_abs value ≤ 2 ^ 42 },
}

impl Entry {
    pub const ZERO: Entry = Entry { value: 0 };

    pub const ONE: Entry = Entry { value: ONE };

    pub fn value(self) -> i64
        ensures { unsigned_abs result ≤ 2 ^ 60 }
    {
        self.value
    }

    pub(crate) fn is_zero(self) -> bool {
        self.value == 0
    }

    pub(crate) fn negative(self) -> Entry {
        Entry { value: -self.value }
    }

    pub(crate) fn times(self, factor: i64) -> i128
        ensures { unsigned_abs result ≤ 2 ^ 126 }
    {
        product(self.value, factor)
    }

    /// The entry less the product, where that is no larger than an entry may be.
    pub(crate) fn less(self, weight: Weight, by: Entry) -> Option<Entry> {
        Entry::from_wide(i128::from(self.value) - unscaled(product(weight.value, by.value)))
    }

    /// The same by a product of 64 bits.
    pub(crate) fn less_slight(self, weight: Weight, by: Slight) -> Option<Entry> {
        let value = self.value - narrowed(small_product(weight.value, by.value));
        if value <= MOST_ENTRY && value >= -MOST_ENTRY {
            Some(Entry { value })
        } else {
            None
        }
    }

    pub(crate) fn over(self, by: Pivot) -> Option<Entry> {
        Entry::from_wide(by.divide(i128::from(self.value) << POINT))
    }

    pub(crate) fn slight(self) -> Option<Slight> {
        let value = self.value;
        if value <= MOST_SLIGHT && value >= -MOST_SLIGHT {
            Some(Slight { value })
        } else {
            None
        }
    }

    fn from_wide(wide: i128) -> Option<Entry> {
        if wide <= i128::from(MOST_ENTRY) && wide >= -i128::from(MOST_ENTRY) {
            Some(Entry { value: wide as i64 })
        } else {
            None
        }
    }
}

impl Weight {
    pub const ZERO: Weight = Weight { value: 0 };

    pub fn value(self) -> i64
        ensures { unsigned_abs result ≤ 2 ^ 60 }
    {
        self.value
    }

    pub(crate) fn is_zero(self) -> bool {
        self.value == 0
    }

    /// How far the weight is from 0.
    pub fn size(self) -> u64 {
        self.value.unsigned_abs()
    }

    /// The weight with so many entries more.
    pub(crate) fn plus(self, entry: Entry, factor: i64) -> Option<Weight> {
        let wide = i128::from(self.value) + product(entry.value, factor);
        if wide <= i128::from(MOST_WEIGHT) && wide >= -i128::from(MOST_WEIGHT) {
            Some(Weight { value: wide as i64 })
        } else {
            None
        }
    }

    pub(crate) fn pivot(self) -> Option<Pivot> {
        if self.value == 0 {
            None
        } else {
            Some(Pivot { value: self.value })
        }
    }
}

impl Pivot {
    pub(crate) fn divide(self, wide: i128) -> i128
        requires { unsigned_abs wide ≤ 2 ^ 126 }
    {
        wide / i128::from(self.value)
    }
}
