//! Values of basic variables, and how they are compared.

ghost use Rattle.std.specs.Prelude.{◌≡◌, ◌+◌, ◌^◌, ◌<◌, ◌≤◌, unsigned_abs};

use crate::entries::{Pivot, Weight};
use crate::products::{POINT, unscaled, wide_product};

const MOST_LEVEL: i128 = 1 << 71;

/// A level that is nearer to 0 than this is taken for 0: 2^-24.
const SETTLED: i128 = 1 << 16;

/// A level above this is multiplied without its last bits.
const MOST_EXACT: i128 = 1 << 64;

/// Last bits of a level that a product does without.
const SPARE: u32 = 8;

/// By how much the first pass of the ratio test relaxes each level, in units of 2^-32: 2^-26.
const RELAXED: i128 = 1 << 6;

/// The value of a basic variable, in units of 2^-40: at most 2^31.
#[derive(Clone, Copy, Debug, PartialEq, Eq)]
pub struct Level {
    value: i128,
    ghost bounded: { unsigned_abs value ≤ 2 ^ 71 },
}

/// What a basic variable has, over what it loses by a unit of the column that enters.
#[derive(Clone, Copy, Debug, PartialEq, Eq)]
pub(crate) struct Ratio {
    pub level: Level,
    pub weight: Weight,
}

impl Level {
    pub const ZERO: Level = Level { value: 0 };

    pub fn value(self) -> i128
        ensures { unsigned_abs result ≤ 2 ^ 71 }
    {
        self.value
    }

    /// Whether the level is below 0, by more than what rounding may do.
    pub fn is_negative(self) -> bool {
        self.value < -SETTLED
    }

    /// Whether the level is 0, but for what rounding may do.
    pub fn is_settled(self) -> bool {
        self.value <= SETTLED && self.value >= -SETTLED
    }

    pub(crate) fn negative(self) -> Level {
        Level { value: -self.value }
    }

    /// The level less the product, and 0 where that is just below 0.
    pub(crate) fn less(self, weight: Weight, by: Level) -> Option<Level> {
        Level::from_wide(settled(self.value - by.share(weight)))
    }

    /// So many times the level.
    fn share(self, weight: Weight) -> i128
        ensures { unsigned_abs result ≤ 2 ^ 92 }
    {
        if self.value <= MOST_EXACT && self.value >= -MOST_EXACT {
            unscaled(wide_product(self.value, weight.value()))
        } else {
            wide_product(self.value >> SPARE, weight.value()) >> (POINT - SPARE)
        }
    }

    pub(crate) fn over(self, by: Pivot) -> Option<Level> {
        Level::from_wide(settled(by.divide(self.value << POINT)))
    }

    pub(crate) fn times(self, factor: u32) -> i128
        ensures { unsigned_abs result ≤ 2 ^ 104 }
    {
        self.value * i128::from(factor)
    }

    pub(crate) fn from_wide(wide: i128) -> Option<Level> {
        if wide <= MOST_LEVEL && wide >= -MOST_LEVEL {
            Some(Level { value: wide })
        } else {
            None
        }
    }
}

/// 0 for what is just below 0.
fn settled(value: i128) -> i128 {
    if value < 0 && value >= -SETTLED {
        0
    } else {
        value
    }
}

/// The level as the ratio test sees it, in units of 2^-32: none is below 0.
fn at_least_zero(level: Level) -> i128
    ensures { unsigned_abs result ≤ 2 ^ 63 }
{
    level.value.max(0) >> SPARE
}

impl Ratio {
    /// Whether the ratio is the smaller one, where both levels are relaxed.
    pub(crate) fn is_below(self, other: Ratio) -> bool {
        let here = wide_product(at_least_zero(self.level) + RELAXED, other.weight.value());
        let there = wide_product(at_least_zero(other.level) + RELAXED, self.weight.value());
        here < there
    }

    /// Whether the ratio is no greater than the other one with its level relaxed.
    pub(crate) fn is_within(self, other: Ratio) -> bool {
        let here = wide_product(at_least_zero(self.level), other.weight.value());
        let there = wide_product(at_least_zero(other.level) + RELAXED, self.weight.value());
        here <= there
    }
}
