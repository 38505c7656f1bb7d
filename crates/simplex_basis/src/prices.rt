//! Prices of rows, and sums of products.

ghost use Rattle.std.specs.Prelude.{◌≡◌, ◌+◌, ◌^◌, ◌<◌, ◌≤◌, unsigned_abs};

use crate::entries::Entry;
use crate::levels::Level;
use crate::products::{product, unscaled};

const MOST_PRICE: i128 = 1 << 60;

const MOST_TOTAL: i128 = 1 << 124;

/// The price of a unit of a row, in units that the basis names: at most 2^60 of them.
#[derive(Clone, Copy, Debug, PartialEq, Eq)]
pub struct Price {
    value: i64,
    ghost bounded: { unsigned_abs value ≤ 2 ^ 60 },
}

/// A sum of products.
#[derive(Clone, Copy, Debug, PartialEq, Eq)]
pub(crate) struct Total {
    value: i128,
    ghost bounded: { unsigned_abs value ≤ 2 ^ 124 },
}

impl Price {
    pub const ZERO: Price = Price { value: 0 };

    pub fn value(self) -> i64
        ensures { unsigned_abs result ≤ 2 ^ 60 }
    {
        self.value
    }

    pub(crate) fn times(self, factor: i64) -> i128
        ensures { unsigned_abs result ≤ 2 ^ 126 }
    {
        product(self.value, factor)
    }

    /// What so many units of cost are, where one is so many of price.
    pub(crate) fn of_cost(cost: u32, unit: i64) -> i128
        ensures { unsigned_abs result ≤ 2 ^ 126 }
    {
        product(i64::from(cost), unit)
    }

    /// The price with so many entries more.
    pub(crate) fn plus(self, gain: i64, entry: Entry) -> Option<Price> {
        Price::from_wide(i128::from(self.value) + unscaled(product(gain, entry.value())))
    }

    fn from_wide(wide: i128) -> Option<Price> {
        if wide <= MOST_PRICE && wide >= -MOST_PRICE {
            Some(Price { value: wide as i64 })
        } else {
            None
        }
    }
}

impl Total {
    pub(crate) const ZERO: Total = Total { value: 0 };

    pub(crate) fn value(self) -> i128 {
        self.value
    }

    pub(crate) fn plus(self, product: i128) -> Option<Total>
        requires { unsigned_abs product ≤ 2 ^ 126 }
    {
        let value = self.value + product;
        if value <= MOST_TOTAL && value >= -MOST_TOTAL {
            Some(Total { value })
        } else {
            None
        }
    }

    pub(crate) fn level(self) -> Option<Level> {
        Level::from_wide(self.value)
    }

    /// The sum as a price, without so many of its last bits.
    pub(crate) fn price(self, spare: u32) -> Option<Price>
        requires { spare ≤ 40 }
    {
        Price::from_wide(self.value >> spare)
    }
}
