//! Products of prices and counts, in 128 bits.

ghost use Rattle.std.specs.Prelude.{◌≡◌, ◌*◌, ◌^◌, ◌≤◌, pos, ◌*ℤ◌, unsigned_abs};
ghost use Rattle.path_prices.specs.inner.Tables.{IsWithin};

use arc_num::MAX_PRICE;

/// A price of at most `MAX_PRICE`, so often.
pub(crate) fn product(price: u64, count: u32) -> i128
    requires { price ≤ MAX_PRICE }
    ensures value { result ≡ pos (price * count) }
    ensures small { price * count ≤ 2 ^ 62 * count }
{
    (u128::from(price) * u128::from(count)) as i128
}

/// A signed price, so often.
pub(crate) fn signed_product(price: i64, count: u32) -> i128
    requires { unsigned_abs price ≤ MAX_PRICE }
    ensures value { result ≡ price *ℤ pos count }
    ensures small { IsWithin (2 ^ 94) result }
{
    i128::from(price) * i128::from(count)
}
