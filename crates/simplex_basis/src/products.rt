//! Products and quotients in fixed point, whose sizes are known.

ghost use Rattle.std.specs.Prelude.{◌≡◌, ◌+◌, ◌^◌, ◌<◌, ◌≤◌, unsigned_abs};

/// Bits behind the point of entries, weights and levels.
pub const POINT: u32 = 40;

/// The number 1 with so many bits behind the point.
pub const ONE: i64 = 1 << 40;

const HALF: i128 = 1 << 39;

pub(crate) fn product(one: i64, other: i64) -> i128
    ensures { unsigned_abs result ≤ 2 ^ 126 }
{
    i128::from(one) * i128::from(other)
}

pub(crate) fn small_product(weight: i64, by: i64) -> i128
    requires weight { unsigned_abs weight ≤ 2 ^ 60 }
    requires slight { unsigned_abs by ≤ 2 ^ 42 }
    ensures { unsigned_abs result ≤ 2 ^ 102 }
{
    i128::from(weight) * i128::from(by)
}

pub(crate) fn wide_product(level: i128, weight: i64) -> i128
    requires level { unsigned_abs level ≤ 2 ^ 64 }
    requires weight { unsigned_abs weight ≤ 2 ^ 60 }
    ensures { unsigned_abs result ≤ 2 ^ 124 }
{
    level * i128::from(weight)
}

/// A product with the point moved back, rounded.
pub(crate) fn unscaled(wide: i128) -> i128
    requires { unsigned_abs wide ≤ 2 ^ 126 }
    ensures { unsigned_abs result ≤ 2 ^ 87 }
{
    (wide + HALF) >> POINT
}

/// The same in 64 bits, of a product that is small enough.
pub(crate) fn narrowed(wide: i128) -> i64
    requires { unsigned_abs wide ≤ 2 ^ 102 }
    ensures { unsigned_abs result ≤ 2 ^ 62 + 1 }
{
    ((wide + HALF) >> POINT) as i64
}
