//! Fractions with small denominators.

use super::refining::FINE;

/// The greatest denominator of a fraction.
const MOST_BELOW: u128 = 1 << 29;

/// The greatest numerator.
const MOST_ABOVE: u128 = 1 << 50;

/// The greatest common denominator.
const MOST_SCALE: u64 = 1 << 60;

/// Continued fractions of so many terms are looked at.
const MOST_TERMS: u32 = 90;

/// One whole number over another.
#[derive(Clone, Copy, Debug, PartialEq, Eq)]
pub(super) struct Fraction {
    pub above: u64,
    pub below: u64,
}

impl Fraction {
    /// How many parts of one in a scale the fraction is, where the scale is a multiple of its denominator.
    pub(super) fn times(self, scale: u64) -> Option<u64> {
        scale.checked_div(self.below)?.checked_mul(self.above)
    }
}

/// A convergent of a continued fraction.
#[derive(Clone, Copy, Debug, PartialEq, Eq)]
struct Convergent {
    above: u128,
    below: u128,
}

impl Convergent {
    /// The one behind this one, which comes behind another.
    fn next(self, before: Convergent, term: u128) -> Convergent {
        Convergent {
            above: term.saturating_mul(self.above).saturating_add(before.above),
            below: term.saturating_mul(self.below).saturating_add(before.below),
        }
    }

    fn is_small(self) -> bool {
        self.above <= MOST_ABOVE && self.below <= MOST_BELOW
    }

    /// Whether it is within 2^-58 of a number in units of 2^-72.
    fn is_near(self, number: u128) -> bool {
        let here = self.above << FINE;
        let there = self.below.saturating_mul(number);
        let distance = here.saturating_sub(there).max(there.saturating_sub(here));
        distance <= self.below << (FINE - 58)
    }

    fn fraction(self) -> Option<Fraction> {
        let above = u64::try_from(self.above).ok()?;
        let below = u64::try_from(self.below).ok()?;
        Some(Fraction { above, below })
    }
}

/// The first convergent of a number in units of 2^-72 that is within 2^-58 of it; none where it is not small.
pub(super) fn fraction_of(number: u128) -> Option<Fraction> {
    let mut before = Convergent { above: 0, below: 1 };
    let mut last = Convergent { above: 1, below: 0 };
    let mut whole = number;
    let mut part = 1u128 << FINE;
    for _ in 0..MOST_TERMS {
        if part == 0 {
            return last.fraction();
        }
        let next = last.next(before, whole / part);
        if !next.is_small() {
            return None;
        }
        if next.is_near(number) {
            return next.fraction();
        }
        before = last;
        last = next;
        let rest = whole % part;
        whole = part;
        part = rest;
    }
    None
}

/// The least multiple of both numbers, if it is small.
pub(super) fn common_multiple(one: u64, other: u64) -> Option<u64> {
    let share = one.checked_div(common_divisor(one, other))?;
    let multiple = share.checked_mul(other)?;
    if multiple <= MOST_SCALE {
        Some(multiple)
    } else {
        None
    }
}

fn common_divisor(one: u64, other: u64) -> u64 {
    let mut greater = one;
    let mut less = other;
    for _ in 0..100u32 {
        if less == 0 {
            return greater;
        }
        let rest = greater % less;
        greater = less;
        less = rest;
    }
    greater
}
