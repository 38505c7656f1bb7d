ghost use Rattle.std.specs.Prelude.{◌≡◌, ◌↔◌, ℕ, ◌+◌, ◌-◌, ◌^◌, ◌<◌, ◌≤◌, ◌++◌, List, length, slice_index, replicate, IsTrue};
ghost use Rattle.std.specs.Option.{SomeIff};
ghost use Rattle.weight_vec.specs.Weight.{plus, minus, lower, higher, AtMost, IsInRange, IsZero};

use std::marker::Model;

/// One weight for each of `N` dimensions, in lexicographic order.
#[derive(Clone, Copy, Debug, PartialEq, Eq, PartialOrd, Ord, Hash)]
pub struct Weights<const N: usize> {
    parts: [u32; N],
}

impl<const N: usize> Model for Weights<N> {
    ghost use Rattle.std.specs.Prelude.{ℕ, List};

    ghost Value = { List ℕ };

    ghost view = { λ w. w.parts };

    ghost inverse = { λ w. record { parts = w } };
}

impl<const N: usize> Weights<N> {
    /// No weight in any dimension.
    pub fn zero() -> Self
        ensures { result ≡ replicate N 0 }
    {
        Weights { parts: [0; N] }
    }

    /// The weight in dimension `d`, which counts from 0.
    pub fn get(&self, d: usize) -> u32
        requires { d < N }
        ensures { result ≡ slice_index self.now d }
    {
        self.parts[d]
    }

    /// A check that costs nothing: how many weights there are, and their range.
    pub fn known(&self)
        ensures places { length self.now ≡ N }
        ensures range { IsInRange self.now }
    {
        numbers_in_range(&self.parts);
    }

    /// The sums, or nothing where one would pass `u32::MAX`.
    pub fn add(&self, other: &Self) -> Option<Self>
        ensures { SomeIff result (IsInRange (plus self.now other.now)) (plus self.now other.now) }
    {
        let mut parts = self.parts;
        for d in 0..N {
            parts[d] = parts[d].checked_add(other.parts[d])?;
        }
        Some(Weights { parts })
    }

    /// The sums, which fit.
    pub fn plus(&self, other: &Self) -> Self
        requires { IsInRange (plus self.now other.now) }
        ensures { result ≡ plus self.now other.now }
    {
        let mut parts = self.parts;
        for d in 0..N {
            parts[d] += other.parts[d];
        }
        Weights { parts }
    }

    /// The differences, or nothing where one would be negative.
    pub fn sub(&self, other: &Self) -> Option<Self>
        ensures { SomeIff result (AtMost other.now self.now) (minus self.now other.now) }
    {
        let mut parts = self.parts;
        for d in 0..N {
            parts[d] = parts[d].checked_sub(other.parts[d])?;
        }
        Some(Weights { parts })
    }

    /// Is there at most as much in each dimension as `cap` has?
    pub fn fits(&self, cap: &Self) -> bool
        ensures { IsTrue result ↔ AtMost self.now cap.now }
    {
        for d in 0..N {
            if self.parts[d] > cap.parts[d] {
                return false;
            }
        }
        true
    }

    /// The smaller number in each dimension.
    pub fn low(&self, other: &Self) -> Self
        ensures { result ≡ lower self.now other.now }
    {
        let mut parts = self.parts;
        for d in 0..N {
            parts[d] = parts[d].min(other.parts[d]);
        }
        Weights { parts }
    }

    /// The greater number in each dimension.
    pub fn high(&self, other: &Self) -> Self
        ensures { result ≡ higher self.now other.now }
    {
        let mut parts = self.parts;
        for d in 0..N {
            parts[d] = parts[d].max(other.parts[d]);
        }
        Weights { parts }
    }

    /// Is there no weight in any dimension?
    pub fn is_zero(&self) -> bool
        ensures { IsTrue result ↔ IsZero self.now }
    {
        for d in 0..N {
            if self.parts[d] != 0 {
                return false;
            }
        }
        true
    }

    /// The given weights with zeros up to `N`, or nothing where there are more than `N`.
    pub fn pad_from(part: &[u32]) -> Option<Self>
        ensures { SomeIff result (length part.now ≤ N) (part.now ++ replicate (N - length part.now) 0) }
    {
        if part.len() > N {
            return None;
        }
        let mut parts = [0; N];
        for d in 0..part.len() {
            parts[d] = part[d];
        }
        Some(Weights { parts })
    }
}

// The numbers of a slice are below 2^32.
fn numbers_in_range(_numbers: &[u32])
    ensures { (d : ℕ) → slice_index _numbers.now d < 2 ^ 32 }
{}
