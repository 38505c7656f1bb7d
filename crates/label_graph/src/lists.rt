//! What is done with lists of any graph.

ghost use Rattle.std.specs.Prelude.{◌≡◌, ◌↔◌, ◌≤◌, true, All, Contains, length, vec_len};
ghost use Rattle.std.specs.List.Sorted.{IsStrictlySortedBy};
ghost use Rattle.weight_vec.specs.Weight.{IsInRange};

use crate::parts::Piece;
use weight_vec::Weights;

/// Sorts a list, and keeps one of each element.
pub fn sort_distinct<T: Ord + Drop>(all: &mut Vec<T>)
    requires { (x y : T) → T.eq x y ≡ true → x ≡ y }
    ensures sorted { IsStrictlySortedBy T.cmp all.new.items }
    ensures count { vec_len all.new ≤ vec_len all.old }
    ensures same { (x : T) → Contains all.new.items x ↔ Contains all.old.items x }
{
    all.sort_unstable();
    all.dedup();
}

/// Changes nothing, in one pass over the weights: it tells how many numbers each has, and their range.
pub fn known_weights<const N: usize>(weights: &[Weights<N>])
    requires small { N ≤ 32 }
    ensures sized { All (λ l. length l ≡ N) weights.now }
    ensures ranged { All (λ l. IsInRange l) weights.now }
{
    for weight in weights {
        weight.known();
    }
}

/// Changes nothing, in one pass over the pieces: it tells how many numbers the weight of each has, and their range.
pub fn known_pieces<const N: usize>(pieces: &[Piece<N>])
    requires small { N ≤ 32 }
    ensures sized { All (λ q. length q.weight ≡ N) pieces.now }
    ensures ranged { All (λ q. IsInRange q.weight) pieces.now }
{
    for piece in pieces {
        piece.weight.known();
    }
}
