//! Forms in the order of pieces.

use std::cmp::Reverse;
use weight_vec::Weights;

/// A form that fits: heavier ones come before lighter ones, then it goes by item and form.
#[derive(Clone, Copy, Debug, PartialEq, Eq, PartialOrd, Ord)]
pub struct Ranked<const N: usize> {
    pub weight: Reverse<Weights<N>>,
    pub item: u32,
    pub form: u32,
}
