//! What stands at the places of a search tree.

use arc_num::Listed;
use cert_text::{Claim, Need, Prices};

/// The range that a split left to an arc, by the arc's number from 1; both ends are included.
#[derive(Clone, Copy, Debug, PartialEq, Eq)]
pub struct Cut {
    pub arc: u32,
    pub lower: u32,
    pub upper: u32,
}

/// A split of a box in the range of an arc: up to k, and from k + 1 on.
#[derive(Clone, Copy, Debug, PartialEq, Eq)]
pub struct SplitAt {
    pub arc: u32,
    pub k: u32,
}

/// What is known of a box: prices, and what they show of it.
#[derive(Clone, Debug, PartialEq, Eq, Drop)]
pub struct Shown {
    pub prices: Prices,
    pub claim: Claim,
}

/// A place of a tree: its box, as cuts of the root box, what is known of the box, and how it is split.
#[derive(Debug, Drop)]
pub struct Place {
    /// One range after the other, as the splits on the way gave them.
    pub cuts: Listed<Cut>,
    pub shown: Shown,
    pub split: Option<SplitAt>,
    /// A flow in fractions that may show that no prices spare the split.
    pub need: Option<Need>,
}
