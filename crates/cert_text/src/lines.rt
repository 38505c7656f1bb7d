//! What the lines of a certificate say. The values of these types need not keep any rule.

use arc_num::Listed;

/// The price of a unit of an item, by the item's number from 1.
#[derive(Clone, Copy, Debug, PartialEq, Eq)]
pub struct ItemPrice {
    pub item: u32,
    pub price: u64,
}

/// The price of a unit of flow on an arc, by the arc's number from 1.
#[derive(Clone, Copy, Debug, PartialEq, Eq)]
pub struct ArcPrice {
    pub arc: u32,
    pub price: i64,
}

/// Dual prices. Items and arcs that are not listed have the price 0; all prices are in units of one part in `scale` of
/// a cost, or without a measure where the scale is 0.
#[derive(Clone, Debug, PartialEq, Eq, Drop)]
pub struct Prices {
    pub scale: u64,
    pub items: Listed<ItemPrice>,
    pub arcs: Listed<ArcPrice>,
}

/// What a certificate shows.
#[derive(Clone, Copy, Debug, PartialEq, Eq)]
pub enum Claim {
    /// No packing costs less.
    Bound(u64),
    /// There is no packing.
    Empty,
}

/// The flow on an arc, by the arc's number from 1, in units of one part in the scale of its need.
#[derive(Clone, Copy, Debug, PartialEq, Eq)]
pub struct ArcPart {
    pub arc: u32,
    pub value: u64,
}

/// Why no prices could have spared a split: a flow in fractions that costs less than the goal. Arcs that are not listed
/// carry nothing.
#[derive(Clone, Debug, PartialEq, Eq, Drop)]
pub struct Need {
    pub scale: u64,
    pub parts: Listed<ArcPart>,
}

/// A place of the tree, which stands in preorder: what is split is followed by its low part and then by its high part.
#[derive(Clone, Debug, PartialEq, Eq, Drop)]
pub enum TreeLine {
    /// The box is split in the range of an arc: up to k, and from k + 1 on.
    Split { arc: u32, k: u32 },
    /// A split that carries its need.
    Needed { arc: u32, k: u32, need: Need },
    /// The prices close the box.
    Leaf(Prices),
    /// The step value of a dimension, by its number from 1, and a step closes the box.
    Step { dim: u32, step: u32 },
}

/// A certificate of version 1, 2 or 3. From version 2 on a claimed bound has a goal: the bound, or one more.
#[derive(Clone, Debug, PartialEq, Eq, Drop)]
pub struct Certificate {
    pub version: u32,
    pub claim: Claim,
    pub goal: Option<u64>,
    pub lines: Listed<TreeLine>,
}

/// A line of a certificate's text.
#[derive(Clone, Debug, PartialEq, Eq, Drop)]
pub enum CertLine {
    Head { version: u32 },
    Claim { claim: Claim, goal: Option<u64> },
    Tree(TreeLine),
    End,
}
