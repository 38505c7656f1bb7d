//! The rules that a line of a certificate may break, in the order in which they are looked at.

/// Why a line is refused.
#[derive(Clone, Copy, Debug, PartialEq, Eq)]
pub enum Cause {
    /// No line that may stand at its place.
    Text,
    /// It stands behind the end, or is a place of the tree where no box is open.
    Extra,
    /// The end while boxes are open.
    Unfinished,
    /// A priced item does not exist.
    NoItem,
    /// An arc does not exist.
    NoArc,
    /// The split leaves no number of the arc's range on one side.
    NotSplit,
    /// The need is no flow in fractions that costs less than the goal.
    NotNeeded,
    /// There is no such step.
    NotStep,
    /// The gain of a type, by its number from 1, is above its cost.
    Gain { t: u32 },
    /// The box is not closed.
    Weak,
}
