/// An arc of a type between two of its nodes, which are numbered from 1. It carries one unit of a form of an item, or
/// nothing: then item and form are 0.
#[derive(Clone, Copy, Debug, PartialEq, Eq, PartialOrd, Ord)]
pub struct TypeArc {
    pub tail: u32,
    pub head: u32,
    pub item: u32,
    pub form: u32,
}

/// What an arc of the row is. `t` is its type, from 1.
#[derive(Clone, Copy, Debug, PartialEq, Eq)]
pub enum ArcKind {
    /// From the target of the type back to its source: a bin of the type.
    Bin {
        t: u32,
    },
    /// Carries nothing.
    Loss {
        t: u32,
        tail: u32,
        head: u32,
    },
    /// Carries one unit of a form of an item.
    Piece {
        t: u32,
        tail: u32,
        head: u32,
        item: u32,
        form: u32,
    },
}
