/// A row of the joint model that a flow has to meet.
#[derive(Clone, Copy, Debug, PartialEq, Eq)]
pub enum JointRow {
    /// What comes into a node goes out of it.
    Node { node: u32 },
    /// The arcs of an item carry at least its demand.
    Demand { item: u32 },
    /// The value of an arc is in its range.
    Bound { arc: u32 },
}
