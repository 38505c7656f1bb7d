use arc_num::Listed;

/// A whole number for each arc, by number. It need not keep any rule.
#[derive(Clone, Debug, PartialEq, Eq, Drop)]
pub struct Flow {
    pub values: Listed<u64>,
}

/// A row of the model that a flow has to meet.
#[derive(Clone, Copy, Debug, PartialEq, Eq)]
pub enum FlowRow {
    /// What comes into a node of a type goes out of it.
    Node { t: u32, node: u32 },
    /// The arcs of an item carry at least its demand.
    Demand { item: u32 },
    /// The value of an arc is in its range of the root box.
    Bound { arc: u32 },
}
