use arc_num::Listed;

/// A path of a type from its source to its target, and how often it is used. The arcs are those of the path in order,
/// by number, without the bin arc.
#[derive(Clone, Debug, PartialEq, Eq, Drop)]
pub struct PathRun {
    pub t: u32,
    pub times: u64,
    pub arcs: Listed<u32>,
}
