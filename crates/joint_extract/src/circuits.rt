use arc_num::Listed;
use packing_laws::Bin;

/// The arcs, by number, of a path to the target of a type and the type's bin arc, and the bin that holds what they carry, with
/// how often they are used.
#[derive(Debug, Drop)]
pub(crate) struct Circuit {
    pub bin: Bin,
    pub arcs: Listed<u32>,
}
