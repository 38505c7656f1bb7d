use arc_num::Listed;

/// A list of numbers: weights or capacities, one for each dimension.
pub type Numbers = Listed<u32>;

/// A list of vectors: the forms of an item.
pub type Vectors = Listed<Numbers>;
