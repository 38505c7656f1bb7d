use weight_vec::Weights;

/// At this piece, with so many copies of it taken and this weight used.
#[derive(Clone, Copy, Debug, PartialEq, Eq, PartialOrd, Ord)]
pub struct State<const N: usize> {
    pub piece: u32,
    pub copies: u32,
    pub used: Weights<N>,
}
