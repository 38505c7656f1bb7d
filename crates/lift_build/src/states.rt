use weight_vec::Weights;

/// At this piece, with so many copies of it taken and this weight used. Both numbers may be lifted.
#[derive(Clone, Copy, Debug, PartialEq, Eq, Hash)]
pub struct LiftedState<const N: usize> {
    pub piece: u32,
    pub copies: u32,
    pub used: Weights<N>,
}
