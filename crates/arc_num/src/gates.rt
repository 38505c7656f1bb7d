/// A place that each piece of parallel work passes before it is begun, as a test may watch.
pub trait Gate {
    /// Lets through the piece of this number, counted from 1.
    fn pass(&self, piece: u32);
}

/// The gate that lets everything through at once.
#[derive(Clone, Copy, Debug)]
pub struct NoGate;

impl Gate for NoGate {
    fn pass(&self, _piece: u32) {}
}
