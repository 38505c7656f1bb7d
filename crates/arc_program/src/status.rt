ghost use Rattle.std.specs.Prelude.{◌≡◌};
ghost use Rattle.arc_program.specs.Statuses.{code_of};

/// How a run ended. `code` is the exit status of the program.
#[derive(Clone, Copy, Debug, PartialEq, Eq)]
pub enum Status {
    /// The report was taken whole.
    Done,
    /// The report was taken whole: a bound, and a packing above it or none at all.
    Bracketed,
    /// The words ask for nothing.
    Usage,
    /// The text is no instance, or too long for one.
    BadInstance,
    /// The text is no certificate that is accepted.
    BadCertificate,
    /// The instance could not be read.
    ReadFault,
    /// The report could not be written.
    WriteFault,
    /// Want of memory.
    NoMemory,
    /// The graphs have too many arcs.
    TooLarge,
    /// The text is no solution of the exported model.
    BadSolution,
}

impl Status {
    /// The exit status of the program: 0 to 9, in the order above.
    pub fn code(&self) -> u8
        ensures { result ≡ code_of self.now }
    {
        match self {
            Status::Done => 0,
            Status::Bracketed => 1,
            Status::Usage => 2,
            Status::BadInstance => 3,
            Status::BadCertificate => 4,
            Status::ReadFault => 5,
            Status::WriteFault => 6,
            Status::NoMemory => 7,
            Status::TooLarge => 8,
            Status::BadSolution => 9,
        }
    }
}
