use cert_text::Certificate;
use packing_laws::Packing;

/// What a search answers. The certificates are of version 2, and accepted.
#[derive(Debug, Drop)]
pub enum Outcome {
    /// No packing is cheaper; the certificate claims its cost.
    Optimal {
        packing: Packing,
        certificate: Certificate,
    },
    /// There is no packing; the certificate claims that.
    Infeasible {
        certificate: Certificate,
    },
    /// No packing costs less than `lower`, which the certificate claims with all splits that were granted; the packing costs more.
    Bracket {
        lower: u64,
        packing: Option<Packing>,
        certificate: Certificate,
    },
}
