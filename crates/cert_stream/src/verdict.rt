//! What the text of a certificate comes to.

use cert_laws::Cause;
use cert_text::Claim;

/// What the text of a certificate comes to.
#[derive(Clone, Copy, Debug, PartialEq, Eq)]
pub enum Verdict {
    /// It is accepted to its end, and shows this.
    Shown(Claim),
    /// Its first faulty line, by its number from 1, and what is wrong there. Where the text ends too early, the number is that of
    /// the line that is not whole, or not there.
    Faulty { line: u64, cause: Cause },
    /// It is longer than a certificate may be, and nothing is wrong up to there.
    TooLong,
}
