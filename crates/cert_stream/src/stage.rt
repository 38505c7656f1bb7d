//! How a judge stands.

ghost use Rattle.std.specs.Prelude.{◌≡◌};
ghost use Rattle.cert_checker.specs.Faults.{refusal_of};
ghost use Rattle.cert_stream.specs.inner.Stages.{stage_of};

use crate::verdict::Verdict;
use cert_checker::CheckFault;
use cert_laws::Cause;

/// How a judge stands.
#[derive(Clone, Copy, Debug, PartialEq, Eq)]
pub(crate) enum Stage {
    /// Nothing is wrong so far.
    Open,
    /// The verdict is certain, however the text goes on.
    Certain(Verdict),
    /// There was not enough memory, and nothing is known any more.
    Spent,
}

fn faulty(line: u64, cause: Cause) -> Stage
    ensures { result ≡ Stage.Certain (Verdict.Faulty line cause) }
{
    Stage::Certain(Verdict::Faulty { line, cause })
}

/// How a judge stands behind a fault.
pub(crate) fn behind(fault: CheckFault) -> Stage
    ensures { result ≡ stage_of (refusal_of fault) }
{
    match fault {
        CheckFault::Text { line } => faulty(line, Cause::Text),
        CheckFault::Extra { line } => faulty(line, Cause::Extra),
        CheckFault::Unfinished { line } => faulty(line, Cause::Unfinished),
        CheckFault::NoItem { line } => faulty(line, Cause::NoItem),
        CheckFault::NoArc { line } => faulty(line, Cause::NoArc),
        CheckFault::NotSplit { line } => faulty(line, Cause::NotSplit),
        CheckFault::NotNeeded { line } => faulty(line, Cause::NotNeeded),
        CheckFault::NotStep { line } => faulty(line, Cause::NotStep),
        CheckFault::Gain { line, t } => faulty(line, Cause::Gain { t }),
        CheckFault::Weak { line } => faulty(line, Cause::Weak),
        CheckFault::Memory => Stage::Spent,
    }
}
