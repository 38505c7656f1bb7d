//! The command `bound`: a bound from the weights alone, and its certificate.

ghost use Rattle.std.specs.Prelude.{◌≡◌, None, IfOk};
ghost use Rattle.bound_certificates.specs.FoundBounds.{IsFound};
ghost use Rattle.arc_program.specs.Statuses.{IsReported};
ghost use Rattle.arc_program.specs.Reports.{bound_text};
ghost use Rattle.arc_program.specs.commands.Bound.{IsBoundReport, IsBoundCertificate, IsBoundCertificateIf};

use crate::commands::Report;
use crate::loading::Text;
use crate::reports::bound_text;
use crate::status::Status;
use arc_num::Memory;
use bound_certificates::{FoundBound, bound_certificate, find_bound};
use cert_text::write_certificate;
use packing_laws::Instance;
use std::alloc::Global;
use written_verdicts::few_splits_are_shown;

/// The text of the certificate of a bound that was found for the instance.
fn certificate_text(alloc: Global, instance: &Instance, found: FoundBound) -> Result<Text, Memory>
    requires { IsFound instance.now found }
    ensures { IfOk result (IsBoundCertificate instance.now (bound_text found)) }
{
    instance.known();
    few_splits_are_shown();
    let certificate = bound_certificate(alloc, instance, found)?;
    Ok(Text::new(write_certificate(alloc, &certificate)?))
}

/// The text of the certificate, where one is asked for.
fn certificate_if(
    alloc: Global,
    instance: &Instance,
    found: FoundBound,
    certified: bool,
) -> Result<Option<Text>, Memory>
    requires { IsFound instance.now found }
    ensures { IfOk result (IsBoundCertificateIf certified instance.now (bound_text found)) }
{
    if certified {
        Ok(Some(certificate_text(alloc, instance, found)?))
    } else {
        Ok(None)
    }
}

/// The report of `bound`, with its certificate where one is asked for.
pub fn report(alloc: Global, instance: &Instance, certified: bool) -> Result<Report, Memory>
    ensures reported { IfOk result (λ report. IsReported report.status) }
    ensures text { IfOk result (λ report. IsBoundReport instance.now report.status report.text) }
    ensures unmade { IfOk result (λ report. report.made ≡ None) }
    ensures certificate { IfOk result (λ report. IsBoundCertificateIf certified instance.now report.text report.certificate) }
{
    let found = find_bound(instance);
    let text = Text::new(bound_text(alloc, found)?);
    let certificate = certificate_if(alloc, instance, found, certified)?;
    Ok(Report {
        text,
        status: Status::Done,
        made: None,
        certificate,
    })
}
