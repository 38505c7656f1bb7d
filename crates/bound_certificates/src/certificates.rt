ghost use Rattle.std.specs.Prelude.{IfOk};
ghost use Rattle.bound_certificates.specs.FoundBounds.{IsAcceptedOver, IsCertificateOf, IsFound, IsTreeOf};

use crate::found::{BoundKind, FoundBound};
use crate::laws::found_bounds_are_accepted;
use crate::material::material_prices;
use arc_num::{Listed, Memory};
use cert_text::{Certificate, Claim, TreeLine};
use packing_laws::Instance;
use std::alloc::Global;

/// The certificate of a bound that was found for the instance, of version 3 and with one place of the tree. It is accepted
/// over each faithful graph of the instance.
pub fn bound_certificate(
    alloc: Global,
    instance: &Instance,
    found: FoundBound,
) -> Result<Certificate, Memory>
    requires { IsFound instance.now found }
    ensures told { IfOk result (IsCertificateOf instance.now found) }
    ensures accepted { IfOk result (λ c. IsAcceptedOver instance.now c found.bound) }
{
    instance.known();
    found_bounds_are_accepted();
    let mut lines = Listed::empty(alloc);
    lines.push(tree_line(alloc, instance, found.kind)?)?;
    Ok(Certificate {
        version: 3,
        claim: Claim::Bound(found.bound),
        goal: Some(found.bound),
        lines,
    })
}

/// The place of the tree that closes the root box.
fn tree_line(alloc: Global, instance: &Instance, kind: BoundKind) -> Result<TreeLine, Memory>
    ensures { IfOk result (IsTreeOf instance.now kind) }
{
    match kind {
        BoundKind::Step { dim, step } => Ok(TreeLine::Step { dim, step }),
        BoundKind::Material => Ok(TreeLine::Leaf(material_prices(alloc, instance)?)),
    }
}
