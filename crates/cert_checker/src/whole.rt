//! Whole certificates.

ghost use Rattle.std.specs.Prelude.{◌≡◌, [], ◌∷◌, ◌++◌, ◌+◌, ◌<◌, ◌≤◌, List, IfErr, IfOk, IfSome, OnOk, length, map};
ghost use Rattle.packing_laws.specs.Instances.{InstanceValue, IsAmong};
ghost use Rattle.flow_graph.specs.Arcs.{TypeValue};
ghost use Rattle.cert_checker.specs.inner.Standing.{most_lines};
ghost use Rattle.flow_graph.specs.Faithful.{GraphOf, IsFaithful};
ghost use Rattle.cert_text.specs.declared.lines.CertLine.{CertLine};
ghost use Rattle.cert_text.specs.Lines.{lines_of};
ghost use Rattle.cert_laws.specs.Shown.{IsCertified, IsFault, Shows};
ghost use Rattle.cert_checker.specs.Faults.{refusal_of};
ghost use Rattle.cert_checker.specs.inner.Taken.{HasTaken, IsTakenFault, head_lines};

use crate::checker::Checker;
use crate::faults::CheckFault;
use arc_num::{Gate, MAX_WORKERS, NoGate};
use cert_laws::certified_is_so;
use cert_text::{Certificate, Claim, TreeLine};
use flow_graph::FlowGraph;
use packing_laws::Instance;
use std::alloc::Global;
use std::thread::Threads;

/// Checks a whole certificate: its head is line 1, its claim line 2, its places of the tree follow, and then its end. Leaves are
/// judged side by side, by as many workers as there are; each passes the gate once before, by its number among the leaves, as far as
/// numbers go. The result depends neither on the number of workers nor on the gate. Over a faithful graph no packing costs less
/// than a bound that is answered, or there is none.
pub fn check_gated<R: Threads + Sync, G: Gate + Sync>(
    rt: &R,
    alloc: Global,
    instance: &Instance,
    graph: &FlowGraph,
    certificate: &Certificate,
    workers: u32,
    gate: &G,
) -> Result<Claim, CheckFault>
    requires graph { GraphOf instance.now graph.now }
    requires workers { IsAmong workers MAX_WORKERS }
    ensures certified { IfOk result (λ claim. IsCertified instance.now graph.now (lines_of certificate.now) claim) }
    ensures refused { IfErr result (λ fault. IfSome (refusal_of fault) (λ r. IsFault instance.now graph.now (lines_of certificate.now) r.0 r.1)) }
    ensures shown { IsFaithful instance.now graph.now → IfOk result (λ claim. Shows instance.now claim) }
{
    certified_is_so();
    instance.known();
    graph.known();
    let mut checker = Checker::new(alloc, instance, graph)?;
    match begin(&mut checker, certificate) {
        Ok(()) => {}
        Err(fault) => return Err(fault),
    }
    let places = certificate.lines.as_slice();
    match go_through(rt, &mut checker, places, workers, gate) {
        Ok(()) => {}
        Err(fault) => return Err(fault),
    }
    end(checker)
}

/// `check_gated` without a gate.
pub fn check<R: Threads + Sync>(
    rt: &R,
    alloc: Global,
    instance: &Instance,
    graph: &FlowGraph,
    certificate: &Certificate,
    workers: u32,
) -> Result<Claim, CheckFault>
    requires graph { GraphOf instance.now graph.now }
    requires workers { IsAmong workers MAX_WORKERS }
    ensures certified { IfOk result (λ claim. IsCertified instance.now graph.now (lines_of certificate.now) claim) }
    ensures refused { IfErr result (λ fault. IfSome (refusal_of fault) (λ r. IsFault instance.now graph.now (lines_of certificate.now) r.0 r.1)) }
    ensures shown { IsFaithful instance.now graph.now → IfOk result (λ claim. Shows instance.now claim) }
{
    check_gated(rt, alloc, instance, graph, certificate, workers, &NoGate)
}

// Takes the head and the claim.
fn begin(checker: &mut Checker<'_>, certificate: &Certificate) -> Result<(), CheckFault>
    requires { checker.old.progress.count ≡ 0 }
    ensures ok { (I : InstanceValue) (g : List TypeValue) → HasTaken I g [] checker.old → OnOk result (HasTaken I g (head_lines certificate.now) checker.new) }
    ensures err { (I : InstanceValue) (g : List TypeValue) → HasTaken I g [] checker.old → IfErr result (IsTakenFault I g [] (head_lines certificate.now)) }
{
    match checker.step_head(certificate.version) {
        Ok(()) => {}
        Err(fault) => return Err(fault),
    }
    match checker.step_claim(certificate.claim, certificate.goal) {
        Ok(()) => Ok(()),
        Err(fault) => Err(fault),
    }
}

// Takes the places of the tree.
fn go_through<R: Threads + Sync, G: Gate + Sync>(
    rt: &R,
    checker: &mut Checker<'_>,
    places: &[TreeLine],
    workers: u32,
    gate: &G,
) -> Result<(), CheckFault>
    requires few { checker.old.progress.count + length places.now ≤ most_lines }
    ensures ok { (I : InstanceValue) (g : List TypeValue) (before : List CertLine) → HasTaken I g before checker.old → OnOk result (HasTaken I g (before ++ map (λ l. CertLine.Tree l) places.now) checker.new) }
    ensures err { (I : InstanceValue) (g : List TypeValue) (before : List CertLine) → HasTaken I g before checker.old → IfErr result (IsTakenFault I g before (map (λ l. CertLine.Tree l) places.now)) }
{
    checker.step_all(rt, places, workers, gate)
}

// Takes the end, and answers what the certificate shows.
fn end(mut checker: Checker<'_>) -> Result<Claim, CheckFault>
    requires { checker.progress.count < most_lines }
    ensures ok { (I : InstanceValue) (g : List TypeValue) (before : List CertLine) → HasTaken I g before checker.entry → IfOk result (λ claim. IsCertified I g (before ++ CertLine.End ∷ []) claim) }
    ensures err { (I : InstanceValue) (g : List TypeValue) (before : List CertLine) → HasTaken I g before checker.entry → IfErr result (λ fault. IfSome (refusal_of fault) (λ r. IsFault I g (before ++ CertLine.End ∷ []) r.0 r.1)) }
{
    match checker.step_end() {
        Ok(()) => {}
        Err(fault) => return Err(fault),
    }
    checker.finish()
}
