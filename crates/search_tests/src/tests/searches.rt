//! Whole searches, with certificates that are written and judged.

ghost use Rattle.flow_graph.specs.Faithful.{IsFaithful};
ghost use Rattle.arc_num.specs.declared.TheConstants.{MAX_SPLITS};
ghost use Rattle.std.specs.Prelude.{◌≤◌};

use super::fixtures::{ONE_CHEAP, THREE_HALVES, THREE_LARGE, Told, instance_of};
use arc_compile::compile;
use branch_search::{Outcome, search};
use cert_stream::{Judge, Verdict};
use cert_text::{Certificate, Claim, write_certificate};
use flow_graph::FlowGraph;
use flow_model::{graph_of_two, three_of_one};
use packing_laws::{Instance, Packing, cost};
use pattern_extract::examples_come_out;
use std::alloc::Global;
use std::test::Fail;
use std::thread::Threads;

fn needs_send<T: Send + Sync>(_value: &T) {}

/// One bin of each of two types, and two units that fill one each.
const ONE_OF_EACH: Told<'static> = (&[(10, 1, Some(1)), (7, 2, Some(1))], &[(6, 2)]);

/// Two units, and one bin that holds them alone.
const ONE_TOO_FEW: Told<'static> = (&[(10, 1, Some(1)), (5, 1, None)], &[(6, 2)]);

/// A unit that fits no bin.
const TOO_LARGE: Told<'static> = (&[(10, 1, None)], &[(3, 1), (11, 1)]);

/// Nothing that is asked for.
const NOTHING: Told<'static> = (&[(10, 1, None)], &[(6, 0)]);

/// What a search answers.
#[derive(Clone, Copy, Debug, PartialEq, Eq)]
enum Answer {
    /// What the packing costs.
    Optimal(u128),
    Infeasible,
    /// A bound, and what the packing costs.
    Bracket(u64, u128),
    /// A bound where no packing is known.
    Open(u64),
}

fn answer_of(instance: &Instance, outcome: &Outcome) -> Answer {
    match outcome {
        Outcome::Optimal { packing, .. } => Answer::Optimal(cost(instance, packing)),
        Outcome::Infeasible { .. } => Answer::Infeasible,
        Outcome::Bracket { lower, packing, .. } => bracket_of(instance, *lower, packing),
    }
}

fn bracket_of(instance: &Instance, lower: u64, packing: &Option<Packing>) -> Answer {
    match packing {
        Some(packing) => Answer::Bracket(lower, cost(instance, packing)),
        None => Answer::Open(lower),
    }
}

fn certificate_of(outcome: &Outcome) -> &Certificate {
    match outcome {
        Outcome::Optimal { certificate, .. } => certificate,
        Outcome::Infeasible { certificate } => certificate,
        Outcome::Bracket { certificate, .. } => certificate,
    }
}

/// What the text of a certificate comes to.
fn verdict_of<R: Threads + Sync>(
    rt: &R,
    alloc: Global,
    instance: &Instance,
    graph: &FlowGraph,
    certificate: &Certificate,
) -> Result<Verdict, Fail>
    requires { IsFaithful instance.now graph.now }
{
    let text = write_certificate(alloc, certificate)?;
    let mut judge = Judge::new(alloc, instance, graph, 2)?;
    judge.feed(rt, text.as_slice())?;
    Ok(judge.finish(rt)?)
}

/// The answer of a search, how many lines its tree has, and what the text of its certificate comes to.
type Seen = (Answer, usize, Verdict);

fn seen<R: Threads + Sync>(
    rt: &R,
    alloc: Global,
    instance: &Instance,
    graph: &FlowGraph,
    budget: u32,
) -> Result<Seen, Fail>
    requires faithful { IsFaithful instance.now graph.now }
    requires budget { budget ≤ MAX_SPLITS }
{
    let outcome = search(alloc, instance, graph, budget)?;
    needs_send(&outcome);
    let certificate = certificate_of(&outcome);
    let verdict = verdict_of(rt, alloc, instance, graph, certificate)?;
    let lines = certificate.lines.as_slice().len();
    Ok((answer_of(instance, &outcome), lines, verdict))
}

fn seen_of<R: Threads + Sync>(
    rt: &R,
    alloc: Global,
    told: Told<'_>,
    budget: u32,
) -> Result<Seen, Fail>
    requires { budget ≤ MAX_SPLITS }
{
    let instance = instance_of(alloc, told)?.ok_or("no instance")?;
    let compiled = compile(rt, alloc, &instance, 1)?;
    seen(rt, alloc, &instance, &compiled.graph, budget)
}

#[test]
fn three_units_are_bracketed_without_a_split(rt: HostRuntime) -> Result<(), Fail> {
    let alloc = rt.alloc();
    let instance = three_of_one(alloc)?.ok_or("no instance")?;
    let graph = graph_of_two(alloc)?;
    examples_come_out();
    let verdict = Verdict::Shown(Claim::Bound(5));
    assert_eq!(rt;
        seen(&rt, alloc, &instance, &graph, 0)?,
        (Answer::Bracket(5, 6), 1, verdict)
    );
    Ok(())
}

#[test]
fn three_units_are_packed_best_with_a_split(rt: HostRuntime) -> Result<(), Fail> {
    let alloc = rt.alloc();
    let instance = three_of_one(alloc)?.ok_or("no instance")?;
    let graph = graph_of_two(alloc)?;
    examples_come_out();
    let verdict = Verdict::Shown(Claim::Bound(6));
    assert_eq!(rt;
        seen(&rt, alloc, &instance, &graph, 20)?,
        (Answer::Optimal(6), 3, verdict)
    );
    Ok(())
}

/// Instances, how many splits are granted, and what the search answers with how many lines.
const SEARCHES: [(Told<'static>, u32, Answer, usize); 9] = [
    (THREE_LARGE, 0, Answer::Optimal(3), 1),
    (THREE_HALVES, 0, Answer::Bracket(5, 6), 1),
    (THREE_HALVES, 1, Answer::Optimal(6), 3),
    (THREE_HALVES, 1_000, Answer::Optimal(6), 3),
    (ONE_CHEAP, 1_000, Answer::Optimal(6), 1),
    (ONE_OF_EACH, 1_000, Answer::Optimal(3), 1),
    (ONE_TOO_FEW, 1_000, Answer::Infeasible, 1),
    (TOO_LARGE, 0, Answer::Infeasible, 1),
    (NOTHING, 0, Answer::Optimal(0), 1),
];

/// What the certificate of an answer claims.
fn claim_of(answer: Answer) -> Claim {
    match answer {
        Answer::Optimal(cost) => Claim::Bound(u64::try_from(cost).unwrap_or(u64::MAX)),
        Answer::Infeasible => Claim::Empty,
        Answer::Bracket(lower, _) => Claim::Bound(lower),
        Answer::Open(lower) => Claim::Bound(lower),
    }
}

#[test]
fn searches_end_with_the_optimum(rt: HostRuntime) -> Result<(), Fail> {
    let alloc = rt.alloc();
    for (told, budget, answer, lines) in SEARCHES {
        let wanted = (answer, lines, Verdict::Shown(claim_of(answer)));
        assert_eq!(rt; seen_of(&rt, alloc, told, budget.min(20_000))?, wanted);
    }
    Ok(())
}
