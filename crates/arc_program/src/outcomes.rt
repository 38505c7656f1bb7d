//! The texts on what a search found out.

ghost use Rattle.std.specs.Prelude.{◌≡◌, ◌++◌, OnOk, IfOk};
ghost use Rattle.search_tree.specs.Trees.{splits_box, splits_in};
ghost use Rattle.arc_program.specs.Reports.{bins_text, bins_in, first_line, between_line, certificate_in, is_plain, plain_in, splits_line, outcome_text, seed_and_size, units_and_material, size_line, size_lines, generated_text};

use crate::reports::{push_bins, push_main_and_final};
use arc_compile::{Compiled, TypeSize};
use arc_num::{Memory, push_bytes, push_number};
use branch_search::Outcome;
use cert_text::{Certificate, TreeLine};
use packing_laws::{Instance, Packing, cost, material_bound};
use std::alloc::Global;

fn push_between(
    out: &mut Vec<u8>,
    instance: &Instance,
    lower: u64,
    packing: &Option<Packing>,
) -> Result<(), Memory>
    ensures { OnOk result (out.new.items ≡ out.old.items ++ between_line instance.now lower packing.now) }
{
    push_bytes(out, b"bracket ")?;
    push_number(out, u128::from(lower))?;
    match packing {
        Some(packing) => {
            push_bytes(out, b" ")?;
            push_number(out, cost(instance, packing))?;
            push_bytes(out, b"\n")
        }
        None => push_bytes(out, b" none\n"),
    }
}

fn push_first_line(out: &mut Vec<u8>, instance: &Instance, outcome: &Outcome) -> Result<(), Memory>
    ensures { OnOk result (out.new.items ≡ out.old.items ++ first_line instance.now outcome.now) }
{
    match outcome {
        Outcome::Optimal { packing, .. } => {
            push_bytes(out, b"optimal ")?;
            push_number(out, cost(instance, packing))?;
            push_bytes(out, b"\n")
        }
        Outcome::Infeasible { .. } => push_bytes(out, b"infeasible\n"),
        Outcome::Bracket { lower, packing, .. } => push_between(out, instance, *lower, packing),
    }
}

fn push_bins_of(out: &mut Vec<u8>, outcome: &Outcome) -> Result<(), Memory>
    ensures { OnOk result (out.new.items ≡ out.old.items ++ bins_text (bins_in outcome.now)) }
{
    match outcome {
        Outcome::Optimal { packing, .. } => push_bins(out, packing.bins()),
        Outcome::Infeasible { .. } => Ok(()),
        Outcome::Bracket { packing, .. } => match packing {
            Some(packing) => push_bins(out, packing.bins()),
            None => Ok(()),
        },
    }
}

/// The certificate of an outcome.
fn certificate_of(outcome: &Outcome) -> &Certificate
    ensures { result.now ≡ certificate_in outcome.now }
{
    match outcome {
        Outcome::Optimal { certificate, .. } => certificate,
        Outcome::Infeasible { certificate } => certificate,
        Outcome::Bracket { certificate, .. } => certificate,
    }
}

/// The certificate of an outcome, given away.
pub fn into_certificate(outcome: Outcome) -> Certificate
    ensures { result ≡ certificate_in outcome }
{
    match outcome {
        Outcome::Optimal { certificate, .. } => certificate,
        Outcome::Infeasible { certificate } => certificate,
        Outcome::Bracket { certificate, .. } => certificate,
    }
}

/// Whether a line is a split, with a need or without.
fn is_split(line: &TreeLine) -> bool
    ensures { result ≡ splits_box line.now }
{
    match line {
        TreeLine::Split { .. } => true,
        TreeLine::Needed { .. } => true,
        TreeLine::Leaf(_) => false,
        TreeLine::Step { .. } => false,
    }
}

/// Whether a line is a split that carries no need.
fn is_plain(line: &TreeLine) -> bool
    ensures { result ≡ is_plain line.now }
{
    match line {
        TreeLine::Split { .. } => true,
        TreeLine::Needed { .. } => false,
        TreeLine::Leaf(_) => false,
        TreeLine::Step { .. } => false,
    }
}

/// How many lines are splits.
fn split_count(lines: &[TreeLine]) -> u128
    ensures { result ≡ splits_in lines.now }
{
    let mut count = 0u128;
    for line in lines {
        if is_split(line) {
            count += 1;
        }
    }
    count
}

/// How many lines are splits that carry no need.
fn plain_count(lines: &[TreeLine]) -> u128
    ensures { result ≡ plain_in lines.now }
{
    let mut count = 0u128;
    for line in lines {
        if is_plain(line) {
            count += 1;
        }
    }
    count
}

fn push_splits_line(out: &mut Vec<u8>, lines: &[TreeLine]) -> Result<(), Memory>
    ensures { OnOk result (out.new.items ≡ out.old.items ++ splits_line lines.now) }
{
    push_bytes(out, b"splits ")?;
    push_number(out, split_count(lines))?;
    push_bytes(out, b" plain ")?;
    push_number(out, plain_count(lines))?;
    push_bytes(out, b"\n")
}

/// The report of `solve` on an instance.
pub fn solve_text(alloc: Global, instance: &Instance, outcome: &Outcome) -> Result<Vec<u8>, Memory>
    ensures { IfOk result (λ text. text.items ≡ outcome_text instance.now outcome.now) }
{
    let mut out = Vec::new(alloc);
    push_first_line(&mut out, instance, outcome)?;
    push_bins_of(&mut out, outcome)?;
    push_splits_line(&mut out, certificate_of(outcome).lines.as_slice())?;
    Ok(out)
}

fn push_seed_and_size(out: &mut Vec<u8>, seed: u64, size: u32) -> Result<(), Memory>
    ensures { OnOk result (out.new.items ≡ out.old.items ++ seed_and_size seed size) }
{
    push_bytes(out, b"make ")?;
    push_number(out, u128::from(seed))?;
    push_bytes(out, b" ")?;
    push_number(out, u128::from(size))
}

fn push_units_and_material(out: &mut Vec<u8>, instance: &Instance) -> Result<(), Memory>
    ensures { OnOk result (out.new.items ≡ out.old.items ++ units_and_material instance.now) }
{
    push_bytes(out, b" units ")?;
    push_number(out, u128::from(instance.units()))?;
    push_bytes(out, b" material ")?;
    push_number(out, material_bound(instance))?;
    push_bytes(out, b"\n")
}

fn push_size_line(out: &mut Vec<u8>, t: usize, size: TypeSize) -> Result<(), Memory>
    ensures { OnOk result (out.new.items ≡ out.old.items ++ size_line t size) }
{
    push_bytes(out, b"type ")?;
    push_number(out, t as u128)?;
    push_main_and_final(out, size)
}

fn push_size_lines(out: &mut Vec<u8>, sizes: &[TypeSize]) -> Result<(), Memory>
    ensures { OnOk result (out.new.items ≡ out.old.items ++ size_lines 1 sizes.now) }
{
    for (t, size) in sizes.iter().enumerate() {
        push_size_line(out, t + 1, *size)?;
    }
    Ok(())
}

/// The report of `make`: the instance that was generated from a seed with so many items, its sizes compiled, and the first line
/// on what was found out of it.
pub fn make_text(
    alloc: Global,
    seed: u64,
    size: u32,
    instance: &Instance,
    compiled: &Compiled,
    outcome: &Outcome,
) -> Result<Vec<u8>, Memory>
    ensures { IfOk result (λ text. text.items ≡ generated_text seed size instance.now compiled.now.sizes outcome.now) }
{
    let mut out = Vec::new(alloc);
    push_seed_and_size(&mut out, seed, size)?;
    push_units_and_material(&mut out, instance)?;
    push_size_lines(&mut out, compiled.sizes.as_slice())?;
    push_first_line(&mut out, instance, outcome)?;
    Ok(out)
}
