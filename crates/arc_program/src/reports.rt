//! The texts of reports.

ghost use Rattle.std.specs.Prelude.{◌≡◌, ◌++◌, OnOk, IfOk, length};
ghost use Rattle.arc_program.specs.Reports.{count_text, counts_text, bin_text, bins_text, kind_text, bound_text, dims_and_types, items_and_units, size_text, type_and_level, main_and_final, type_lines, arcs_line, graphs_text};
ghost use Rattle.flow_graph.specs.Arcs.{numbered};

use arc_compile::{Compiled, TypeSize};
use arc_num::{Memory, push_bytes, push_number};
use bound_certificates::{BoundKind, FoundBound};
use packing_laws::{Bin, Count, Instance};
use std::alloc::Global;

fn push_count(out: &mut Vec<u8>, count: Count) -> Result<(), Memory>
    ensures { OnOk result (out.new.items ≡ out.old.items ++ count_text count) }
{
    push_bytes(out, b" ")?;
    push_number(out, u128::from(count.item))?;
    push_bytes(out, b".")?;
    push_number(out, u128::from(count.form))?;
    push_bytes(out, b"*")?;
    push_number(out, u128::from(count.count))
}

fn push_counts(out: &mut Vec<u8>, counts: &[Count]) -> Result<(), Memory>
    ensures { OnOk result (out.new.items ≡ out.old.items ++ counts_text counts.now) }
{
    for count in counts {
        push_count(out, *count)?;
    }
    Ok(())
}

fn push_bin(out: &mut Vec<u8>, bin: &Bin) -> Result<(), Memory>
    ensures { OnOk result (out.new.items ≡ out.old.items ++ bin_text bin.now) }
{
    push_number(out, u128::from(bin.times))?;
    push_bytes(out, b" type ")?;
    push_number(out, u128::from(bin.bin_type))?;
    push_bytes(out, b":")?;
    push_counts(out, bin.counts.as_slice())?;
    push_bytes(out, b"\n")
}

pub fn push_bins(out: &mut Vec<u8>, bins: &[Bin]) -> Result<(), Memory>
    ensures { OnOk result (out.new.items ≡ out.old.items ++ bins_text bins.now) }
{
    for bin in bins {
        push_bin(out, bin)?;
    }
    Ok(())
}

fn push_kind(out: &mut Vec<u8>, kind: BoundKind) -> Result<(), Memory>
    ensures { OnOk result (out.new.items ≡ out.old.items ++ kind_text kind) }
{
    match kind {
        BoundKind::Step { dim, step } => {
            push_bytes(out, b" step ")?;
            push_number(out, u128::from(dim))?;
            push_bytes(out, b" ")?;
            push_number(out, u128::from(step))
        }
        BoundKind::Material => push_bytes(out, b" material"),
    }
}

/// The report of `bound`.
pub fn bound_text(alloc: Global, found: FoundBound) -> Result<Vec<u8>, Memory>
    ensures { IfOk result (λ text. text.items ≡ bound_text found) }
{
    let mut out = Vec::new(alloc);
    push_bytes(&mut out, b"bound ")?;
    push_number(&mut out, u128::from(found.bound))?;
    push_kind(&mut out, found.kind)?;
    push_bytes(&mut out, b"\n")?;
    Ok(out)
}

fn push_dims_and_types(out: &mut Vec<u8>, instance: &Instance) -> Result<(), Memory>
    ensures { OnOk result (out.new.items ≡ out.old.items ++ dims_and_types instance.now) }
{
    push_bytes(out, b"dims ")?;
    push_number(out, u128::from(instance.dims()))?;
    push_bytes(out, b" types ")?;
    push_number(out, u128::from(instance.type_count()))
}

fn push_items_and_units(out: &mut Vec<u8>, instance: &Instance) -> Result<(), Memory>
    ensures { OnOk result (out.new.items ≡ out.old.items ++ items_and_units instance.now) }
{
    push_bytes(out, b" items ")?;
    push_number(out, u128::from(instance.item_count()))?;
    push_bytes(out, b" units ")?;
    push_number(out, u128::from(instance.units()))?;
    push_bytes(out, b"\n")
}

fn push_size(out: &mut Vec<u8>, name: &[u8], nodes: u128, arcs: u128) -> Result<(), Memory>
    ensures { OnOk result (out.new.items ≡ out.old.items ++ size_text name.now nodes arcs) }
{
    push_bytes(out, name)?;
    push_number(out, nodes)?;
    push_bytes(out, b" ")?;
    push_number(out, arcs)
}

fn push_type_and_level(out: &mut Vec<u8>, t: usize, level: (u128, u128)) -> Result<(), Memory>
    ensures { OnOk result (out.new.items ≡ out.old.items ++ type_and_level t level) }
{
    push_bytes(out, b"type ")?;
    push_number(out, t as u128)?;
    push_size(out, b" level ", level.0, level.1)
}

pub fn push_main_and_final(out: &mut Vec<u8>, size: TypeSize) -> Result<(), Memory>
    ensures { OnOk result (out.new.items ≡ out.old.items ++ main_and_final size) }
{
    push_size(
        out,
        b" main ",
        u128::from(size.main_nodes),
        u128::from(size.main_arcs),
    )?;
    push_size(
        out,
        b" final ",
        u128::from(size.final_nodes),
        u128::from(size.final_arcs),
    )?;
    push_bytes(out, b"\n")
}

fn push_type_lines(
    out: &mut Vec<u8>,
    levels: &[(u128, u128)],
    sizes: &[TypeSize],
) -> Result<(), Memory>
    requires { length sizes.now ≡ length levels.now }
    ensures { OnOk result (out.new.items ≡ out.old.items ++ type_lines 1 levels.now sizes.now) }
{
    for (t, level) in levels.iter().enumerate() {
        push_type_and_level(out, t + 1, *level)?;
        push_main_and_final(out, sizes[t])?;
    }
    Ok(())
}

fn push_arcs_line(out: &mut Vec<u8>, arcs: u32) -> Result<(), Memory>
    ensures { OnOk result (out.new.items ≡ out.old.items ++ arcs_line arcs) }
{
    push_bytes(out, b"arcs ")?;
    push_number(out, u128::from(arcs))?;
    push_bytes(out, b"\n")
}

/// The report of `compile`: the nodes and arcs of each type's level graph, and what was compiled.
pub fn compile_text(
    alloc: Global,
    instance: &Instance,
    compiled: &Compiled,
    levels: &[(u128, u128)],
) -> Result<Vec<u8>, Memory>
    requires { length compiled.now.sizes ≡ length levels.now }
    ensures { IfOk result (λ text. text.items ≡ graphs_text instance.now levels.now compiled.now.sizes (length (numbered compiled.now.graph))) }
{
    let mut out = Vec::new(alloc);
    push_dims_and_types(&mut out, instance)?;
    push_items_and_units(&mut out, instance)?;
    push_type_lines(&mut out, levels, compiled.sizes.as_slice())?;
    push_arcs_line(&mut out, compiled.graph.arc_count())?;
    Ok(out)
}
