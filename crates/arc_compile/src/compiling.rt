//! An instance compiled.

ghost use Rattle.std.specs.Prelude.{◌≡◌, ℕ, ◌+◌, ◌≤◌, ◌<◌, ◌++◌, ◌∷◌, [], IfOk, IfErr, length, sum_by};
ghost use Rattle.arc_num.specs.declared.TheConstants.{MAX_ARCS, MAX_TYPES, MAX_WORKERS};
ghost use Rattle.packing_laws.specs.Instances.{IsAmong};
ghost use Rattle.flow_graph.specs.Arcs.{IsFlowType};
ghost use Rattle.flow_graph.specs.Faithful.{IsFaithful};
ghost use Rattle.arc_compile.specs.Extended.{places_of};
ghost use Rattle.arc_compile.specs.Graphs.{IsSmall, IsTooLarge};
ghost use Rattle.arc_compile.specs.Compiled.{AreCompiled};
ghost use Rattle.arc_compile.specs.inner.Rows.{IsRow};

use crate::extended::place_count;
use crate::laws::compiled_graphs_are_faithful;
use crate::results::{CompileFault, Compiled, Sizes, TypeSize};
use crate::rows::{TypeRow, side_by_side};
use crate::type_graphs::CompiledType;
use arc_num::{Gate, MAX_ARCS, Memory, NoGate};
use flow_graph::FlowGraph;
use packing_laws::Instance;
use std::alloc::Global;
use std::thread::Threads;

/// Appends a compiled type to the graph, and its sizes to the sizes.
fn put_type(
    graph: &mut FlowGraph,
    sizes: &mut Vec<TypeSize>,
    compiled: &CompiledType,
) -> Result<(), Memory>
    requires types { length graph.old < MAX_TYPES }
    requires room { sum_by (λ x. length x.arcs) graph.old + length compiled.now.arcs.items ≤ MAX_ARCS }
    requires flow { IsFlowType (record { nodes = compiled.now.nodes; arcs = compiled.now.arcs.items }) }
    ensures graph { IfOk result (λ _. graph.new ≡ graph.old ++ record { nodes = compiled.now.nodes; arcs = compiled.now.arcs.items } ∷ []) }
    ensures sizes { IfOk result (λ _. sizes.new.items ≡ sizes.old.items ++ compiled.now.size ∷ []) }
{
    graph.add_type(compiled.nodes, compiled.arcs.as_slice())?;
    sizes.push(compiled.size)?;
    Ok(())
}

/// The types of an instance as one graph, where their main graphs have not too many arcs together. The sum is tested
/// type by type, in order, so the first type past the limit is the same however the types were compiled.
fn assembled(alloc: Global, instance: &Instance, row: &TypeRow) -> Result<Compiled, CompileFault>
    requires { IsRow instance.now 1 (length instance.now.types) row.now }
    ensures compiled { IfOk result (λ c. AreCompiled instance.now c.graph c.sizes) }
    ensures small { IfOk result (λ _. IsSmall instance.now) }
    ensures large { IfErr result (λ fault. (t : ℕ) → fault ≡ CompileFault.TooManyArcs t → IsTooLarge instance.now t) }
{
    let _types = instance.type_count();
    let mut graph = FlowGraph::new(alloc);
    let mut sizes = Vec::new(alloc);
    let mut room = MAX_ARCS;
    for (k, compiled) in row.types.as_slice().iter().enumerate() {
        if compiled.size.main_arcs > room {
            return Err(CompileFault::TooManyArcs { t: k as u32 + 1 });
        }
        room -= compiled.size.main_arcs;
        put_type(&mut graph, &mut sizes, compiled)?;
    }
    match row.fault {
        Some(fault) => Err(fault),
        None => Ok(Compiled {
            graph,
            sizes: Sizes::new(sizes),
        }),
    }
}

/// All types compiled in N places.
fn compile_in<R: Threads + Sync, G: Gate + Sync, const N: usize>(
    rt: &R,
    alloc: Global,
    instance: &Instance,
    workers: u32,
    gate: &G,
) -> Result<Compiled, CompileFault>
    requires small { N ≤ 32 }
    requires wide { places_of instance.now ≤ N }
    ensures compiled { IfOk result (λ c. AreCompiled instance.now c.graph c.sizes) }
    ensures small { IfOk result (λ _. IsSmall instance.now) }
    ensures large { IfErr result (λ fault. (t : ℕ) → fault ≡ CompileFault.TooManyArcs t → IsTooLarge instance.now t) }
{
    let count = instance.type_count();
    let row = side_by_side::<R, G, N>(rt, alloc, instance, gate, 1, count, workers);
    assembled(alloc, instance, &row)
}

/// The numbered final graphs of all types of an instance, with the sizes of the main and the final graphs. The types are
/// compiled by halves side by side, as long as there are workers; each passes the gate once, by its number, before it is
/// begun. The result depends neither on the number of workers nor on the gate.
pub fn compile_gated<R: Threads + Sync, G: Gate + Sync>(
    rt: &R,
    alloc: Global,
    instance: &Instance,
    workers: u32,
    gate: &G,
) -> Result<Compiled, CompileFault>
    requires workers { IsAmong workers MAX_WORKERS }
    ensures compiled { IfOk result (λ c. AreCompiled instance.now c.graph c.sizes) }
    ensures faithful { IfOk result (λ c. IsFaithful instance.now c.graph) }
    ensures small { IfOk result (λ _. IsSmall instance.now) }
    ensures large { IfErr result (λ fault. (t : ℕ) → fault ≡ CompileFault.TooManyArcs t → IsTooLarge instance.now t) }
{
    compiled_graphs_are_faithful();
    instance.known();
    match place_count(instance) {
        0 | 1 => compile_in::<R, G, 1>(rt, alloc, instance, workers, gate),
        2 => compile_in::<R, G, 2>(rt, alloc, instance, workers, gate),
        3..=4 => compile_in::<R, G, 4>(rt, alloc, instance, workers, gate),
        5..=8 => compile_in::<R, G, 8>(rt, alloc, instance, workers, gate),
        9..=16 => compile_in::<R, G, 16>(rt, alloc, instance, workers, gate),
        _ => compile_in::<R, G, 32>(rt, alloc, instance, workers, gate),
    }
}

/// `compile_gated` without a gate.
pub fn compile<R: Threads + Sync>(
    rt: &R,
    alloc: Global,
    instance: &Instance,
    workers: u32,
) -> Result<Compiled, CompileFault>
    requires workers { IsAmong workers MAX_WORKERS }
    ensures compiled { IfOk result (λ c. AreCompiled instance.now c.graph c.sizes) }
    ensures faithful { IfOk result (λ c. IsFaithful instance.now c.graph) }
    ensures small { IfOk result (λ _. IsSmall instance.now) }
    ensures large { IfErr result (λ fault. (t : ℕ) → fault ≡ CompileFault.TooManyArcs t → IsTooLarge instance.now t) }
{
    compile_gated(rt, alloc, instance, workers, &NoGate)
}
