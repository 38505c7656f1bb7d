//! The types of an instance compiled side by side, each by itself.

ghost use Rattle.std.specs.Prelude.{◌≡◌, ℕ, ◌+◌, ◌-◌, ◌≤◌, ◌<◌, IfOk, MatchResult, length};
ghost use Rattle.std.specs.Thread.{IsSync};
ghost use Rattle.packing_laws.specs.Instances.{InstanceValue, IsAmong};
ghost use Rattle.arc_num.specs.declared.TheConstants.{MAX_ARCS};
ghost use Rattle.arc_compile.specs.Extended.{places_of};
ghost use Rattle.arc_compile.specs.Graphs.{HasMainArcs};
ghost use Rattle.arc_compile.specs.inner.Rows.{IsDone, IsFaultAt, IsRow};

use crate::results::CompileFault;
use crate::type_graphs::{CompiledType, compile_type};
use arc_num::{Gate, MAX_ARCS};
use label_graph::GraphFault;
use packing_laws::Instance;
use std::alloc::Global;
use std::thread::{Threads, join};

/// Types in a row, compiled up to the first that has a fault.
#[derive(Debug, Drop)]
pub struct TypeRow {
    pub types: Vec<CompiledType>,
    /// The fault of the next type; none where all are compiled.
    pub fault: Option<CompileFault>,
}

/// The fault of type t.
fn fault_at(t: u32, fault: GraphFault) -> CompileFault
    ensures { (I : InstanceValue) (room : ℕ) → room ≤ MAX_ARCS → (fault ≡ GraphFault.TooManyArcs → (arcs : ℕ) × HasMainArcs (places_of I) I t arcs × (room < arcs)) → IsFaultAt I t (MAX_ARCS - room) result }
{
    match fault {
        GraphFault::TooManyArcs => CompileFault::TooManyArcs { t },
        GraphFault::Memory => CompileFault::Memory,
    }
}

/// Type t compiled in N places, once the gate has let it through, with at most so many arcs of its main graph.
fn one_type<G: Gate, const N: usize>(
    alloc: Global,
    instance: &Instance,
    gate: &G,
    t: u32,
    room: u32,
) -> Result<CompiledType, CompileFault>
    requires small { N ≤ 32 }
    requires in_range { IsAmong t (length instance.now.types) }
    requires wide { places_of instance.now ≤ N }
    requires room { room ≤ MAX_ARCS }
    ensures done { MatchResult result (IsDone instance.now t) (IsFaultAt instance.now t (MAX_ARCS - room)) }
    ensures roomy { IfOk result (λ x. x.size.main_arcs ≤ room) }
{
    gate.pass(t);
    match compile_type::<N>(alloc, instance, t, room) {
        Ok(compiled) => Ok(compiled),
        Err(fault) => Err(fault_at(t, fault)),
    }
}

/// So many types compiled in N places, one after the other. Arcs of those before leave less room to the next.
fn one_by_one<G: Gate, const N: usize>(
    alloc: Global,
    instance: &Instance,
    gate: &G,
    first: u32,
    count: u32,
) -> TypeRow
    requires small { N ≤ 32 }
    requires wide { places_of instance.now ≤ N }
    requires some { 1 ≤ first }
    requires within { first + count ≤ length instance.now.types + 1 }
    ensures { IsRow instance.now first count result }
{
    let mut types = Vec::new(alloc);
    let mut room = MAX_ARCS;
    let _types = instance.type_count();
    for t in first..first + count {
        let compiled = match one_type::<G, N>(alloc, instance, gate, t, room) {
            Ok(compiled) => compiled,
            Err(fault) => {
                return TypeRow {
                    types,
                    fault: Some(fault),
                };
            }
        };
        room -= compiled.size.main_arcs;
        match types.push(compiled) {
            Ok(()) => {}
            Err(_) => {
                return TypeRow {
                    types,
                    fault: Some(CompileFault::Memory),
                };
            }
        }
    }
    TypeRow { types, fault: None }
}

/// Two rows of types, the second behind the first.
fn joined(left: TypeRow, right: TypeRow) -> TypeRow
    ensures { (I : InstanceValue) (first half rest : ℕ) → IsRow I first half left → IsRow I (first + half) rest right → IsRow I first (half + rest) result }
{
    if left.fault.is_some() {
        return left;
    }
    let mut types = left.types;
    let mut others = right.types;
    match types.append(&mut others) {
        Ok(()) => TypeRow {
            types,
            fault: right.fault,
        },
        Err(_) => TypeRow {
            types,
            fault: Some(CompileFault::Memory),
        },
    }
}

/// So many types compiled in N places, by halves side by side as long as there are workers.
pub fn side_by_side<R: Threads + Sync, G: Gate + Sync, const N: usize>(
    rt: &R,
    alloc: Global,
    instance: &Instance,
    gate: &G,
    first: u32,
    count: u32,
    workers: u32,
) -> TypeRow
    requires small { N ≤ 32 }
    requires wide { places_of instance.now ≤ N }
    requires some { 1 ≤ first }
    requires within { first + count ≤ length instance.now.types + 1 }
    ensures { IsRow instance.now first count result }
{
    if workers <= 1 || count <= 1 {
        return one_by_one::<G, N>(alloc, instance, gate, first, count);
    }
    let _types = instance.type_count();
    let half = count / 2;
    let others = count - half;
    let middle = first + half;
    let share = workers / 2;
    let remaining = workers - share;
    let (left, right) = join(
        rt,
        || -> TypeRow
            requires { IsSync R.row × IsSync G.row × (N ≤ 32) × (places_of instance.now ≤ N) × (1 ≤ first) × (first + half ≤ length instance.now.types + 1) }
            ensures { IsRow instance.entry.now first half result }
        { side_by_side::<R, G, N>(rt, alloc, instance, gate, first, half, share) },
        || -> TypeRow
            requires { IsSync R.row × IsSync G.row × (N ≤ 32) × (places_of instance.now ≤ N) × (1 ≤ middle) × (middle + others ≤ length instance.now.types + 1) }
            ensures { IsRow instance.entry.now middle others result }
        { side_by_side::<R, G, N>(rt, alloc, instance, gate, middle, others, remaining) },
    );
    joined(left, right)
}
