//! A type of bins compiled.

ghost use Rattle.std.specs.Prelude.{◌≡◌, ℕ, ◌≤◌, ◌<◌, IfOk, IfErr, length};
ghost use Rattle.arc_num.specs.declared.TheConstants.{MAX_ARCS};
ghost use Rattle.packing_laws.specs.Instances.{IsAmong};
ghost use Rattle.label_graph.specs.Graph.{GraphValue};
ghost use Rattle.flow_graph.specs.Arcs.{IsFlowType};
ghost use Rattle.final_compress.specs.FinalGraphs.{IsFinalGraph};
ghost use Rattle.arc_compile.specs.Extended.{places_of};
ghost use Rattle.arc_compile.specs.Graphs.{AreMainGraphs, HasMainArcs};
ghost use Rattle.arc_compile.specs.Compiled.{AreNamed, IsNumberedType, AreSizes, IsCompiledType};

use crate::extended::capacity_in;
use crate::laws::padding_keeps_graphs;
use crate::numbered::numbered_arcs;
use crate::pieces::pieces_of;
use crate::results::TypeSize;
use arc_num::Memory;
use final_compress::compress_final;
use flow_graph::TypeArc;
use label_graph::{Graph, GraphFault};
use lift_build::build_main;
use packing_laws::Instance;
use std::alloc::Global;

/// The numbered arcs of a type but for its bin arc, and the sizes of its graphs.
#[derive(Debug, Drop)]
pub struct CompiledType {
    pub nodes: u32,
    pub arcs: Vec<TypeArc>,
    pub size: TypeSize,
}

/// How many nodes a graph has that has not too many arcs.
fn node_count<const N: usize>(graph: &Graph<N>) -> u32
    requires { length graph.now.arcs ≤ MAX_ARCS }
    ensures { result ≡ length graph.now.labels }
{
    graph.known();
    graph.labels().len() as u32
}

/// The sizes of a main and a final graph that have not too many arcs.
fn size_of<const N: usize>(main: &Graph<N>, last: &Graph<N>) -> TypeSize
    requires main { length main.now.arcs ≤ MAX_ARCS }
    requires last { length last.now.arcs ≤ MAX_ARCS }
    ensures { AreSizes main.now last.now result }
{
    TypeSize {
        main_nodes: node_count(main),
        main_arcs: main.arcs().len() as u32,
        final_nodes: node_count(last),
        final_arcs: last.arcs().len() as u32,
    }
}

/// The main graph of type t in N places, where it has not more arcs than there is room for.
pub fn main_graph<const N: usize>(
    alloc: Global,
    instance: &Instance,
    t: u32,
    room: u32,
) -> Result<Graph<N>, GraphFault>
    requires small { N ≤ 32 }
    requires in_range { IsAmong t (length instance.now.types) }
    requires wide { places_of instance.now ≤ N }
    ensures main { IfOk result (λ main. (level : GraphValue N) × AreMainGraphs instance.now t level main) }
    ensures roomy { IfOk result (λ main. length main.arcs ≤ room) }
    ensures full { IfErr result (λ fault. fault ≡ GraphFault.TooManyArcs → (arcs : ℕ) × HasMainArcs N instance.now t arcs × (room < arcs)) }
{
    instance.known();
    let cap = capacity_in::<N>(alloc, instance, t)?;
    let pieces = pieces_of::<N>(alloc, instance, t)?;
    build_main(alloc, pieces.as_slice(), &cap, room)
}

/// The numbered arcs of the final graph of a main graph, and the sizes of both.
fn number_final<const N: usize>(alloc: Global, main: &Graph<N>) -> Result<CompiledType, Memory>
    requires small { N ≤ 32 }
    requires few { length main.now.arcs ≤ MAX_ARCS }
    requires named { AreNamed main.now.pieces }
    ensures compiled { IfOk result (λ x. (last : GraphValue N) × IsFinalGraph main.now last × IsNumberedType last (record { nodes = x.nodes; arcs = x.arcs.items }) × AreSizes main.now last x.size) }
    ensures flow { IfOk result (λ x. IsFlowType (record { nodes = x.nodes; arcs = x.arcs.items })) }
    ensures fewer { IfOk result (λ x. length x.arcs.items ≤ length main.now.arcs) }
{
    let last = compress_final(alloc, main)?;
    last.known();
    let size = size_of(main, &last);
    let arcs = numbered_arcs(alloc, last.pieces(), last.arcs())?;
    Ok(CompiledType {
        nodes: size.final_nodes,
        arcs,
        size,
    })
}

/// Type t compiled in N places, with at most so many arcs of its main graph.
pub fn compile_type<const N: usize>(
    alloc: Global,
    instance: &Instance,
    t: u32,
    room: u32,
) -> Result<CompiledType, GraphFault>
    requires small { N ≤ 32 }
    requires in_range { IsAmong t (length instance.now.types) }
    requires wide { places_of instance.now ≤ N }
    requires room { room ≤ MAX_ARCS }
    ensures compiled { IfOk result (λ x. IsCompiledType (places_of instance.now) instance.now t (record { nodes = x.nodes; arcs = x.arcs.items }) x.size) }
    ensures flow { IfOk result (λ x. IsFlowType (record { nodes = x.nodes; arcs = x.arcs.items })) }
    ensures roomy { IfOk result (λ x. x.size.main_arcs ≤ room) }
    ensures fewer { IfOk result (λ x. length x.arcs.items ≤ x.size.main_arcs) }
    ensures full { IfErr result (λ fault. fault ≡ GraphFault.TooManyArcs → (arcs : ℕ) × HasMainArcs (places_of instance.now) instance.now t arcs × (room < arcs)) }
{
    padding_keeps_graphs();
    instance.known();
    let main = main_graph::<N>(alloc, instance, t, room)?;
    let compiled = number_final(alloc, &main)?;
    Ok(compiled)
}
