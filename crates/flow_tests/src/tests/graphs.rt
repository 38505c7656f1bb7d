//! Numbered arcs.

ghost use Rattle.std.specs.Prelude.{◌≡◌, [], ◌∷◌, IfOk};
ghost use Rattle.flow_graph.specs.Worked.{one_of_two, nothing_fits};

use crate::tests::fixtures::needs_send;
use arc_num::Memory;
use flow_graph::{
    ArcKind, FlowGraph, TypeArc, chords_extend, examples_come_out, nodes_are_few,
    nodes_have_tree_arcs, nodes_lie_on_paths, numbers_are_arcs, numbers_are_unique,
    numbers_have_kinds, paths_have_numbers, paths_join, points_are_counted, potentials_cancel,
};
use std::alloc::Global;
use std::test::Fail;

/// A first type of two nodes, where nothing, an item or another one leads from the first to the second.
fn one_type(alloc: Global) -> Result<FlowGraph, Memory>
    ensures { IfOk result (λ graph. graph ≡ one_of_two ∷ []) }
{
    let mut graph = FlowGraph::new(alloc);
    let nothing = TypeArc {
        tail: 1,
        head: 2,
        item: 0,
        form: 0,
    };
    let first = TypeArc {
        tail: 1,
        head: 2,
        item: 1,
        form: 1,
    };
    let second = TypeArc {
        tail: 1,
        head: 2,
        item: 2,
        form: 1,
    };
    examples_come_out();
    graph.add_type(2, &[nothing, first, second])?;
    Ok(graph)
}

/// Behind that a type of one node, where nothing fits.
fn two_types(alloc: Global) -> Result<FlowGraph, Memory>
    ensures { IfOk result (λ graph. graph ≡ one_of_two ∷ nothing_fits ∷ []) }
{
    let mut graph = one_type(alloc)?;
    examples_come_out();
    graph.add_type(1, &[])?;
    Ok(graph)
}

#[test]
fn laws_hold() {
    numbers_are_arcs();
    nodes_lie_on_paths();
    nodes_have_tree_arcs();
    paths_have_numbers();
    numbers_have_kinds();
    numbers_are_unique();
    nodes_are_few();
    paths_join();
    chords_extend();
    potentials_cancel();
    points_are_counted();
}

/// The arcs of that first type, from number 0 on.
const ARCS: [Option<ArcKind>; 6] = [
    None,
    Some(ArcKind::Bin { t: 1 }),
    Some(ArcKind::Loss {
        t: 1,
        tail: 1,
        head: 2,
    }),
    Some(ArcKind::Piece {
        t: 1,
        tail: 1,
        head: 2,
        item: 1,
        form: 1,
    }),
    Some(ArcKind::Piece {
        t: 1,
        tail: 1,
        head: 2,
        item: 2,
        form: 1,
    }),
    None,
];

#[test]
fn arcs_of_a_type_come_after_its_bin_arc(rt: HostRuntime) -> Result<(), Fail> {
    let graph = one_type(rt.alloc())?;
    for number in 0..6u32 {
        assert_eq!(rt; graph.arc(number), ARCS[number as usize]);
    }
    needs_send(&graph);
    Ok(())
}

#[test]
fn the_second_type_has_the_next_numbers(rt: HostRuntime) -> Result<(), Fail> {
    let graph = two_types(rt.alloc())?;
    graph.known();
    assert_eq!(rt; (graph.type_count(), graph.arc_count()), (2, 5));
    assert_eq!(rt; graph.arc(5), Some(ArcKind::Bin { t: 2 }));
    assert_eq!(rt; graph.arcs_of(1), Some((1, 4)));
    assert_eq!(rt; graph.arcs_of(2), Some((5, 5)));
    assert_eq!(rt; graph.arcs_of(3), None);
    assert_eq!(rt; graph.node_count(1), Some(2));
    assert_eq!(rt; graph.node_count(2), Some(1));
    assert_eq!(rt; graph.node_count(0), None);
    assert_eq!(rt; graph.type_arcs(2).map(|arcs| arcs.len()), Some(0));
    assert_eq!(rt; graph.row().len(), 5);
    Ok(())
}
