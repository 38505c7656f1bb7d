//! Graphs, and their images under new labels.

ghost use Rattle.std.specs.Prelude.{◌≡◌, IfOk};
ghost use Rattle.label_graph.specs.Worked.{two_nodes};

use crate::tests::fixtures::{needs_send, one_node, two_forms, weight};
use label_graph::{
    Graph, GraphArc, GraphFault, Mark, arcs_are_in_order, cuts_keep_images, images_are_graphs,
    images_are_one, images_exist, images_keep_contents, known_pieces, known_weights,
    labels_bound_weights, nodes_lie_on_paths, quotient, sort_distinct,
};
use std::alloc::{AllocError, Global};
use std::test::Fail;
use weight_vec::Weights;

/// Labels that merge the first two nodes of the graph of two forms.
fn merging_labels(alloc: Global) -> Result<Vec<Weights<1>>, AllocError>
    ensures { IfOk result (λ labels. labels.items ≡ two_nodes) }
{
    let labels = vec![in alloc; weight(0), weight(0), weight(6)]?;
    Ok(labels)
}

fn merged(alloc: Global, room: u32) -> Result<Graph<1>, GraphFault> {
    let graph = two_forms(alloc)?;
    let labels = merging_labels(alloc)?;
    quotient(alloc, &graph, labels.as_slice(), room)
}

#[test]
fn nodes_are_merged(rt: HostRuntime) -> Result<(), Fail> {
    let image = merged(rt.alloc(), 3)?;
    assert_eq!(rt; (image.labels().len(), image.arcs().len()), (2, 3));
    match merged(rt.alloc(), 2) {
        Err(fault) => assert_eq!(rt; fault, GraphFault::TooManyArcs),
        Ok(_) => return Err("three arcs are too many".into()),
    }
    Ok(())
}

#[test]
fn a_list_is_sorted(rt: HostRuntime) -> Result<(), Fail> {
    let mut numbers = vec![in rt.alloc(); 3u32, 1, 3]?;
    sort_distinct(&mut numbers);
    assert!(rt; numbers.len() == 2 && numbers[0] == 1 && numbers[1] == 3);
    Ok(())
}

#[test]
fn a_graph_keeps_its_parts(rt: HostRuntime) -> Result<(), Fail> {
    let graph = one_node(rt.alloc())?;
    graph.known();
    known_weights(graph.labels());
    known_pieces(graph.pieces());
    assert_eq!(rt; graph.labels().len(), 1);
    assert!(rt; graph.pieces().is_empty() && graph.arcs().is_empty());
    needs_send(&graph);
    Ok(())
}

#[test]
fn marks_and_arcs_are_in_order(rt: HostRuntime) {
    assert!(rt; Mark::Loss < Mark::Piece(1) && Mark::Piece(1) < Mark::Piece(2));
    let first = GraphArc {
        tail: 1,
        head: 2,
        mark: Mark::Piece(3),
    };
    let second = GraphArc {
        tail: 1,
        head: 3,
        mark: Mark::Loss,
    };
    arcs_are_in_order();
    assert!(rt; first < second);
}

#[test]
fn laws_hold() {
    nodes_lie_on_paths();
    labels_bound_weights();
    images_are_graphs();
    images_keep_contents();
    images_are_one();
    images_exist();
    cuts_keep_images();
}
