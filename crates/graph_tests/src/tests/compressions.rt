//! Main graphs and final graphs.

use crate::tests::fixtures::{all_fit, one_node, two_forms, weight};
use arc_num::MAX_ARCS;
use final_compress::{
    compress_final, cuts_keep_final_graphs, final_graphs_are_graphs, final_graphs_are_one,
    final_graphs_keep_contents, final_paths_weigh_no_more,
};
use label_graph::{Graph, GraphFault};
use main_compress::{
    compress_main, cuts_keep_main_graphs, main_graphs_are_graphs, main_graphs_are_one,
    main_graphs_exist, main_graphs_keep_contents, main_paths_fit,
};
use std::alloc::{AllocError, Global};
use std::test::Fail;
use weight_vec::Weights;

#[test]
fn one_node_keeps_the_whole_capacity(rt: HostRuntime) -> Result<(), Fail> {
    let graph = one_node(rt.alloc())?;
    let Some(cap) = Weights::<1>::pad_from(&[10]) else {
        return Err("one weight is not too many".into());
    };
    assert!(rt; all_fit(graph.labels(), &cap));
    let main = compress_main(rt.alloc(), &graph, &cap, 0)?;
    assert!(rt; main.labels() == [cap].as_slice());
    assert!(rt; main.pieces().is_empty() && main.arcs().is_empty());
    Ok(())
}

/// The numbers of labels in one dimension.
fn numbers(alloc: Global, graph: &Graph<1>) -> Result<Vec<u32>, AllocError> {
    let mut numbers = Vec::new(alloc);
    for label in graph.labels() {
        numbers.push(label.get(0))?;
    }
    Ok(numbers)
}

/// The main graph of two forms, where there is room for so many arcs.
fn main_graph(alloc: Global, room: u32) -> Result<Graph<1>, Fail> {
    let graph = two_forms(alloc)?;
    let cap = weight(10);
    if !all_fit(graph.labels(), &cap) {
        return Err("labels are within the capacity".into());
    }
    Ok(compress_main(alloc, &graph, &cap, room)?)
}

#[test]
fn first_two_nodes_of_two_forms_merge(rt: HostRuntime) -> Result<(), Fail> {
    let alloc = rt.alloc();
    let main = main_graph(alloc, 4)?;
    assert_eq!(rt; numbers(alloc, &main)?.as_slice(), &[4, 5, 10][..]);
    assert!(rt; main.arcs().len() <= MAX_ARCS as usize);
    let last = compress_final(alloc, &main)?;
    assert_eq!(rt; numbers(alloc, &last)?.as_slice(), &[0, 6][..]);
    assert_eq!(rt; (main.arcs().len(), last.arcs().len()), (4, 3));
    Ok(())
}

#[test]
fn four_arcs_have_no_room_for_three(rt: HostRuntime) -> Result<(), Fail> {
    let graph = two_forms(rt.alloc())?;
    let cap = weight(10);
    assert!(rt; all_fit(graph.labels(), &cap));
    let main = compress_main(rt.alloc(), &graph, &cap, 3);
    assert!(rt; main.is_err_and(|fault| fault == GraphFault::TooManyArcs));
    Ok(())
}

#[test]
fn laws_of_main_graphs_hold() {
    main_graphs_are_graphs();
    main_paths_fit();
    main_graphs_keep_contents();
    main_graphs_are_one();
    main_graphs_exist();
    cuts_keep_main_graphs();
}

#[test]
fn one_node_stays(rt: HostRuntime) -> Result<(), Fail> {
    let graph = one_node(rt.alloc())?;
    assert!(rt; graph.arcs().len() <= MAX_ARCS as usize);
    let last = compress_final(rt.alloc(), &graph)?;
    assert!(rt; last.labels() == [Weights::zero()].as_slice());
    assert!(rt; last.pieces().is_empty() && last.arcs().is_empty());
    Ok(())
}

#[test]
fn laws_of_final_graphs_hold() {
    final_graphs_are_graphs();
    final_paths_weigh_no_more();
    final_graphs_keep_contents();
    final_graphs_are_one();
    cuts_keep_final_graphs();
}
