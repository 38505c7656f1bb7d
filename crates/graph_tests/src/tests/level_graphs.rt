//! Level graphs, with their counts.

ghost use Rattle.std.specs.Prelude.{◌≤◌};

use crate::tests::fixtures::{are_pieces, needs_send, padded};
use label_graph::{Graph, Piece};
use level_graph::{
    choices_have_one_path, cuts_keep_level_graphs, level_counts, level_graphs_are_graphs,
    level_graphs_exist, levels, levels_are_one, paths_are_choices,
};
use std::alloc::Global;
use std::process::Abort;
use std::test::Fail;
use weight_vec::Weights;

/// The counts and the sizes of the graph, for a row of a capacity and of weights with their copies.
fn has_counts<const N: usize>(
    rt: &impl Abort,
    alloc: Global,
    cap: &[u32],
    forms: &[(&[u32], u32)],
    wanted: (u128, u128),
) -> Result<(), Fail>
    requires small { N ≤ 32 }
{
    let cap: Weights<N> = padded(cap);
    let mut pieces = Vec::new(alloc);
    let mut item: u32 = 0;
    for (weight, copies) in forms {
        item = item.checked_add(1).ok_or("many forms")?;
        pieces.push(Piece {
            item,
            form: 1,
            weight: padded(weight),
            copies: *copies,
        })?;
    }
    assert!(rt; are_pieces(pieces.as_slice(), &cap));
    let counts = level_counts(alloc, pieces.as_slice(), &cap)?;
    assert_eq!(rt; counts, wanted);
    let graph: Graph<N> = levels(alloc, pieces.as_slice(), &cap)?;
    assert_eq!(rt;
        (graph.labels().len() as u128, graph.arcs().len() as u128),
        wanted
    );
    needs_send(&graph);
    Ok(())
}

#[test]
fn rows_of_one_dimension_have_their_counts(rt: HostRuntime) -> Result<(), Fail> {
    has_counts::<1>(
        &rt,
        rt.alloc(),
        &[9],
        &[(&[4], 1), (&[3], 3), (&[2], 1)],
        (20, 29),
    )?;
    has_counts::<1>(&rt, rt.alloc(), &[10], &[(&[6], 1), (&[5], 1)], (6, 7))?;
    has_counts::<1>(&rt, rt.alloc(), &[10], &[], (1, 0))
}

#[test]
fn rows_of_two_dimensions_have_their_counts(rt: HostRuntime) -> Result<(), Fail> {
    has_counts::<2>(
        &rt,
        rt.alloc(),
        &[5, 5],
        &[(&[3, 2], 2), (&[2, 3], 2)],
        (7, 9),
    )?;
    has_counts::<2>(
        &rt,
        rt.alloc(),
        &[7, 9],
        &[(&[3, 2], 2), (&[2, 4], 1), (&[1, 3], 3)],
        (22, 33),
    )?;
    has_counts::<2>(
        &rt,
        rt.alloc(),
        &[12, 10],
        &[(&[5, 4], 1), (&[4, 3], 2), (&[3, 1], 2), (&[2, 5], 3)],
        (43, 63),
    )
}

#[test]
fn laws_hold() {
    paths_are_choices();
    choices_have_one_path();
    level_graphs_exist();
    levels_are_one();
    level_graphs_are_graphs();
    cuts_keep_level_graphs();
}
