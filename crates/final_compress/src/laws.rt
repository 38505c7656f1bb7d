//! What holds of all final graphs. Each function is empty but for other laws: a call brings its law in as a fact.

ghost use Rattle.final_compress.specs.FinalLaws.{FinalGraphsAreGraphs, FinalPathsWeighNoMore, FinalGraphsKeepContents, FinalGraphsAreOne, CutsKeepFinalGraphs};

use label_graph::{
    cuts_keep_images, images_are_graphs, images_are_one, images_keep_contents,
    labels_bound_weights, nodes_lie_on_paths,
};

/// The final graph of a graph is a graph.
pub fn final_graphs_are_graphs()
    ensures { FinalGraphsAreGraphs }
{
    images_are_graphs();
    labels_bound_weights();
}

/// In no dimension does a path of the final graph weigh more than some path of the given one.
pub fn final_paths_weigh_no_more()
    ensures { FinalPathsWeighNoMore }
{
    final_graphs_are_graphs();
    labels_bound_weights();
    nodes_lie_on_paths();
}

/// The content of each path from the source to the target is that of such a path of the final graph.
pub fn final_graphs_keep_contents()
    ensures { FinalGraphsKeepContents }
{
    images_keep_contents();
}

/// There is but one final graph of a graph.
pub fn final_graphs_are_one()
    ensures { FinalGraphsAreOne }
{
    images_are_one();
}

/// Zeros behind all weights and labels change nothing of a final graph.
pub fn cuts_keep_final_graphs()
    ensures { CutsKeepFinalGraphs }
{
    cuts_keep_images();
}
