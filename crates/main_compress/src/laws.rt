//! What holds of all main graphs. Each function is empty but for other laws: a call brings its law in as a fact.

ghost use Rattle.main_compress.specs.MainLaws.{MainGraphsAreGraphs, MainPathsFit, MainGraphsKeepContents, MainGraphsExist, MainGraphsAreOne, CutsKeepMainGraphs};

use label_graph::{
    cuts_keep_images, images_are_graphs, images_are_one, images_exist, images_keep_contents,
    labels_bound_weights,
};

/// The main graph of a graph is a graph.
pub fn main_graphs_are_graphs()
    ensures { MainGraphsAreGraphs }
{
    images_are_graphs();
}

/// Each path of the main graph from the source to the target fits.
pub fn main_paths_fit()
    ensures { MainPathsFit }
{
    main_graphs_are_graphs();
    labels_bound_weights();
}

/// The content of each path from the source to the target is that of such a path of the main graph.
pub fn main_graphs_keep_contents()
    ensures { MainGraphsKeepContents }
{
    images_keep_contents();
}

/// A graph whose labels fit a capacity has a main graph.
pub fn main_graphs_exist()
    ensures { MainGraphsExist }
{
    images_exist();
}

/// There is but one main graph of a graph and a capacity.
pub fn main_graphs_are_one()
    ensures { MainGraphsAreOne }
{
    images_are_one();
}

/// Zeros behind all weights, labels and the capacity change nothing of a main graph.
pub fn cuts_keep_main_graphs()
    ensures { CutsKeepMainGraphs }
{
    cuts_keep_images();
}
