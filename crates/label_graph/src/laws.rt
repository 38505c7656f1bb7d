//! What holds of all graphs. Each function is empty: a call brings its law in as a fact.

ghost use Rattle.label_graph.specs.GraphLaws.{NodesLieOnPaths, LabelsBoundWeights};
ghost use Rattle.label_graph.specs.ImageLaws.{ImagesAreGraphs, ImagesKeepContents, ImagesExist, ImagesAreOne, CutsKeepImages};

/// Each node lies on a path from the source to the target.
pub fn nodes_lie_on_paths()
    ensures { NodesLieOnPaths }
{}

/// Each path weighs at most the label at its end less the one at its start.
pub fn labels_bound_weights()
    ensures { LabelsBoundWeights }
{}

/// The image of a graph is a graph.
pub fn images_are_graphs()
    ensures { ImagesAreGraphs }
{}

/// The content of each path from the source to the target is that of such a path of the image.
pub fn images_keep_contents()
    ensures { ImagesKeepContents }
{}

/// A graph has an image under each labelling.
pub fn images_exist()
    ensures { ImagesExist }
{}

/// There is but one image of a graph under some labels.
pub fn images_are_one()
    ensures { ImagesAreOne }
{}

/// Zeros behind all weights and labels change nothing of an image.
pub fn cuts_keep_images()
    ensures { CutsKeepImages }
{}
