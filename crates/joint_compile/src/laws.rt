//! What holds of the joint graphs of all instances. Each function is empty but for other laws: a call brings its law in as a
//! fact.

ghost use Rattle.joint_compile.specs.JointLaws.{JointGraphIsOne, JointGraphsAreFaithful, JointSizesAreOne, JointSizesExist};

use arc_compile::extended_weights_tell_fits;
use joint_graph::{
    joint_finals_are_one, joint_mains_are_one, joint_mains_exist, joint_paths_cover,
    joint_paths_fit,
};

/// The joint graph of an instance is faithful to it.
pub fn joint_graphs_are_faithful()
    ensures { JointGraphsAreFaithful }
{
    joint_paths_fit();
    joint_paths_cover();
    extended_weights_tell_fits();
}

/// There is but one joint graph of an instance.
pub fn joint_graph_is_one()
    ensures { JointGraphIsOne }
{
    joint_finals_are_one();
}

/// The joint graph of no instance is both small and too large.
pub fn joint_sizes_are_one()
    ensures { JointSizesAreOne }
{
    joint_mains_are_one();
}

/// The joint graph of each instance is small or too large.
pub fn joint_sizes_exist()
    ensures { JointSizesExist }
{
    joint_mains_exist();
}
