//! What holds of all joint graphs. Each function is empty: a call brings its law in as a fact.

ghost use Rattle.joint_graph.specs.JointLaws.{JointPathsFit, JointPathsCover, JointMainsAreAlike, JointMainsAreOne, JointFinalsAreOne, JointMainsExist};

/// Each path from the source to the target of a type fits the type.
pub fn joint_paths_fit()
    ensures { JointPathsFit }
{}

/// Each content that is there and fits a type is that of a path to its target.
pub fn joint_paths_cover()
    ensures { JointPathsCover }
{}

/// There is but one joint main graph, up to the numbers of its nodes.
pub fn joint_mains_are_alike()
    ensures { JointMainsAreAlike }
{}

/// All joint main graphs of the same pieces and capacities have as many arcs.
pub fn joint_mains_are_one()
    ensures { JointMainsAreOne }
{}

/// There is but one joint final graph, with one size.
pub fn joint_finals_are_one()
    ensures { JointFinalsAreOne }
{}

/// Pieces and capacities have a joint main graph, of whatever size.
pub fn joint_mains_exist()
    ensures { JointMainsExist }
{}
