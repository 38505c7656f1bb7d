//! What is known of the joint graph of an instance. The function costs nothing.

ghost use Rattle.joint_arcs.specs.Faithful.{GraphOf};
ghost use Rattle.joint_model.specs.inner.Arcs.{IsKnownGraph};

use joint_arcs::JointArcs;
use packing_laws::Instance;

/// What a joint graph of an instance keeps.
pub(crate) fn graph(instance: &Instance, graph: &JointArcs)
    requires { GraphOf instance.now graph.now }
    ensures { IsKnownGraph instance.now graph.now }
{
    instance.known();
    graph.known();
}
