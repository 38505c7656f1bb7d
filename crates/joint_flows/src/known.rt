//! What is known of joint graphs. The function costs nothing.

ghost use Rattle.joint_arcs.specs.Faithful.{GraphOf};
ghost use Rattle.joint_flows.specs.inner.Known.{IsKnownJoint};

use joint_arcs::JointArcs;
use packing_laws::Instance;

/// What a joint graph of an instance keeps.
pub(crate) fn joint(instance: &Instance, graph: &JointArcs)
    requires { GraphOf instance.now graph.now }
    ensures { IsKnownJoint instance.now graph.now }
{
    instance.known();
    graph.known();
}
