//! What holds of flows of all joint graphs. Each function is empty: a call brings its law in as a fact.

ghost use Rattle.joint_flows.specs.JointRows.{NoBadRowIsFlow};
ghost use Rattle.joint_flows.specs.Packed.{PackingsAreFlows};

/// Each packing without empty bins is a flow of the same cost on each faithful joint graph.
pub fn packings_are_flows()
    ensures { PackingsAreFlows }
{}

/// Values that violate no row are a flow, and a flow violates none.
pub fn no_bad_row_is_flow()
    ensures { NoBadRowIsFlow }
{}
