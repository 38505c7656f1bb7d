//! What holds of all flows, and of a worked model. Each function is empty: a call brings its law in as a fact.

ghost use Rattle.pattern_extract.specs.Worth.{FlowsArePackings};
ghost use Rattle.pattern_extract.specs.Worked.{Examples};

/// Each flow on a faithful graph is worth a packing that costs as much. Unlike `extract`, this wants no memory.
pub fn flows_are_packings()
    ensures { FlowsArePackings }
{}

/// The worked model's graph is faithful, and a flow of it is one run.
pub fn examples_come_out()
    ensures { Examples }
{}
