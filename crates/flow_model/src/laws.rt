//! What holds of all models. Each function is empty: a call brings its law in as a fact.

ghost use Rattle.flow_model.specs.Models.{ModelsArePrograms, SolutionsAreFlows};
ghost use Rattle.flow_model.specs.Packed.{PackingsAreFlows};
ghost use Rattle.flow_model.specs.Boxes.{BoxesSplit};
ghost use Rattle.flow_model.specs.Flows.{FlowsLieInRoot};
ghost use Rattle.flow_model.specs.Prices.{PricesAddUp, ConservedIsBalanced};
ghost use Rattle.flow_model.specs.Worked.{Examples};

/// The program of a model keeps the rules of programs: its names are names, and no two are the same.
pub fn models_are_programs()
    ensures { ModelsArePrograms }
{}

/// The solutions of the program of a model are the flows, and its objective is what the bins cost.
pub fn solutions_are_flows()
    ensures { SolutionsAreFlows }
{}

/// Each packing without empty bins is a flow of the same cost on each faithful graph: the sum of one path for each bin,
/// with what is in the bin.
pub fn packings_are_flows()
    ensures { PackingsAreFlows }
{}

/// Each flow lies in the root box, of which no range is empty.
pub fn flows_lie_in_root()
    ensures { FlowsLieInRoot }
{}

/// Values lie in just one part of a box that is split, and the parts lie within the box.
pub fn boxes_split()
    ensures { BoxesSplit }
{}

/// Whatever the prices of the arcs, values that are a sum of paths cost what their ways cost.
pub fn prices_add_up()
    ensures { PricesAddUp }
{}

/// Conserved values are balanced as signed numbers, so that potentials cancel over them.
pub fn conserved_is_balanced()
    ensures { ConservedIsBalanced }
{}

/// A model that is worked by hand.
pub fn examples_come_out()
    ensures { Examples }
{}
