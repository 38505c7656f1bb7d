//! What holds of all joint models. Each function is empty: a call brings its law in as a fact.

ghost use Rattle.joint_model.specs.JointModels.{JointModelsArePrograms, SolutionsAreFlows};

/// The program of a joint model keeps the rules of programs: its names are names, and no two are the same.
pub fn joint_models_are_programs()
    ensures { JointModelsArePrograms }
{}

/// The solutions of the program of a joint model are the flows of its graph, and its objective is what the bins cost.
pub fn solutions_are_flows()
    ensures { SolutionsAreFlows }
{}
