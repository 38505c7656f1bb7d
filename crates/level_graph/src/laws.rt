//! What holds of all level graphs. Each function is empty: a call brings its law in as a fact.

ghost use Rattle.level_graph.specs.LevelLaws.{PathsAreChoices, ChoicesHaveOnePath, LevelGraphsExist, LevelsAreOne, LevelGraphsAreGraphs, CutsKeepLevelGraphs};

/// The content of each path from the source to the target is there and fits.
pub fn paths_are_choices()
    ensures { PathsAreChoices }
{}

/// Each content that is there and fits is that of exactly one path from the source to the target.
pub fn choices_have_one_path()
    ensures { ChoicesHaveOnePath }
{}

/// There is a level graph of each list of pieces and each capacity that they fit.
pub fn level_graphs_exist()
    ensures { LevelGraphsExist }
{}

/// There is but one level graph of a list of pieces and a capacity.
pub fn levels_are_one()
    ensures { LevelsAreOne }
{}

/// The level graph is a graph, and its labels fit the capacity.
pub fn level_graphs_are_graphs()
    ensures { LevelGraphsAreGraphs }
{}

/// Zeros behind all weights and the capacity change nothing of a level graph.
pub fn cuts_keep_level_graphs()
    ensures { CutsKeepLevelGraphs }
{}
