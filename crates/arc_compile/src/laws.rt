//! What holds of all compiled instances. Each function is empty but for other laws: a call brings its law in as a fact.

ghost use Rattle.arc_compile.specs.CompileLaws.{ExtendedWeightsTellFits, FinalGraphsAreExact, CompiledGraphsAreFaithful, CompiledGraphsAreOne, PaddingKeepsGraphs, SizesExist, SizesAreOne};

use final_compress::{
    cuts_keep_final_graphs, final_graphs_are_graphs, final_graphs_are_one,
    final_graphs_keep_contents, final_paths_weigh_no_more,
};
use level_graph::{
    choices_have_one_path, cuts_keep_level_graphs, level_graphs_are_graphs, level_graphs_exist,
    levels_are_one,
};
use main_compress::{
    cuts_keep_main_graphs, main_graphs_are_graphs, main_graphs_are_one, main_graphs_exist,
    main_graphs_keep_contents, main_paths_fit,
};

/// A content fits, caps included, exactly where its extended weight is within the extended capacity.
pub fn extended_weights_tell_fits()
    ensures { ExtendedWeightsTellFits }
{}

/// The paths of a type's final graph are the contents that fit the type.
pub fn final_graphs_are_exact()
    ensures { FinalGraphsAreExact }
{
    level_graphs_are_graphs();
    choices_have_one_path();
    main_graphs_are_graphs();
    main_paths_fit();
    main_graphs_keep_contents();
    final_graphs_are_graphs();
    final_paths_weigh_no_more();
    final_graphs_keep_contents();
}

/// The numbered arcs of a compiled instance are faithful to it.
pub fn compiled_graphs_are_faithful()
    ensures { CompiledGraphsAreFaithful }
{
    level_graphs_are_graphs();
    main_graphs_are_graphs();
    final_graphs_are_graphs();
    final_graphs_are_exact();
}

/// There is but one graph, and one list of sizes, to which an instance is compiled.
pub fn compiled_graphs_are_one()
    ensures { CompiledGraphsAreOne }
{
    levels_are_one();
    main_graphs_are_one();
    final_graphs_are_one();
}

/// Zeros behind all weights and capacities change nothing of the graphs of a type.
pub fn padding_keeps_graphs()
    ensures { PaddingKeepsGraphs }
{
    level_graphs_are_graphs();
    cuts_keep_level_graphs();
    main_graphs_are_graphs();
    cuts_keep_main_graphs();
    cuts_keep_final_graphs();
}

/// Each instance is small, or too large from some first type on.
pub fn sizes_exist()
    ensures { SizesExist }
{
    level_graphs_are_graphs();
    level_graphs_exist();
    main_graphs_exist();
}

/// No instance is both small and too large, and but one type is the first with which it is too large.
pub fn sizes_are_one()
    ensures { SizesAreOne }
{
    levels_are_one();
    main_graphs_are_one();
}
