//! What holds of every tree. Each function is empty: a call brings its law in as a fact.

ghost use Rattle.search_tree.specs.Laws.{PartsAreShown};
ghost use Rattle.search_tree.specs.Points.{OpenTreesHavePoints};

use flow_graph::points_are_counted;

/// Prices that close a box close each part of it for the same claim.
pub fn parts_are_shown()
    ensures { PartsAreShown }
{}

/// A tree of chord splits that could be split once more has fewer places than its root box has points.
pub fn open_trees_have_points()
    ensures { OpenTreesHavePoints }
{
    points_are_counted();
}
