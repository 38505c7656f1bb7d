//! What holds of all graphs. Each function is empty: a call brings its law in as a fact.

ghost use Rattle.flow_graph.specs.Laws.{NodesLieOnPaths, NodesAreFew, NumbersAreArcs, NumbersHaveKinds, NumbersAreUnique, PathsHaveNumbers, PathsJoin, NodesHaveTreeArcs, ChordsExtend, PotentialsCancel, PointsAreCounted};
ghost use Rattle.flow_graph.specs.Worked.{Examples};

/// Each node of a type lies on a path from the source to the target.
pub fn nodes_lie_on_paths()
    ensures { NodesLieOnPaths }
{}

/// The numbers of a type are those of its bin arc and of its arcs, and no number is left over.
pub fn numbers_are_arcs()
    ensures { NumbersAreArcs }
{}

/// The arcs of each path of a type have numbers.
pub fn paths_have_numbers()
    ensures { PathsHaveNumbers }
{}

/// Each node of a type but its source has one tree arc.
pub fn nodes_have_tree_arcs()
    ensures { NodesHaveTreeArcs }
{}

/// Each number is that of the bin arc of a type or of one of its arcs.
pub fn numbers_have_kinds()
    ensures { NumbersHaveKinds }
{}

/// No two numbers are those of the same arc.
pub fn numbers_are_unique()
    ensures { NumbersAreUnique }
{}

/// All types together have no more nodes than there may be numbered arcs.
pub fn nodes_are_few()
    ensures { NodesAreFew }
{}

/// Paths that meet give one path.
pub fn paths_join()
    ensures { PathsJoin }
{}

/// Values on the chords extend to all arcs in balance, and in one way only.
pub fn chords_extend()
    ensures { ChordsExtend }
{}

/// Whatever the numbers at the nodes, what the arcs of balanced values rise, each times its value, adds up to nothing.
pub fn potentials_cancel()
    ensures { PotentialsCancel }
{}

/// A box has at least one point, just one where each chord has one value, and as many as the parts of a split.
pub fn points_are_counted()
    ensures { PointsAreCounted }
{}

/// Examples of arcs and boxes that are worked by hand.
pub fn examples_come_out()
    ensures { Examples }
{}
