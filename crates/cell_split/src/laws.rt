// Laws of cells and of trees: the contracts of functions that do nothing.
ghost use Rattle.cell_split.specs.Laws.{ChildrenAreApart, ChildrenCoverTheirParent, ChildrenLieInTheirParent, LeavesAreApart, LeavesAreTheTree, LeavesAreThoseOfTheChildren, LeavesCoverTheRoot};
ghost use Rattle.cell_split.specs.Renumbered.{JudgesOfLawfulOnesAreLawful, RenumberedTreesAreTheSame};

/// The children of a cell of a root are cells of the root that lie in it, and have fewer levels than it:
/// so every tree ends.
pub fn children_lie_in_their_parent()
    ensures { ChildrenLieInTheirParent }
{}

/// Each place of a cell at each of its ranks is in a child, unless the cell is smallest.
pub fn children_cover_their_parent()
    ensures { ChildrenCoverTheirParent }
{}

/// Two children have no rank in common, or no place but for shared sides.
pub fn children_are_apart()
    ensures { ChildrenAreApart }
{}

/// The leaves of a split task are those of its children; any other task is its own leaf.
pub fn leaves_are_those_of_the_children()
    ensures { LeavesAreThoseOfTheChildren }
{}

/// Each place of the root at each rank is in a leaf of each problem.
pub fn leaves_cover_the_root()
    ensures { LeavesCoverTheRoot }
{}

/// The leaves of a problem are the tasks of its tree that aren't split, with their verdicts.
pub fn leaves_are_the_tree()
    ensures { LeavesAreTheTree }
{}

/// Two leaves of a problem have no rank in common, or no place but for shared sides; none stands twice.
pub fn leaves_are_apart()
    ensures { LeavesAreApart }
{}

/// A judge that answers for its problem `j` as another one does for its problem `k` has that tree: the
/// same leaves under the number `j`, the same refuted rank and the same entry.
pub fn renumbered_trees_are_the_same()
    ensures { RenumberedTreesAreTheSame }
{}

/// A judge that answers for each of its problems as some lawful judge does for one of its own is lawful.
pub fn judges_of_lawful_ones_are_lawful()
    ensures { JudgesOfLawfulOnesAreLawful }
{}
