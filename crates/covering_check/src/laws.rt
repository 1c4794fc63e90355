// What is true of every line that is accepted: the contracts of functions that do nothing.
ghost use Rattle.covering_check.specs.Acceptance.{SettledTreesAreShown, TreeLinesAreAccepted};
ghost use Rattle.covering_check.specs.Truth.{AcceptedLinesAreTrue};

/// The entry that a line shows is that of cells judged by the judge, which have every place of the root at every
/// rank above the greatest refuted one: who made the line doesn't matter.
pub fn accepted_lines_are_true()
    ensures { AcceptedLinesAreTrue }
{}

/// The letters of a settled tree, with its refuted leaf, show its entry.
pub fn settled_trees_are_shown()
    ensures { SettledTreesAreShown }
{}

/// Each line of the first form that is written of a settled tree, in any spelling of its JSON, is accepted and shows
/// the tree's entry.
pub fn tree_lines_are_accepted()
    ensures { TreeLinesAreAccepted }
{}
