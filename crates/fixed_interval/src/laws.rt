// The laws of the operations. Each is the contract of a function that does nothing.
ghost use Rattle.fixed_interval.specs.Laws.{LiesInIsAPreorder, EndsShowTheSign, RoundsToTheLeast};
ghost use Rattle.fixed_interval.specs.Laws.{KeepsLiesIn, GridKeepsLiesIn, GridHoldsExact, KeepsOrder};
ghost use Rattle.fixed_interval.specs.Laws.{RootNests, BoundsEachResult, RatioIsInRange};

/// To lie in is a preorder, and what lies in an enclosure with a sign has that sign and not the other.
pub fn lies_in_is_a_preorder()
    ensures { LiesInIsAPreorder }
{}

/// Ends on the grid have a sign exactly where the one nearer to zero does.
pub fn ends_show_the_sign()
    ensures { EndsShowTheSign }
{}

/// Rounding outward gives the least enclosure on the grid.
pub fn rounding_gives_the_least()
    ensures { RoundsToTheLeast }
{}

/// Exact arguments that lie in others give a result that lies in theirs.
pub fn exact_operations_are_monotone()
    ensures { KeepsLiesIn }
{}

/// Arguments on the grid that lie in others give a result that lies in theirs.
pub fn grid_operations_are_monotone()
    ensures { GridKeepsLiesIn }
{}

/// The grid form holds the exact result of arguments that lie in its own.
pub fn grid_holds_exact()
    ensures { GridHoldsExact }
{}

/// Ends in order give a result whose ends are in order.
pub fn results_are_ordered()
    ensures { KeepsOrder }
{}

/// A root at a greater depth lies in the one at a lesser.
pub fn roots_nest()
    ensures { RootNests }
{}

/// How far each result reaches and how wide it is, from the same of the arguments.
pub fn results_are_bounded()
    ensures { BoundsEachResult }
{}

/// The condition of `times_ratio` says that its result is in range, and no more.
pub fn ratio_condition_is_exact()
    ensures { RatioIsInRange }
{}
