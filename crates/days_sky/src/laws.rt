// What is true of the judge of several days, as the contract of a function that does nothing.
ghost use Rattle.days_sky.specs.Days.{DaysHaveTheirOwnTrees};

/// Problem `7 * i + k` of several days has the tree of problem `k` of day `i`'s own sky: the same leaves
/// under its number, the same refuted rank and the same entry.
pub fn days_have_their_own_trees()
    ensures { DaysHaveTheirOwnTrees }
{}
