// What is true of sets of districts, each law the contract of a function that does nothing.
ghost use Rattle.district_set.specs.JoinLaws.{JoinsAgree, JoinsAreRight};
ghost use Rattle.district_set.specs.Sets.{SetsHaveTheirOwnTrees};

/// Problem `7 * i + k` of a set has the tree of problem `k` of judge `i`: the same leaves under its number, the same
/// refuted rank and the same entry.
pub fn sets_have_their_own_trees()
    ensures { SetsHaveTheirOwnTrees }
{}

/// Where the entry of each district is right, or open as said, their join is so for the district of all polygons.
pub fn joins_are_right()
    ensures { JoinsAreRight }
{}

/// Where the join and a right entry of the district of all polygons are both decided, they are equal.
pub fn joins_agree()
    ensures { JoinsAgree }
{}
