// What is true of the tables of sets, the law as the contract of a function that does nothing.
ghost use Rattle.set_table.specs.Laws.{SetsAreRight};

/// The table of a set has the days and the rows that the order asks for. Each district's entries are right for it, or
/// open as said, and so are those of all districts together, at every place of each; beside a decided entry no other
/// decided one is right, so that where these and the entries of the one district of all polygons are both decided, they
/// are equal.
pub fn sets_are_right()
    ensures { SetsAreRight }
{}
