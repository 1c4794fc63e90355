// What is true of the tables that coverings show, each law the contract of a function that does nothing.
ghost use Rattle.shown_table.specs.Right.{ShownTablesAreRight};

/// Each entry that a covering's lines show is right, or open as said, whoever made the covering.
pub fn shown_tables_are_right()
    ensures { ShownTablesAreRight }
{}
