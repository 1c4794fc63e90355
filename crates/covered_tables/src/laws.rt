// What is true of every covering that is written: the contracts of functions that do nothing.
ghost use Rattle.covered_tables.specs.Covered.{CoveringsAreRead, CoveringsAreShown};

/// The covering of an order, in either form, is read as that order with the lines behind the first one.
pub fn coverings_are_read()
    ensures { CoveringsAreRead }
{}

/// Those lines are answered as the order itself is: by its table, byte for byte, with the count of its undecided
/// entries.
pub fn coverings_are_shown()
    ensures { CoveringsAreShown }
{}
