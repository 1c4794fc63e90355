// Laws of letters: the contracts of functions that do nothing.
ghost use Rattle.covering.specs.Laws.{LettersAreThoseOfTheChildren};

/// A cut cell has one letter; a split cell has its own, and then those of its children in tree order;
/// any other cell has its own alone.
pub fn letters_are_those_of_the_children()
    ensures { LettersAreThoseOfTheChildren }
{}
