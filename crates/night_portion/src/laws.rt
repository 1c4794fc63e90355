// What is true of the nights of high latitudes, each law the contract of a function that does nothing.
ghost use Rattle.night_portion.specs.Few.{FirstProblemsKeepTheirTrees};
ghost use Rattle.night_portion.specs.Laws.{DaysHaveNights, NightsAreSafe, SunHasRows};

/// Where the entries of Fajr, Isha, sunrise and sunset are right, a Fajr that is given is at every place of the district no
/// earlier than the place's own, and no earlier than the part of the night before the place's own sunrise; an Isha that is
/// given is no earlier than one of the two. At every place each condition that is spoken of holds at last.
pub fn nights_are_safe()
    ensures { NightsAreSafe }
{}

/// A sky can judge the rows of a day's sunrise and sunset.
pub fn sun_has_rows()
    ensures { SunHasRows }
{}

/// A night's rows are such that their safe ranks are minutes from which on their conditions hold.
pub fn days_have_nights()
    ensures { DaysHaveNights }
{}

/// Each of a judge's first problems has the tree that it has for that judge: the same leaves, refuted rank and entry.
pub fn first_problems_keep_their_trees()
    ensures { FirstProblemsKeepTheirTrees }
{}
