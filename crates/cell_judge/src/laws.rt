// What is true of the judge of the sky and of the entries of the table, each law the contract of a function that does nothing.
ghost use Rattle.cell_judge.specs.DayLaws.{DaysAreInLimits, DaysHaveRows};
ghost use Rattle.cell_judge.specs.EntryLaws.{DistrictsLieInTheirRoot, TrueVerdictsMakeRightEntries, ConditionsAreOneSided, OneDecidedEntryIsRight};
ghost use Rattle.cell_judge.specs.KindLaws.{GridHoldsEveryKind, ValuesOfEveryKindNarrow};
ghost use Rattle.cell_judge.specs.SkyLaws.{DistrictsLieInRootsOverThem, NamedPlacesArePoints, ProblemsAreRows, SkiesAreLawful, SkiesTellTheTruth, VerdictsOfEverySunAreTrue};

/// Under every sun a verdict is true: where a cell is proved, the condition holds at every place of the district in the
/// box at every rank; where it is refuted, it fails at the point at every rank; where it is outside, no place of the
/// district is in the box; where it is open, the value at the point is within the tolerance.
pub fn verdicts_of_every_sun_are_true()
    ensures { VerdictsOfEverySunAreTrue }
{}

/// The verdicts of a sky are true.
pub fn skies_tell_the_truth()
    ensures { SkiesTellTheTruth }
{}

/// A smallest cell is never split by a sky, and only a smallest cell is open.
pub fn skies_are_lawful()
    ensures { SkiesAreLawful }
{}

/// The problems that a sky takes have conditions in range, and frames within the limits of the sun.
pub fn problems_are_rows()
    ensures { ProblemsAreRows }
{}

/// Every row of the table for a day from 1900 to 2100 is one that a sky can judge.
pub fn days_have_rows()
    ensures { DaysHaveRows }
{}

/// So the problems of such a day are within the limits of the sun.
pub fn days_are_in_limits()
    ensures { DaysAreInLimits }
{}

/// Every place of a district lies in the box of a root that is over its positions.
pub fn districts_lie_in_roots_over_them()
    ensures { DistrictsLieInRootsOverThem }
{}

/// Every place of a district lies in the box of the root at its least longitude and latitude.
pub fn districts_lie_in_their_root()
    ensures { DistrictsLieInTheirRoot }
{}

/// The entry of a judge whose verdicts are true is right: it says of every rational place of the district, at every
/// minute to its frame's end, what is so.
pub fn true_verdicts_make_right_entries()
    ensures { TrueVerdictsMakeRightEntries }
{}

/// At no place and minute does a condition both hold and fail.
pub fn conditions_are_one_sided()
    ensures { ConditionsAreOneSided }
{}

/// Of all entries that are no undecided ones at most one is right.
pub fn one_decided_entry_is_right()
    ensures { OneDecidedEntryIsRight }
{}

/// The place that is named for a cell of a root is never beyond the limits of points.
pub fn named_places_are_points()
    ensures { NamedPlacesArePoints }
{}

/// Over less of the sky or at a greater depth the exact value of every kind lies in what it was before.
pub fn values_of_every_kind_narrow()
    ensures { ValuesOfEveryKindNarrow }
{}

/// The value of every kind on the grid holds the exact value of each part of its sun, minutes and places.
pub fn grid_holds_every_kind()
    ensures { GridHoldsEveryKind }
{}
