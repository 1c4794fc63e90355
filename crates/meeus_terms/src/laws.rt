// What is true of Meeus's sun and of every sun that can be chosen, each law the contract of a function that does nothing.
ghost use Rattle.meeus_terms.specs.MeeusLaws.{MinutesAreThemselves, MeeusIsSound, MeeusIsNarrow};
ghost use Rattle.meeus_terms.specs.Suns.{SunsAreSound};

/// The minutes of a `Minutes` are taken as they are: none is beyond the limits.
pub fn minutes_are_themselves()
    ensures { MinutesAreThemselves }
{}

/// Over fewer minutes or at a greater depth the exact sun lies in what it was before, and the sun on the grid holds it.
pub fn meeus_is_sound()
    ensures { MeeusIsSound }
{}

/// At one minute each term of the sun on the grid is at most 2^-36 wide, and the sine of the obliquity at most 0.42.
pub fn meeus_is_narrow()
    ensures { MeeusIsNarrow }
{}

/// Of each choice: over fewer minutes or at a greater depth the exact sun lies in what it was before, the sun on the grid
/// holds it, and at one minute each term on the grid is at most 2^-36 wide.
pub fn suns_are_sound()
    ensures { SunsAreSound }
{}
