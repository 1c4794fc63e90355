// What is true of the exact sun, each law the contract of a function that does nothing.
ghost use Rattle.solar_terms.specs.SunLaws.{ObservatoryIsSound};
ghost use Rattle.solar_terms.specs.SunWidths.{ObservatoryIsNarrow};

/// Over fewer minutes or at a greater depth the exact sun lies in what it was before, and the sun on the grid holds it.
pub fn observatory_is_sound()
    ensures { ObservatoryIsSound }
{}

/// At one minute each term of the sun on the grid is at most 2^-36 wide, and the sine of the obliquity at most 0.42.
pub fn observatory_is_narrow()
    ensures { ObservatoryIsNarrow }
{}
