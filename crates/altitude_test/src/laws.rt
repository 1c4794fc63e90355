// What is true of the values, each law the contract of a function that does nothing.
ghost use Rattle.altitude_test.specs.ValueLaws.{AltitudeNarrows, MeridianNarrows, GridAltitudeHolds, GridMeridianHolds};
ghost use Rattle.altitude_test.specs.Tolerance.{AltitudeIsClose, MeridianIsClose, OpenAltitudeIsNear, OpenMeridianIsNear};
ghost use Rattle.altitude_test.specs.Verdicts.{AltitudeIsOneSided, MeridianIsOneSided, GridShowsAltitude, GridShowsMeridian};

/// Over less of the sky or at a greater depth the exact values lie in what they were before.
pub fn values_narrow()
    ensures altitude { AltitudeNarrows }
    ensures meridian { MeridianNarrows }
{}

/// The values on the grid hold the exact values of each part of their sun, minutes and places.
pub fn grid_holds_values()
    ensures altitude { GridAltitudeHolds }
    ensures meridian { GridMeridianHolds }
{}

/// At no place and minute does a condition both hold and fail.
pub fn values_are_one_sided()
    ensures altitude { AltitudeIsOneSided }
    ensures meridian { MeridianIsOneSided }
{}

/// Where the ends on the grid lie on one side of zero, the value lies on that side at each of the places and minutes.
pub fn grid_shows_side()
    ensures altitude { GridShowsAltitude }
    ensures meridian { GridShowsMeridian }
{}

/// Over one minute and a box of 16 place units each way the values on the grid are at most 2^-24 wide.
pub fn values_are_close()
    ensures altitude { AltitudeIsClose }
    ensures meridian { MeridianIsClose }
{}

/// There, ends on both sides of zero show that the value is within 2^-24 of zero.
pub fn open_values_are_near()
    ensures altitude { OpenAltitudeIsNear }
    ensures meridian { OpenMeridianIsNear }
{}
