// What is true of the Asr value, each law the contract of a function that does nothing.
ghost use Rattle.asr_test.specs.AsrLaws.{AsrNarrows, GridAsrHolds, AsrIsOneSided, GridShowsAsr};
ghost use Rattle.asr_test.specs.Tolerance.{AsrIsClose, OpenAsrIsNear};

/// Over less of the sky or at a greater depth the exact value lies in what it was before.
pub fn value_narrows()
    ensures { AsrNarrows }
{}

/// The value on the grid holds the exact value of each part of its sun, minutes and places.
pub fn grid_holds_value()
    ensures { GridAsrHolds }
{}

/// At no place and minute does the condition both hold and fail.
pub fn value_is_one_sided()
    ensures { AsrIsOneSided }
{}

/// Where the ends on the grid lie on one side of zero, the value lies on that side at each of the places and minutes.
pub fn grid_shows_side()
    ensures { GridShowsAsr }
{}

/// Over one minute and a box of 16 place units each way the value on the grid is at most 2^-14 wide.
pub fn value_is_close()
    ensures { AsrIsClose }
{}

/// There, ends on both sides of zero show that the value is within 2^-14 of zero.
pub fn open_value_is_near()
    ensures { OpenAsrIsNear }
{}
