// The laws of pi, sine and cosine. Each is the contract of a function that does nothing.

ghost use Rattle.trig_series.specs.Laws.{SinesKeepLiesIn, GridSinesKeepLiesIn, GridSinesHoldExact, SinesKeepOrder, SinesNest, SinesAreBounded, JoinsTheQuartersMet};

/// What lies in a range has its sine in the sine of the range, exact.
pub fn sines_are_monotone()
    ensures { SinesKeepLiesIn }
{}

/// What lies in a range has its sine in the sine of the range, on the grid.
pub fn grid_sines_are_monotone()
    ensures { GridSinesKeepLiesIn }
{}

/// The grid holds the exact pi, series, sine and cosine at depth 12.
pub fn grid_sines_hold_exact()
    ensures { GridSinesHoldExact }
{}

/// Ends in order give results whose ends are in order.
pub fn sines_are_ordered()
    ensures { SinesKeepOrder }
{}

/// Pi, sine and cosine at a greater depth lie in those at a lesser.
pub fn sines_nest()
    ensures { SinesNest }
{}

/// No sine reaches past 4/3, and a narrow range has a narrow sine, across the seams too.
pub fn sines_are_bounded()
    ensures { SinesAreBounded }
{}

/// A sine is the hull over exactly the quarters that have a point in common with the range, exact and on the grid.
pub fn joined_quarters_are_those_met()
    ensures { JoinsTheQuartersMet }
{}
