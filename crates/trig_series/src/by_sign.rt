// Sine and cosine of x radians: by magnitudes where x has one sign, as it mostly has, and else by intervals.

ghost use Rattle.std.specs.Prelude.{◌≡◌, ◌^◌, ◌≤◌};
ghost use Rattle.fixed_interval.specs.Grid.{UNIT, reach};
ghost use Rattle.fixed_interval.specs.Interval.{ends};
ghost use Rattle.trig_series.specs.Series.{grid_sine_series, grid_cosine_series};

use crate::alternating::{both_of_magnitudes, cosine_of_magnitudes, sine_of_magnitudes};
use crate::magnitudes::Magnitudes;
use crate::series::{cosine_series, negated, sine_series};
use fixed_interval::Interval;

/// Enclosures of the sine and of the cosine of the same angles.
#[derive(Clone, Copy)]
pub struct SineAndCosine {
    pub sine: Interval,
    pub cosine: Interval,
}

/// Sine and cosine of x radians, for an x of at most 1 radian either way.
pub(crate) fn both_of_radians(x: Interval) -> SineAndCosine
    requires { reach (ends x) ≤ UNIT }
    ensures sine { ends result.sine ≡ grid_sine_series (ends x) }
    ensures cosine { ends result.cosine ≡ grid_cosine_series (ends x) }
{
    if 0 <= x.lo {
        let (sine, cosine) = both_of_magnitudes(Magnitudes::of(x));
        SineAndCosine { sine, cosine }
    } else if x.hi <= 0 {
        let (sine, cosine) = both_of_magnitudes(Magnitudes::of(negated(x)));
        SineAndCosine {
            sine: negated(sine),
            cosine,
        }
    } else {
        SineAndCosine {
            sine: sine_series(x),
            cosine: cosine_series(x),
        }
    }
}

/// The sine of x radians, for an x of at most 1 radian either way.
pub(crate) fn sine_of_radians(x: Interval) -> Interval
    requires { reach (ends x) ≤ UNIT }
    ensures value { ends result ≡ grid_sine_series (ends x) }
    ensures bound { reach (ends result) ≤ 2 ^ 60 }
{
    if 0 <= x.lo {
        sine_of_magnitudes(Magnitudes::of(x))
    } else if x.hi <= 0 {
        negated(sine_of_magnitudes(Magnitudes::of(negated(x))))
    } else {
        sine_series(x)
    }
}

/// The cosine of x radians, for an x of at most 1 radian either way.
pub(crate) fn cosine_of_radians(x: Interval) -> Interval
    requires { reach (ends x) ≤ UNIT }
    ensures value { ends result ≡ grid_cosine_series (ends x) }
    ensures bound { reach (ends result) ≤ 2 ^ 60 }
{
    if 0 <= x.lo {
        cosine_of_magnitudes(Magnitudes::of(x))
    } else if x.hi <= 0 {
        cosine_of_magnitudes(Magnitudes::of(negated(x)))
    } else {
        cosine_series(x)
    }
}
