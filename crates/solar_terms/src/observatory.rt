// The observatory's formulas over a range of minutes, in degrees and days D since the epoch:
// https://aa.usno.navy.mil/faq/sun_approx
ghost use Rattle.std.specs.Prelude.{◌≡◌, ◌≤◌, pos, ◌-ℤ◌, ◌≤ℤ◌};
ghost use Rattle.trig_series.specs.Angle.{range_of};
ghost use Rattle.solar_terms.specs.Sun.{minutes_of, terms_of, grid_longitude, grid_sun};

use crate::angles::{mean_anomaly, mean_longitude, obliquity, scaled_sine};
use crate::{Minutes, Sun};
use trig_series::{Angle, sine_and_cosine};

// L = q + 1.915 sin g + 0.020 sin 2g, in degrees.
#[tactic(auto, unfolding(crate::specs::Sun::grid_longitude))]
fn longitude(m: Minutes) -> Angle
    ensures value { range_of result ≡ grid_longitude (minutes_of m) }
    ensures narrow { (result.hi -ℤ result.lo) ≤ℤ pos 51840000000000 }
{
    let g = mean_anomaly(m);
    let first = scaled_sine(g, 275_760_000_000);
    let second = scaled_sine(g.plus(g), 2_880_000_000);
    mean_longitude(m).plus(first).plus(second)
}

/// The sun over the minutes `m`, by the approximate solar coordinates of the US Naval Observatory,
/// each term an enclosure that is rounded outward.
#[tactic(auto, unfolding(crate::specs::Sun::grid_sun))]
pub fn sun(m: Minutes) -> Sun
    ensures { terms_of result ≡ grid_sun (minutes_of m) }
{
    let l = sine_and_cosine(longitude(m));
    let e = sine_and_cosine(obliquity(m));
    Sun::new(l.sine, l.cosine, e.sine, e.cosine, mean_longitude(m))
}
