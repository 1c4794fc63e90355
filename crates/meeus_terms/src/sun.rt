// Meeus's formulas over a range of minutes: the equation of the centre, the apparent longitude, the obliquity, the sun.
// J. Meeus, Astronomical Algorithms, second edition (1998), chapters 25 and 22.
ghost use Rattle.std.specs.Prelude.{◌≡◌, ◌*◌, ◌^◌, ◌≤◌, pos, ◌-ℤ◌, ◌≤ℤ◌, unsigned_abs};
ghost use Rattle.fixed_interval.specs.Grid.{UNIT, reach};
ghost use Rattle.fixed_interval.specs.Interval.{ends};
ghost use Rattle.trig_series.specs.Angle.{range_of};
ghost use Rattle.trig_series.specs.Sine.{grid_sine, grid_cosine};
ghost use Rattle.trig_series.specs.Ranges.{added};
ghost use Rattle.solar_terms.specs.Sun.{minutes_of, terms_of};
ghost use Rattle.meeus_terms.specs.Meeus.{grid_mean_longitude, grid_node, grid_centre, grid_longitude, grid_obliquity, grid_meeus};

use crate::lines::{
    first_coefficient, mean_anomaly, mean_longitude, mean_obliquity, node, second_coefficient,
};
use crate::ranges::fixed;
use crate::scaled::{scaled, scaled_between};
use fixed_interval::Interval;
use solar_terms::{Minutes, Sun};
use trig_series::{Angle, sine, sine_and_cosine};

// C = c1 sin M + c2 sin 2M + 0.000289 sin 3M, in degrees.
#[tactic(auto, unfolding(crate::specs::Meeus::grid_centre))]
fn centre(m: Minutes) -> Angle
    ensures value { range_of result ≡ grid_centre (minutes_of m) }
    ensures low { unsigned_abs result.lo ≤ 3 * 2 ^ 42 }
    ensures high { unsigned_abs result.hi ≤ 3 * 2 ^ 42 }
{
    let g = mean_anomaly(m);
    let double = g.plus(g);
    let first = scaled_between(sine(g), first_coefficient(m));
    let second = scaled_between(sine(double), second_coefficient(m));
    let third = scaled(sine(double.plus(g)), 41_616_000);
    first.plus(second).plus(third)
}

// L0 + C.
fn true_longitude(m: Minutes) -> Angle
    ensures value { range_of result ≡ added (grid_mean_longitude (minutes_of m)) (grid_centre (minutes_of m)) }
    ensures low { unsigned_abs result.lo ≤ 2 ^ 55 }
    ensures high { unsigned_abs result.hi ≤ 2 ^ 55 }
    ensures narrow { (result.hi -ℤ result.lo) ≤ℤ pos 30000000000000 }
{
    mean_longitude(m).plus(centre(m))
}

// L = L0 + C - 0.00569 - 0.00478 sin N, in degrees.
#[tactic(auto, unfolding(crate::specs::Meeus::grid_longitude))]
fn longitude(m: Minutes, sin_node: Interval) -> Angle
    requires sine { ends sin_node ≡ grid_sine (grid_node (minutes_of m)) }
    requires sine_small { 3 * reach (ends sin_node) ≤ 4 * UNIT }
    ensures value { range_of result ≡ grid_longitude (minutes_of m) }
    ensures narrow { (result.hi -ℤ result.lo) ≤ℤ pos 51840000000000 }
{
    let seen = true_longitude(m).minus(fixed(819_360_000));
    seen.minus(scaled(sin_node, 688_320_000))
}

// e = e0 + 0.00256 cos N, in degrees.
#[tactic(auto, unfolding(crate::specs::Meeus::grid_obliquity))]
fn obliquity(m: Minutes, cos_node: Interval) -> Angle
    requires cosine { ends cos_node ≡ grid_cosine (grid_node (minutes_of m)) }
    requires cosine_small { 3 * reach (ends cos_node) ≤ 4 * UNIT }
    ensures value { range_of result ≡ grid_obliquity (minutes_of m) }
    ensures narrow { (result.hi -ℤ result.lo) ≤ℤ pos 51840000000000 }
{
    mean_obliquity(m).plus(scaled(cos_node, 368_640_000))
}

/// The sun over the minutes `m`, by the low accuracy formulas of Meeus, each term an enclosure that is rounded outward.
#[tactic(auto, unfolding(crate::specs::Meeus::grid_meeus))]
pub fn meeus_sun(m: Minutes) -> Sun
    ensures { terms_of result ≡ grid_meeus (minutes_of m) }
{
    let node = sine_and_cosine(node(m));
    let l = sine_and_cosine(longitude(m, node.sine));
    let e = sine_and_cosine(obliquity(m, node.cosine));
    let q = mean_longitude(m).minus(fixed(823_435_200));
    Sun::new(l.sine, l.cosine, e.sine, e.cosine, q)
}
