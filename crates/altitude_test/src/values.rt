// The values of a box of places and a range of minutes.
ghost use Rattle.std.specs.Prelude.{◌≡◌, ◌*◌, ◌≤◌, pos, ◌≤ℤ◌};
ghost use Rattle.fixed_interval.specs.Grid.{UNIT, reach, grid_sum, grid_product};
ghost use Rattle.fixed_interval.specs.Interval.{ends};
ghost use Rattle.trig_series.specs.Angle.{range_of};
ghost use Rattle.trig_series.specs.Sine.{grid_sine, grid_cosine};
ghost use Rattle.solar_terms.specs.Sun.{minutes_of, terms_of};
ghost use Rattle.altitude_test.specs.Values.{box_of, altitude_by, grid_latitude, grid_altitude_sine, grid_altitude_value, grid_meridian_value, meridian_by};

use crate::Place;
use crate::directions::{Direction, latitude_direction, sidereal_direction};
use crate::products::{product_of_three, product_of_two};
use fixed_interval::Interval;
use solar_terms::{Minutes, Sun};
use trig_series::{Angle, sine};

// cos θ · cos L + sin θ · cos e · sin L at the sidereal time θ.
fn toward_meridian(s: &Sun, theta: Direction) -> Interval
    ensures value { ends result ≡ grid_sum
        (grid_product (ends theta.cosine) (ends s.now.cos_l))
        (grid_product (grid_product (ends theta.sine) (ends s.now.cos_e)) (ends s.now.sin_l)) }
    ensures bound { 100 * reach (ends result) ≤ 416 * UNIT }
{
    let level = product_of_two(theta.cosine, s.cos_l);
    level.sum(product_of_three(theta.sine, s.cos_e, s.sin_l))
}

// cos φ times the part toward the meridian.
fn level_part(s: &Sun, phi: Direction, theta: Direction) -> Interval
    ensures value { ends result ≡ grid_product
        (ends phi.cosine)
        (grid_sum
        (grid_product (ends theta.cosine) (ends s.now.cos_l))
        (grid_product (grid_product (ends theta.sine) (ends s.now.cos_e)) (ends s.now.sin_l))) }
    ensures bound { 100 * reach (ends result) ≤ 555 * UNIT }
{
    phi.cosine.narrow_product(toward_meridian(s, theta))
}

/// The sine of the sun's altitude over the places `p` at the minutes `m`, whose sun is `s`: at most 8.
pub fn altitude_sine(s: &Sun, m: Minutes, p: Place) -> Interval
    ensures value { ends result ≡ grid_altitude_sine (terms_of s.now) (minutes_of m) (box_of p) }
    ensures bound { reach (ends result) ≤ 8 * UNIT }
{
    altitude_sine_at(s, m, p, latitude_direction(p))
}

/// The same, with the sine and the cosine of the places' latitudes already made.
#[tactic(auto, unfolding(crate::specs::Values::grid_altitude_sine))]
pub fn altitude_sine_at(s: &Sun, m: Minutes, p: Place, phi: Direction) -> Interval
    requires sine { ends phi.sine ≡ grid_sine (grid_latitude (box_of p)) }
    requires cosine { ends phi.cosine ≡ grid_cosine (grid_latitude (box_of p)) }
    ensures value { ends result ≡ grid_altitude_sine (terms_of s.now) (minutes_of m) (box_of p) }
    ensures bound { reach (ends result) ≤ 8 * UNIT }
{
    altitude_sine_by(s, phi, sidereal_direction(s, m, p))
}

/// The same by the latitude `phi` and the sidereal time `theta`, wherever these were made.
#[tactic(auto, using(fixed_interval::proofs::Sizes::abs_sum))]
pub fn altitude_sine_by(s: &Sun, phi: Direction, theta: Direction) -> Interval
    ensures value { ends result ≡ altitude_by (terms_of s.now) (ends phi.sine) (ends phi.cosine) (ends theta.sine) (ends theta.cosine) }
    ensures bound { reach (ends result) ≤ 8 * UNIT }
{
    let up = product_of_three(phi.sine, s.sin_e, s.sin_l);
    up.sum(level_part(s, phi, theta))
}

/// The altitude value for every angle of a range: above zero where the sun is above each of these angles below
/// the horizon, below zero where it is below each.
#[tactic(auto, unfolding(crate::specs::Values::grid_altitude_value))]
pub fn altitude_value(s: &Sun, m: Minutes, p: Place, angle: Angle) -> Interval
    requires not_before { pos 0 ≤ℤ angle.lo }
    requires not_after { angle.hi ≤ℤ pos 4320000000000 }
    ensures { ends result ≡ grid_altitude_value (terms_of s.now) (minutes_of m) (box_of p) (range_of angle) }
{
    altitude_sine(s, m, p).sum(sine(angle))
}

/// The meridian value: above zero where the sun is past the meridian, below zero where it is before it.
#[tactic(auto, unfolding(crate::specs::Values::grid_meridian_value))]
pub fn meridian_value(s: &Sun, m: Minutes, p: Place) -> Interval
    ensures { ends result ≡ grid_meridian_value (terms_of s.now) (minutes_of m) (box_of p) }
{
    meridian_value_by(s, sidereal_direction(s, m, p))
}

/// The same by the sidereal time `theta`, wherever it was made.
pub fn meridian_value_by(s: &Sun, theta: Direction) -> Interval
    ensures { ends result ≡ meridian_by (terms_of s.now) (ends theta.sine) (ends theta.cosine) }
{
    let east = product_of_two(theta.sine, s.cos_l);
    east.difference(product_of_three(theta.cosine, s.cos_e, s.sin_l))
}
