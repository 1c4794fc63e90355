// Meeus's lines over a range of minutes, each from its value at one end to that at the other, rounded outward to whole units.
ghost use Rattle.std.specs.Prelude.{◌≡◌, ◌^◌, ◌≤◌, pos, neg_ℤ, ◌-ℤ◌, ◌≤ℤ◌, unsigned_abs};
ghost use Rattle.trig_series.specs.Angle.{range_of};
ghost use Rattle.solar_terms.specs.Sun.{minutes_of};
ghost use Rattle.meeus_terms.specs.Meeus.{grid_mean_longitude, grid_mean_anomaly, grid_node};
ghost use Rattle.meeus_terms.specs.Meeus.{grid_first_coefficient, grid_second_coefficient, grid_mean_obliquity};
ghost use Rattle.meeus_terms.specs.Polynomials.{linear_top, quadratic_top, cubic_top};

use crate::polynomials::{CENTURY, cubic, linear, quadratic, whole_units};
use solar_terms::Minutes;
use trig_series::Angle;

const SQUARE: u128 = (CENTURY * CENTURY) as u128;

const CUBE: u128 = (CENTURY * CENTURY * CENTURY) as u128;

// L0 at one minute, over the square of a century.
fn mean_longitude_at(k: i64) -> i128
    requires { unsigned_abs k ≤ 53200000 }
    ensures value { result ≡ quadratic_top (pos 40387170240000) (pos 5184110855520000) (pos 43660800) k 52596000 }
    ensures bound { unsigned_abs result ≤ 2 ^ 105 }
{
    quadratic(40_387_170_240_000, 5_184_110_855_520_000, 43_660_800, k)
}

// M at one minute, over the square of a century.
fn mean_anomaly_at(k: i64) -> i128
    requires { unsigned_abs k ≤ 53200000 }
    ensures value { result ≡ quadratic_top (pos 51484191840000) (pos 5183863241760000) (neg_ℤ (pos 22132800)) k 52596000 }
    ensures bound { unsigned_abs result ≤ 2 ^ 105 }
{
    quadratic(51_484_191_840_000, 5_183_863_241_760_000, -22_132_800, k)
}

// The node at one minute, over a century.
fn node_at(k: i64) -> i128
    requires { unsigned_abs k ≤ 53200000 }
    ensures value { result ≡ linear_top (pos 18005760000000) (neg_ℤ (pos 278515584000000)) k 52596000 }
    ensures bound { unsigned_abs result ≤ 2 ^ 80 }
{
    linear(18_005_760_000_000, -278_515_584_000_000, k)
}

// c1 at one minute, over the square of a century.
fn first_coefficient_at(k: i64) -> i128
    requires { unsigned_abs k ≤ 53200000 }
    ensures value { result ≡ quadratic_top (pos 275702688000) (neg_ℤ (pos 693648000)) (neg_ℤ (pos 2016000)) k 52596000 }
    ensures bound { unsigned_abs result ≤ 2 ^ 105 }
{
    quadratic(275_702_688_000, -693_648_000, -2_016_000, k)
}

// c2 at one minute, over a century.
fn second_coefficient_at(k: i64) -> i128
    requires { unsigned_abs k ≤ 53200000 }
    ensures value { result ≡ linear_top (pos 2878992000) (neg_ℤ (pos 14544000)) k 52596000 }
    ensures bound { unsigned_abs result ≤ 2 ^ 80 }
{
    linear(2_878_992_000, -14_544_000, k)
}

// e0 at one minute, over the cube of a century.
fn mean_obliquity_at(k: i64) -> i128
    requires { unsigned_abs k ≤ 53200000 }
    ensures value { result ≡ cubic_top (pos 3375257920000) (neg_ℤ (pos 1872600000)) (neg_ℤ (pos 23600)) (pos 72520) k 52596000 }
    ensures bound { unsigned_abs result ≤ 2 ^ 124 }
{
    cubic(3_375_257_920_000, -1_872_600_000, -23_600, 72_520, k)
}

/// L0 rises with the minutes.
#[tactic(auto, unfolding(crate::specs::Meeus::grid_mean_longitude))]
pub(crate) fn mean_longitude(m: Minutes) -> Angle
    ensures value { range_of result ≡ grid_mean_longitude (minutes_of m) }
    ensures low { unsigned_abs result.lo ≤ 2 ^ 54 }
    ensures high { unsigned_abs result.hi ≤ 2 ^ 54 }
    ensures narrow { (result.hi -ℤ result.lo) ≤ℤ pos 72000000000 }
{
    whole_units(
        mean_longitude_at(m.first),
        mean_longitude_at(m.last),
        SQUARE,
    )
}

/// M rises with the minutes.
pub(crate) fn mean_anomaly(m: Minutes) -> Angle
    ensures value { range_of result ≡ grid_mean_anomaly (minutes_of m) }
    ensures low { unsigned_abs result.lo ≤ 2 ^ 54 }
    ensures high { unsigned_abs result.hi ≤ 2 ^ 54 }
    ensures narrow { (result.hi -ℤ result.lo) ≤ℤ pos 72000000000 }
{
    whole_units(mean_anomaly_at(m.first), mean_anomaly_at(m.last), SQUARE)
}

/// The node falls with the minutes.
pub(crate) fn node(m: Minutes) -> Angle
    ensures value { range_of result ≡ grid_node (minutes_of m) }
    ensures narrow { (result.hi -ℤ result.lo) ≤ℤ pos 72000000000 }
{
    whole_units(node_at(m.last), node_at(m.first), CENTURY as u128)
}

/// c1 falls with the minutes.
pub(crate) fn first_coefficient(m: Minutes) -> Angle
    ensures value { range_of result ≡ grid_first_coefficient (minutes_of m) }
    ensures not_negative { pos 0 ≤ℤ result.lo }
    ensures bound { result.hi ≤ℤ pos (2 ^ 39) }
{
    whole_units(
        first_coefficient_at(m.last),
        first_coefficient_at(m.first),
        SQUARE,
    )
}

/// c2 falls with the minutes.
pub(crate) fn second_coefficient(m: Minutes) -> Angle
    ensures value { range_of result ≡ grid_second_coefficient (minutes_of m) }
    ensures not_negative { pos 0 ≤ℤ result.lo }
    ensures bound { result.hi ≤ℤ pos (2 ^ 39) }
{
    whole_units(
        second_coefficient_at(m.last),
        second_coefficient_at(m.first),
        CENTURY as u128,
    )
}

/// e0 falls with the minutes.
pub(crate) fn mean_obliquity(m: Minutes) -> Angle
    ensures value { range_of result ≡ grid_mean_obliquity (minutes_of m) }
    ensures low { pos 3373000000000 ≤ℤ result.lo }
    ensures high { result.hi ≤ℤ pos 3378000000000 }
{
    whole_units(mean_obliquity_at(m.last), mean_obliquity_at(m.first), CUBE)
}
