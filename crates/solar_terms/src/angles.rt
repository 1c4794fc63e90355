// The observatory's straight lines in the minutes, and the terms of the equation of the centre.
ghost use Rattle.std.specs.Prelude.{◌≡◌, ◌*◌, ◌^◌, ◌≤◌, pos, ◌+ℤ◌, ◌-ℤ◌, ◌*ℤ◌, ◌≤ℤ◌, unsigned_abs};
ghost use Rattle.fixed_interval.specs.Grid.{grid_scale_units};
ghost use Rattle.trig_series.specs.Angle.{range_of};
ghost use Rattle.trig_series.specs.Sine.{grid_sine};
ghost use Rattle.solar_terms.specs.Sun.{minutes_of, grid_mean_anomaly, grid_mean_longitude, grid_obliquity};

use crate::Minutes;
use trig_series::{Angle, sine};

// g at one minute.
fn mean_anomaly_at(k: i64) -> i128
    requires { unsigned_abs k ≤ 53200000 }
    ensures { result ≡ pos 51484176000000 +ℤ (k *ℤ pos 98560028) }
{
    51_484_176_000_000 + i128::from(k) * 98_560_028
}

// q at one minute.
fn mean_longitude_at(k: i64) -> i128
    requires { unsigned_abs k ≤ 53200000 }
    ensures { result ≡ pos 40386096000000 +ℤ (k *ℤ pos 98564736) }
{
    40_386_096_000_000 + i128::from(k) * 98_564_736
}

// e at one minute.
fn obliquity_at(k: i64) -> i128
    requires { unsigned_abs k ≤ 53200000 }
    ensures { result ≡ pos 3375216000000 -ℤ (k *ℤ pos 36) }
{
    3_375_216_000_000 - i128::from(k) * 36
}

// g rises with the minutes.
#[tactic(auto, unfolding(trig_series::specs::Ranges::whole, trig_series::specs::Ranges::added, trig_series::specs::Ranges::scaled, crate::specs::Sun::grid_mean_anomaly))]
pub(crate) fn mean_anomaly(m: Minutes) -> Angle
    ensures value { range_of result ≡ grid_mean_anomaly (minutes_of m) }
    ensures low { unsigned_abs result.lo ≤ 2 ^ 53 }
    ensures high { unsigned_abs result.hi ≤ 2 ^ 53 }
    ensures narrow { (result.hi -ℤ result.lo) ≤ℤ pos 72000000000 }
{
    Angle::new(mean_anomaly_at(m.first), mean_anomaly_at(m.last))
}

// q rises with the minutes.
#[tactic(auto, unfolding(trig_series::specs::Ranges::whole, trig_series::specs::Ranges::added, trig_series::specs::Ranges::scaled, crate::specs::Sun::grid_mean_longitude))]
pub(crate) fn mean_longitude(m: Minutes) -> Angle
    ensures value { range_of result ≡ grid_mean_longitude (minutes_of m) }
    ensures low { unsigned_abs result.lo ≤ 2 ^ 53 }
    ensures high { unsigned_abs result.hi ≤ 2 ^ 53 }
    ensures narrow { (result.hi -ℤ result.lo) ≤ℤ pos 72000000000 }
{
    Angle::new(mean_longitude_at(m.first), mean_longitude_at(m.last))
}

// e falls with the minutes.
#[tactic(auto, unfolding(trig_series::specs::Ranges::whole, trig_series::specs::Ranges::subtracted, trig_series::specs::Ranges::scaled, crate::specs::Sun::grid_obliquity))]
pub(crate) fn obliquity(m: Minutes) -> Angle
    ensures value { range_of result ≡ grid_obliquity (minutes_of m) }
    ensures narrow { (result.hi -ℤ result.lo) ≤ℤ pos 72000000000 }
{
    Angle::new(obliquity_at(m.last), obliquity_at(m.first))
}

// The sine of a range times a number of units, rounded outward to whole units.
pub(crate) fn scaled_sine(a: Angle, units: i64) -> Angle
    requires narrow { (a.hi -ℤ a.lo) ≤ℤ pos 51840000000000 }
    requires non_negative { pos 0 ≤ℤ units }
    requires in_range { units ≤ℤ pos (2 ^ 40) }
    ensures value { range_of result ≡ grid_scale_units (grid_sine (range_of a)) (unsigned_abs units) }
    ensures low { unsigned_abs result.lo ≤ 2 ^ 42 }
    ensures high { unsigned_abs result.hi ≤ 2 ^ 42 }
{
    let (lo, hi) = sine(a).scale_units(units);
    Angle::new(lo, hi)
}
