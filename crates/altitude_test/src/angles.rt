// The angles of a place at a minute: its latitude and its sidereal time.
ghost use Rattle.std.specs.Prelude.{◌≡◌, ◌^◌, ◌≤◌, pos, ◌-ℤ◌, ◌*ℤ◌, ◌≤ℤ◌, unsigned_abs};
ghost use Rattle.trig_series.specs.Angle.{range_of};
ghost use Rattle.trig_series.specs.Ranges.{scaled};
ghost use Rattle.solar_terms.specs.Sun.{minutes_of, terms_of};
ghost use Rattle.altitude_test.specs.Values.{box_of, grid_latitude, grid_sidereal_time};

use crate::Place;
use solar_terms::{Minutes, Sun};
use trig_series::Angle;

// A place unit is 1,125 angle units.
fn angle_units(place_units: i64) -> i128
    requires { unsigned_abs place_units ≤ 47000000000 }
    ensures { result ≡ place_units *ℤ pos 1125 }
{
    i128::from(place_units) * 1_125
}

// The sky turns by a quarter of a degree a minute.
fn turn_at(k: i64) -> i128
    requires { unsigned_abs k ≤ 53200000 }
    ensures { result ≡ k *ℤ pos 36000000000 }
{
    i128::from(k) * 36_000_000_000
}

#[tactic(auto, unfolding(trig_series::specs::Ranges::scaled, crate::specs::Values::grid_latitude))]
/// The latitudes of the box, in angle units.
pub fn latitude(p: Place) -> Angle
    ensures value { range_of result ≡ grid_latitude (box_of p) }
    ensures narrow { (result.hi -ℤ result.lo) ≤ℤ pos 51840000000000 }
{
    Angle::new(angle_units(p.y0), angle_units(p.y1))
}

#[tactic(auto, unfolding(trig_series::specs::Ranges::scaled))]
fn longitude(p: Place) -> Angle
    ensures value { range_of result ≡ scaled (box_of p).x 1125 }
    ensures low { unsigned_abs result.lo ≤ 2 ^ 46 }
    ensures high { unsigned_abs result.hi ≤ 2 ^ 46 }
    ensures narrow { (result.hi -ℤ result.lo) ≤ℤ pos 720000000000 }
{
    Angle::new(angle_units(p.x0), angle_units(p.x1))
}

#[tactic(auto, unfolding(trig_series::specs::Ranges::scaled))]
fn turn(m: Minutes) -> Angle
    ensures value { range_of result ≡ scaled (minutes_of m) 36000000000 }
    ensures low { unsigned_abs result.lo ≤ 2 ^ 61 }
    ensures high { unsigned_abs result.hi ≤ 2 ^ 61 }
    ensures narrow { (result.hi -ℤ result.lo) ≤ℤ pos 25920000000000 }
{
    Angle::new(turn_at(m.first), turn_at(m.last))
}

#[tactic(auto, unfolding(crate::specs::Values::grid_sidereal_time))]
pub(crate) fn sidereal_time(s: &Sun, m: Minutes, p: Place) -> Angle
    ensures value { range_of result ≡ grid_sidereal_time (terms_of s.now) (minutes_of m) (box_of p) }
    ensures narrow { (result.hi -ℤ result.lo) ≤ℤ pos 51840000000000 }
{
    turn(m).plus(longitude(p)).plus(s.q)
}
