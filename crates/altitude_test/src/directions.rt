// The sine and the cosine of an angle together, made once for all that asks for them.
ghost use Rattle.std.specs.Prelude.{◌≡◌, ◌*◌, ◌≤◌, pos, ◌-ℤ◌, ◌≤ℤ◌};
ghost use Rattle.fixed_interval.specs.Grid.{UNIT, reach};
ghost use Rattle.fixed_interval.specs.Interval.{ends};
ghost use Rattle.trig_series.specs.Angle.{range_of};
ghost use Rattle.trig_series.specs.Sine.{grid_sine, grid_cosine};
ghost use Rattle.solar_terms.specs.Sun.{minutes_of, terms_of};
ghost use Rattle.altitude_test.specs.Values.{box_of, grid_latitude, grid_sidereal_time};

use crate::Place;
use crate::angles::{latitude, sidereal_time};
use fixed_interval::Interval;
use solar_terms::{Minutes, Sun};
use trig_series::{Angle, sine_and_cosine};

/// The sine and the cosine of every angle of a range, each at most 4/3.
#[derive(Clone, Copy)]
pub struct Direction {
    pub sine: Interval,
    pub cosine: Interval,
    ghost sine_small: { 3 * reach (ends sine) ≤ 4 * UNIT },
    ghost cosine_small: { 3 * reach (ends cosine) ≤ 4 * UNIT },
}

fn direction_of(a: Angle) -> Direction
    requires { (a.hi -ℤ a.lo) ≤ℤ pos 51840000000000 }
    ensures sine { ends result.sine ≡ grid_sine (range_of a) }
    ensures cosine { ends result.cosine ≡ grid_cosine (range_of a) }
{
    let both = sine_and_cosine(a);
    Direction {
        sine: both.sine,
        cosine: both.cosine,
    }
}

/// The sine and the cosine of the latitudes of the box.
pub fn latitude_direction(p: Place) -> Direction
    ensures sine { ends result.sine ≡ grid_sine (grid_latitude (box_of p)) }
    ensures cosine { ends result.cosine ≡ grid_cosine (grid_latitude (box_of p)) }
{
    direction_of(latitude(p))
}

/// The sine and the cosine of the sidereal times over the box at the minutes `m`, whose sun is `s`.
pub(crate) fn sidereal_direction(s: &Sun, m: Minutes, p: Place) -> Direction
    ensures sine { ends result.sine ≡ grid_sine (grid_sidereal_time (terms_of s.now) (minutes_of m) (box_of p)) }
    ensures cosine { ends result.cosine ≡ grid_cosine (grid_sidereal_time (terms_of s.now) (minutes_of m) (box_of p)) }
{
    direction_of(sidereal_time(s, m, p))
}

// A range of angles with its direction.
#[derive(Clone, Copy)]
struct Known {
    angle: Angle,
    direction: Direction,
    ghost sine_is: { ends direction.sine ≡ grid_sine (range_of angle) },
    ghost cosine_is: { ends direction.cosine ≡ grid_cosine (range_of angle) },
}

/// The direction of the angles that were asked for last, which isn't made anew for the same angles.
#[derive(Clone, Copy)]
pub struct KeptDirection {
    last: Option<Known>,
}

impl KeptDirection {
    /// One that keeps nothing yet.
    pub fn new() -> KeptDirection {
        KeptDirection { last: None }
    }

    fn of(&mut self, a: Angle) -> Direction
        requires { (a.hi -ℤ a.lo) ≤ℤ pos 51840000000000 }
        ensures sine { ends result.sine ≡ grid_sine (range_of a) }
        ensures cosine { ends result.cosine ≡ grid_cosine (range_of a) }
    {
        if let Some(known) = &self.last {
            if known.angle == a {
                return known.direction;
            }
        }
        let direction = direction_of(a);
        self.last = Some(Known {
            angle: a,
            direction,
        });
        direction
    }

    /// What `latitude_direction` gives.
    pub fn latitude(&mut self, p: Place) -> Direction
        ensures sine { ends result.sine ≡ grid_sine (grid_latitude (box_of p)) }
        ensures cosine { ends result.cosine ≡ grid_cosine (grid_latitude (box_of p)) }
    {
        self.of(latitude(p))
    }

    /// What `sidereal_direction` gives.
    pub fn sidereal_time(&mut self, s: &Sun, m: Minutes, p: Place) -> Direction
        ensures sine { ends result.sine ≡ grid_sine (grid_sidereal_time (terms_of s.now) (minutes_of m) (box_of p)) }
        ensures cosine { ends result.cosine ≡ grid_cosine (grid_sidereal_time (terms_of s.now) (minutes_of m) (box_of p)) }
    {
        self.of(sidereal_time(s, m, p))
    }
}
