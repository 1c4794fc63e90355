// The verdict on one question at one place and one minute.
ghost use Rattle.std.specs.Prelude.{◌≡◌, ◌≤◌, pos, ◌*ℤ◌, ◌≤ℤ◌};
ghost use Rattle.fixed_interval.specs.Interval.{ends};
ghost use Rattle.meeus_terms.specs.Suns.{grid_sun_of};
ghost use Rattle.solar_terms.specs.Sun.{minutes_of};
ghost use Rattle.trig_series.specs.Angle.{range_of};
ghost use Rattle.altitude_test.specs.Values.{box_of};
ghost use Rattle.sun_verdict.specs.Request.{IsWithin, IsAsked, IsInRange};
ghost use Rattle.sun_verdict.specs.Verdict.{point, place_of, angle_of, value_at, side_of, verdict_of, word_of};

use crate::request::{Question, Request};
use altitude_test::{Place, altitude_value, meridian_value};
use asr_test::asr_value;
use fixed_interval::Interval;
use meeus_terms::chosen_sun;
use method_table::SunChoice;
use solar_terms::Minutes;
use trig_series::Angle;

/// The side of zero on which a value lies.
#[derive(Clone, Copy, Debug, PartialEq, Eq)]
pub enum Verdict {
    /// Above zero.
    Above,
    /// Below zero.
    Below,
    /// The enclosure of the value lies neither above zero nor below.
    Open,
}

impl Verdict {
    /// The word with which a line on this question ends.
    pub(crate) fn word(self, question: Question) -> &'static str
        ensures { result.now ≡ word_of question self }
    {
        match (question, self) {
            (Question::Altitude { .. }, Verdict::Above) => "above",
            (Question::Altitude { .. }, Verdict::Below) => "below",
            (_, Verdict::Open) => "open",
            (_, Verdict::Above) => "after",
            (_, Verdict::Below) => "before",
        }
    }
}

fn place_units(microdegrees: i64) -> i64
    requires { IsWithin 360000000 microdegrees }
    ensures { result ≡ microdegrees *ℤ pos 128 }
{
    microdegrees * 128
}

fn angle_units(microdegrees: i64) -> i128
    requires { IsWithin 30000000 microdegrees }
    ensures { result ≡ microdegrees *ℤ pos 144000 }
{
    i128::from(microdegrees * 144_000)
}

fn one_minute(minute: i64) -> Minutes
    requires { IsWithin 53200000 minute }
    ensures { minutes_of result ≡ point minute }
{
    Minutes::new(minute, minute)
}

fn one_place(lon: i64, lat: i64) -> Place
    requires lon { IsWithin 360000000 lon }
    requires lat { IsWithin 65000000 lat }
    ensures { box_of result ≡ place_of lon lat }
{
    let x = place_units(lon);
    let y = place_units(lat);
    Place::new(x, x, y, y)
}

fn one_angle(angle: i64) -> Angle
    requires low { pos 0 ≤ℤ angle }
    requires high { angle ≤ℤ pos 30000000 }
    ensures value { range_of result ≡ angle_of angle }
    ensures low { pos 0 ≤ℤ result.lo }
    ensures high { result.hi ≤ℤ pos 4320000000000 }
{
    let units = angle_units(angle);
    Angle::new(units, units)
}

/// The side of zero on which the interval lies.
fn side(value: Interval) -> Verdict
    ensures { result ≡ side_of (ends value) }
{
    if value.lo > 0 {
        Verdict::Above
    } else if value.hi < 0 {
        Verdict::Below
    } else {
        Verdict::Open
    }
}

/// The enclosure of the value that is asked for by this sun, over the minutes and the places.
#[tactic(auto, unfolding(crate::specs::Verdict::value_at))]
fn value(sun: SunChoice, question: Question, minutes: Minutes, places: Place) -> Interval
    requires { IsAsked question }
    ensures { ends result ≡ value_at (grid_sun_of sun) question (minutes_of minutes) (box_of places) }
{
    let sun = chosen_sun(sun, minutes);
    match question {
        Question::Altitude { angle } => altitude_value(&sun, minutes, places, one_angle(angle)),
        Question::Meridian => meridian_value(&sun, minutes, places),
        Question::Shadow { factor } => asr_value(&sun, minutes, places, factor),
    }
}

/// The verdict on a request.
#[tactic(auto, unfolding(crate::specs::Verdict::verdict_of, crate::specs::Verdict::value_of))]
pub(crate) fn verdict_on(request: &Request) -> Verdict
    requires { IsInRange request.now }
    ensures { result ≡ verdict_of request.now }
{
    let minutes = one_minute(request.minute);
    let place = one_place(request.lon, request.lat);
    side(value(request.sun, request.question, minutes, place))
}
