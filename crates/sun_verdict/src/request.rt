// The words of `sun MINUTE LON LAT WHAT [meeus]`.
ghost use Rattle.std.specs.Prelude.{◌≡◌, ◌≤◌, map, pos, ◌≤ℤ◌, IfSome, Some, option_map, string_bytes};
ghost use Rattle.digit_text.specs.Sign.{with_sign};
ghost use Rattle.sun_verdict.specs.Decimals.{at_most};
ghost use Rattle.sun_verdict.specs.Request.{minute_in, coordinate_in, angle_in, question_in, asked_of, request_in, IsWithin, IsAsked, IsInRange};

use crate::decimals::{millionths, number, signed};
use digit_text::split_sign;
use method_table::{SunChoice, sun_word};

/// What is asked of the sun.
#[derive(Clone, Copy, Debug, PartialEq, Eq)]
pub enum Question {
    /// Whether it is above an angle below the horizon.
    Altitude {
        /// In millionths of a degree, from 0 to 30 degrees.
        angle: i64,
    },
    /// Whether it is past the meridian.
    Meridian,
    /// Whether a shadow is longer than at Asr by this factor, or the sun is below the horizon.
    Shadow {
        /// 1 or 2.
        factor: u8,
    },
}

/// One question at one place and one minute.
#[derive(Clone, Copy, Debug, PartialEq, Eq)]
pub struct Request {
    /// Minutes since 2000-01-01 12:00 Universal Time.
    pub minute: i64,
    /// Longitude in microdegrees, positive to the east.
    pub lon: i64,
    /// Latitude in microdegrees.
    pub lat: i64,
    /// What is asked there.
    pub question: Question,
    /// Whose sun is asked.
    pub sun: SunChoice,
}

/// The number with its sign, where its magnitude is at most this.
fn within(negative: bool, magnitude: u32, most: u32) -> Option<i64>
    ensures value { result ≡ option_map (with_sign negative) (at_most most (Some magnitude)) }
    ensures range { IfSome result (IsWithin most) }
{
    if magnitude <= most {
        Some(signed(negative, magnitude))
    } else {
        None
    }
}

#[tactic(auto, unfolding(crate::specs::Request::minute_in))]
fn read_minute(word: &str) -> Option<i64>
    ensures value { result ≡ minute_in word.now }
    ensures range { IfSome result (IsWithin 53200000) }
{
    let (negative, rest) = split_sign(word);
    if rest.as_bytes().first() == Some(&b'0') {
        return if word == "0" { Some(0) } else { None };
    }
    let magnitude = number(rest.as_bytes(), 8)?;
    within(negative, magnitude, 53_200_000)
}

#[tactic(auto, unfolding(crate::specs::Request::coordinate_in))]
fn read_coordinate(word: &str, most: u32) -> Option<i64>
    ensures value { result ≡ coordinate_in most word.now }
    ensures range { IfSome result (IsWithin most) }
{
    let (negative, rest) = split_sign(word);
    let magnitude = millionths(rest)?;
    within(negative, magnitude, most)
}

#[tactic(auto, unfolding(crate::specs::Request::angle_in))]
fn read_angle(word: &str) -> Option<i64>
    ensures value { result ≡ angle_in word.now }
    ensures low { IfSome result (λ a. pos 0 ≤ℤ a) }
    ensures high { IfSome result (λ a. a ≤ℤ pos 30000000) }
{
    let millionths = millionths(word)?;
    if millionths <= 30_000_000 {
        Some(i64::from(millionths))
    } else {
        None
    }
}

#[tactic(auto, unfolding(crate::specs::Request::question_in))]
fn read_question(word: &str) -> Option<Question>
    ensures value { result ≡ question_in word.now }
    ensures range { IfSome result IsAsked }
{
    match word {
        "meridian" => Some(Question::Meridian),
        "asr1" => Some(Question::Shadow { factor: 1 }),
        "asr2" => Some(Question::Shadow { factor: 2 }),
        _ => {
            let angle = read_angle(word)?;
            Some(Question::Altitude { angle })
        }
    }
}

/// What four words ask of this sun.
#[tactic(auto, unfolding(crate::specs::Request::asked_of))]
fn read_asked(sun: SunChoice, minute: &str, lon: &str, lat: &str, what: &str) -> Option<Request>
    ensures value { result ≡ asked_of sun minute.now lon.now lat.now what.now }
    ensures range { IfSome result IsInRange }
{
    let minute = read_minute(minute)?;
    let lon = read_coordinate(lon, 360_000_000)?;
    let lat = read_coordinate(lat, 65_000_000)?;
    let question = read_question(what)?;
    Some(Request {
        minute,
        lon,
        lat,
        question,
        sun,
    })
}

/// What the words behind `sun` ask, if each is in its spelling and its range: of the observatory's sun, or with the last
/// word `meeus` of Meeus's.
#[tactic(auto, unfolding(crate::specs::Request::request_in))]
pub fn read_request(words: &[String]) -> Option<Request>
    ensures value { result ≡ request_in (map string_bytes words.now) }
    ensures range { IfSome result IsInRange }
{
    match words {
        [minute, lon, lat, what] => read_asked(
            SunChoice::Usno,
            minute.as_str(),
            lon.as_str(),
            lat.as_str(),
            what.as_str(),
        ),
        [minute, lon, lat, what, last] => {
            if last.as_str() != sun_word(SunChoice::Meeus) {
                return None;
            }
            read_asked(
                SunChoice::Meeus,
                minute.as_str(),
                lon.as_str(),
                lat.as_str(),
                what.as_str(),
            )
        }
        _ => None,
    }
}
