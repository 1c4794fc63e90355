// Moments as they are read.
ghost use Rattle.std.specs.Prelude.{◌≡◌, ◌<◌, ◌+◌, ◌*◌, ◌^◌, ◌-ℤ◌, ◌*ℤ◌, ◌≤ℤ◌, neg_ℤ, pos, length, IfSome};
ghost use Rattle.ical_text.specs.Moments.{is_known, is_shaped, minute_number, moment_of, number_of, written_in};

use year_table::pieces::{civil_day, two_digits_at};

/// A moment as it is written, which need not be one of the calendar.
#[derive(Clone, Copy)]
pub(crate) struct Written {
    pub year: u16,
    pub month: u8,
    pub day: u8,
    pub hour: u8,
    pub minute: u8,
}

fn is_shaped(text: &[u8]) -> bool
    ensures { result ≡ is_shaped text.now }
{
    text.len() == 16
        && (text[8] == b'T' && (text[13] == b'0' && (text[14] == b'0' && text[15] == b'Z')))
}

// the parts of a text of the form YYYYMMDDTHHMM00Z
#[tactic(auto, unfolding(crate::specs::Moments::written_in))]
fn written_in(text: &[u8]) -> Option<Written>
    ensures { result ≡ written_in text.now }
{
    if !is_shaped(text) {
        return None;
    }
    let century = two_digits_at(text, 0)?;
    let year = two_digits_at(text, 2)?;
    let month = two_digits_at(text, 4)?;
    let day = two_digits_at(text, 6)?;
    let hour = two_digits_at(text, 9)?;
    let minute = two_digits_at(text, 11)?;
    Some(Written {
        year: century as u16 * 100 + year as u16,
        month,
        day,
        hour,
        minute,
    })
}

fn is_known(w: Written) -> bool
    ensures { result ≡ is_known w }
{
    1899 <= w.year && w.year <= 2101 && (w.hour <= 23 && w.minute <= 59)
}

fn minute_number(day: i32, hour: u8, minute: u8) -> i64
    requires low { neg_ℤ (pos 5000000) ≤ℤ day }
    requires high { day ≤ℤ pos 5000000 }
    ensures { result ≡ minute_number day hour minute }
{
    first_minute(day) + minute_of_day(hour, minute) as i64
}

// the first minute of a day
fn first_minute(day: i32) -> i64
    requires low { neg_ℤ (pos 5000000) ≤ℤ day }
    requires high { day ≤ℤ pos 5000000 }
    ensures value { result ≡ (day -ℤ pos 10957) *ℤ pos 1440 -ℤ pos 720 }
    ensures low { neg_ℤ (pos 10000000000) ≤ℤ result }
    ensures high { result ≤ℤ pos 10000000000 }
{
    (day as i64 - 10_957) * 1440 - 720
}

fn minute_of_day(hour: u8, minute: u8) -> u32
    ensures value { result ≡ hour * 60 + minute }
    ensures small { result < 2 ^ 16 }
{
    hour as u32 * 60 + minute as u32
}

// the minute since 2000-01-01 12:00 of a moment of the years from 1899 to 2101
#[tactic(auto, unfolding(crate::specs::Moments::number_of))]
fn number_of(w: Written) -> Option<i64>
    ensures { result ≡ number_of w }
{
    if !is_known(w) {
        return None;
    }
    let day = civil_day(w.year, w.month, w.day)?;
    Some(minute_number(day, w.hour, w.minute))
}

/// The minute of a text of this form, if the calendar has it.
pub(crate) fn moment_of(text: &[u8]) -> Option<i64>
    ensures { result ≡ moment_of text.now }
{
    number_of(written_in(text)?)
}
