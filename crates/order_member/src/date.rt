// Dates as texts.
ghost use Rattle.std.specs.Prelude.{◌≡◌, IfSome, true};
ghost use Rattle.order_member.specs.Dates.{day_of, ymd_in};
ghost use Rattle.order_rule.specs.Offsets.{is_day};

use order_rule::is_day;
use year_table::pieces::{civil_day, two_digits_at};

/// A year, a month and a day as they are written, which need not be those of a date.
#[derive(Clone, Copy)]
pub(crate) struct Ymd {
    pub year: u16,
    pub month: u8,
    pub day: u8,
}

/// The parts of a text of the form YYYY-MM-DD.
#[tactic(auto, unfolding(crate::specs::Dates::ymd_in))]
pub(crate) fn ymd_in(text: &str) -> Option<Ymd>
    ensures { result ≡ ymd_in text.now }
{
    let text = text.as_bytes();
    if text.len() != 10 || text[4] != b'-' || text[7] != b'-' {
        return None;
    }
    let century = two_digits_at(text, 0)?;
    let year = two_digits_at(text, 2)?;
    let month = two_digits_at(text, 5)?;
    let day = two_digits_at(text, 8)?;
    Some(Ymd {
        year: century as u16 * 100 + year as u16,
        month,
        day,
    })
}

/// The day since 1970-01-01 of a date from 1900-01-01 to 2100-12-31.
#[tactic(auto, unfolding(crate::specs::Dates::day_of))]
pub(crate) fn day_of(d: Ymd) -> Option<i32>
    ensures value { result ≡ day_of d }
    ensures range { IfSome result (λ day. is_day day ≡ true) }
{
    match civil_day(d.year, d.month, d.day) {
        Some(day) if is_day(day) => Some(day),
        _ => None,
    }
}
