// Dates and moments of Universal Time as calendars write them.
ghost use Rattle.std.specs.Prelude.{◌≡◌, ◌≤ℤ◌, neg_ℤ, pos, IfOk};
ghost use Rattle.std.specs.String.{string_bytes};
ghost use Rattle.ical_text.specs.Moments.{IsInYears, day_at, date_text, minute_at, moment_by, moment_text, parts_text, shown_by, shown_moment, stamp_text};

use no_memory::NoMemory;
use std::alloc::Global;
use year_table::pieces::{DateParts, TwoDigits, date_string as dashed_string, parts_of};

// the date as YYYYMMDD
fn undashed(alloc: Global, parts: DateParts) -> Result<String, NoMemory>
    ensures { IfOk result (λ t. string_bytes t ≡ parts_text parts.year parts.month parts.day) }
{
    let century = TwoDigits(parts.year / 100);
    let year = TwoDigits(parts.year % 100);
    let month = TwoDigits(parts.month);
    let day = TwoDigits(parts.day);
    Ok(format!(in alloc; "{century}{year}{month}{day}")?)
}

fn date_string(alloc: Global, day: i32) -> Result<String, NoMemory>
    requires not_early { neg_ℤ (pos 26000) ≤ℤ day }
    requires not_late { day ≤ℤ pos 48300 }
    ensures { IfOk result (λ t. string_bytes t ≡ date_text day) }
{
    undashed(alloc, parts_of(day))
}

/// The first minute of a day since 1970-01-01.
pub(crate) fn stamp_string(alloc: Global, day: i32) -> Result<String, NoMemory>
    requires not_early { neg_ℤ (pos 26000) ≤ℤ day }
    requires not_late { day ≤ℤ pos 48300 }
    ensures { IfOk result (λ t. string_bytes t ≡ stamp_text day) }
{
    let mut stamp = date_string(alloc, day)?;
    stamp.push_str("T000000Z")?;
    Ok(stamp)
}

fn day_at(k: i64) -> i32
    requires not_early { neg_ℤ (pos 53203000) ≤ℤ k }
    requires not_late { k ≤ℤ pos 53650000 }
    ensures value { result ≡ day_at k }
    ensures not_early { neg_ℤ (pos 26000) ≤ℤ result }
    ensures not_late { result ≤ℤ pos 48300 }
{
    (k + 720).div_euclid(1440) as i32 + 10_957
}

fn minute_at(k: i64) -> u32
    requires not_early { neg_ℤ (pos 53203000) ≤ℤ k }
    requires not_late { k ≤ℤ pos 53650000 }
    ensures { result ≡ minute_at k }
{
    (k + 720).rem_euclid(1440).unsigned_abs() as u32
}

/// A minute since 2000-01-01 12:00 Universal Time.
pub(crate) fn moment_string(alloc: Global, k: i64) -> Result<String, NoMemory>
    requires not_early { neg_ℤ (pos 53203000) ≤ℤ k }
    requires not_late { k ≤ℤ pos 53650000 }
    ensures { IfOk result (λ t. string_bytes t ≡ moment_text k) }
{
    let date = date_string(alloc, day_at(k))?;
    moment_by(alloc, date.as_str(), minute_at(k))
}

fn moment_by(alloc: Global, date: &str, minute: u32) -> Result<String, NoMemory>
    ensures { IfOk result (λ t. string_bytes t ≡ moment_by date.now minute) }
{
    let hours = TwoDigits(minute / 60);
    let minutes = TwoDigits(minute % 60);
    Ok(format!(in alloc; "{date}T{hours}{minutes}00Z")?)
}

fn shown_by(alloc: Global, date: &str, minute: u32) -> Result<String, NoMemory>
    ensures { IfOk result (λ t. string_bytes t ≡ shown_by date.now minute) }
{
    let hours = TwoDigits(minute / 60);
    let minutes = TwoDigits(minute % 60);
    Ok(format!(in alloc; "{date}T{hours}:{minutes}Z")?)
}

/// A minute `k` since 2000-01-01 12:00, of the years from 1899 to 2101, in Universal Time: `YYYY-MM-DDTHH:MMZ`.
pub fn shown_moment(alloc: Global, k: i64) -> Result<String, NoMemory>
    requires { IsInYears k }
    ensures { IfOk result (λ t. string_bytes t ≡ shown_moment k) }
{
    let date = dashed_string(alloc, day_at(k))?;
    shown_by(alloc, date.as_str(), minute_at(k))
}
