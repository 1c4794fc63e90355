// Days since 1970-01-01 and their dates.
ghost use Rattle.std.specs.Prelude.{◌≡◌, ◌<◌, ◌+◌, ◌≤ℤ◌, neg_ℤ, pos, length, unsigned_abs, IfSome};
ghost use Rattle.jiff.specs.Words.{civil_nanos, epoch_day};
ghost use Rattle.jiff_tz.specs.Year.{year_of_day};
ghost use Rattle.year_table.specs.Dates.{civil_day, day_of_month, month_of, two_digits_at};
ghost use Rattle.year_table.specs.Rules.{noon_of};

use jiff::ToSpan;
use jiff::civil::{Date, DateTime, date, time};

// the date of a day of the years from 1899 to 2101
pub(crate) fn date_of(day: i32) -> Date
    requires not_early { neg_ℤ (pos 26000) ≤ℤ day }
    requires not_late { day ≤ℤ pos 48300 }
    ensures { epoch_day result ≡ day }
{
    match date(1970, 1, 1).checked_add((day as i64).days()) {
        Ok(date) => date,
        Err(_) => unreachable!(),
    }
}

// civil noon of a day
pub(crate) fn noon_of(day: i32) -> DateTime
    requires not_early { neg_ℤ (pos 25567) ≤ℤ day }
    requires not_late { day ≤ℤ pos 47846 }
    ensures day { epoch_day result.date ≡ day }
    ensures moment { civil_nanos result ≡ noon_of day }
{
    date_of(day).to_datetime(time(12, 0, 0, 0))
}

/// The parts of a day's date, which is shown as `2025-03-01`.
#[derive(Clone, Copy)]
pub struct DateParts {
    pub year: u32,
    pub month: u32,
    pub day: u32,
}

/// The date of a day since 1970-01-01, of the years from 1899 to 2101.
pub fn parts_of(day: i32) -> DateParts
    requires not_early { neg_ℤ (pos 26000) ≤ℤ day }
    requires not_late { day ≤ℤ pos 48300 }
    ensures year { result.year ≡ unsigned_abs (year_of_day day) }
    ensures month { result.month ≡ month_of day }
    ensures day { result.day ≡ day_of_month day }
{
    let date = date_of(day);
    DateParts {
        year: date.year().unsigned_abs() as u32,
        month: date.month().unsigned_abs() as u32,
        day: date.day().unsigned_abs() as u32,
    }
}

/// The number that the two digits at a place write.
pub fn two_digits_at(text: &[u8], i: usize) -> Option<u8>
    requires { i + 1 < length text.now }
    ensures { result ≡ two_digits_at text.now i }
{
    let (tens, ones) = (text[i], text[i + 1]);
    if tens.is_ascii_digit() && ones.is_ascii_digit() {
        Some((tens - b'0') * 10 + (ones - b'0'))
    } else {
        None
    }
}

/// The day since 1970-01-01 of a date of the years from 0 to 9999, if the calendar has it.
pub fn civil_day(year: u16, month: u8, day: u8) -> Option<i32>
    ensures value { result ≡ civil_day year month day }
    ensures low { IfSome result (λ day. neg_ℤ (pos 5000000) ≤ℤ day) }
    ensures high { IfSome result (λ day. day ≤ℤ pos 5000000) }
{
    if year > 9999 || month > 12 || day > 31 {
        return None;
    }
    match Date::new(year as i16, month as i8, day as i8) {
        Ok(date) => Some(date.to_plain().to_unix_epoch_day()),
        Err(_) => None,
    }
}
