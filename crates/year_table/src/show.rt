// The texts of days and minutes.
ghost use Rattle.std.specs.Prelude.{◌≡◌, Some};
ghost use Rattle.year_table.specs.Dates.{parts_text, two_digits};
ghost use Rattle.year_table.specs.Entries.{given_text, mark_of, minute_of_clock, minute_text};

use crate::date::DateParts;
use std::fmt::{Display, Formatter, Result, Write};

// a number below 100 in two digits
#[derive(Clone, Copy)]
pub struct TwoDigits(pub u32);

impl Display for TwoDigits {
    ghost output = { λ n. Some (two_digits n.0) };

    fn fmt<W: Write>(&self, f: &mut Formatter<W>) -> Result {
        write!(f, "{}{}", self.0 / 10, self.0 % 10)
    }
}

impl Display for DateParts {
    ghost output = { λ d. Some (parts_text d.year d.month d.day) };

    fn fmt<W: Write>(&self, f: &mut Formatter<W>) -> Result {
        let century = TwoDigits(self.year / 100);
        let year = TwoDigits(self.year % 100);
        let month = TwoDigits(self.month);
        let day = TwoDigits(self.day);
        write!(f, "{century}{year}-{month}-{day}")
    }
}

// a minute of a day's clock, which may lie before the day or after it
#[derive(Clone, Copy)]
pub(crate) struct ClockMinute(pub i32);

impl Display for ClockMinute {
    ghost output = { λ m. Some (minute_text m.0) };

    fn fmt<W: Write>(&self, f: &mut Formatter<W>) -> Result {
        let mark = mark_of(self.0);
        let clock = minute_of_clock(self.0);
        let hours = TwoDigits(clock / 60);
        let minutes = TwoDigits(clock % 60);
        write!(f, "{mark}{hours}:{minutes}")
    }
}

// such a minute, if there is one
#[derive(Clone, Copy)]
pub(crate) struct GivenMinute(pub Option<i32>);

impl Display for GivenMinute {
    ghost output = { λ m. Some (given_text m.0) };

    fn fmt<W: Write>(&self, f: &mut Formatter<W>) -> Result {
        match self.0 {
            Some(minute) => write!(f, "{}", ClockMinute(minute)),
            None => write!(f, " --:--"),
        }
    }
}

// before the day, in it, or after it
fn mark_of(minute: i32) -> &'static str
    ensures { result.now ≡ mark_of minute }
{
    if minute < 0 {
        "-"
    } else if minute < 1440 {
        " "
    } else {
        "+"
    }
}

fn minute_of_clock(minute: i32) -> u32
    ensures { result ≡ minute_of_clock minute }
{
    minute.rem_euclid(1440) as u32
}
