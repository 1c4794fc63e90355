// Ranges of days on which Isha is later.
ghost use Rattle.std.specs.Prelude.{◌≡◌};
ghost use Rattle.std.specs.List.{list_all, list_any};
ghost use Rattle.order_rule.specs.Late.{has_day, is_makkah, is_range, may_be_late};

use crate::offsets::is_day;
use method_table::Method;
use std::marker::Model;

/// Ranges of days since 1970-01-01, each from its first day to its last, both included.
#[derive(Drop)]
pub struct Ranges {
    pairs: Vec<(i32, i32)>,
}

impl Model for Ranges {
    ghost use Rattle.std.specs.Prelude.{List, ℤ};

    ghost Value = { List (ℤ × ℤ) };

    ghost view = { λ r. r.pairs.items };
}

fn some_has_day(pairs: &[(i32, i32)], day: i32) -> bool
    ensures { result ≡ list_any (has_day day) pairs.now }
{
    pairs.iter().any(|pair| pair.0 <= day && day <= pair.1)
}

impl Ranges {
    /// The ranges of these first and last days.
    pub fn new(pairs: Vec<(i32, i32)>) -> Ranges
        ensures { result ≡ pairs.items }
    {
        Ranges { pairs }
    }

    /// The first and the last day of each range.
    pub fn pairs(&self) -> &[(i32, i32)]
        ensures { result.now ≡ self.now }
    {
        self.pairs.as_slice()
    }

    /// Whether some range has the day.
    pub fn contains(&self, day: i32) -> bool
        ensures { result ≡ list_any (has_day day) self.now }
    {
        some_has_day(self.pairs.as_slice(), day)
    }
}

fn is_range(range: (i32, i32)) -> bool
    ensures { result ≡ is_range range }
{
    is_day(range.0) && is_day(range.1) && range.0 <= range.1
}

fn are_ranges(ranges: &[(i32, i32)]) -> bool
    ensures { result ≡ list_all is_range ranges.now }
{
    ranges.iter().all(|range| is_range(*range))
}

fn is_makkah(method: Method) -> bool
    ensures { result ≡ is_makkah method }
{
    matches!(method, Method::Makkah)
}

/// Whether an order of the method may have these ranges: at most eight, each of days that an order may
/// name and in their order, and none unless the method is Makkah's.
pub fn may_be_late(method: Method, ranges: &[(i32, i32)]) -> bool
    ensures { result ≡ may_be_late method ranges.now }
{
    let few = ranges.len() <= 8;
    let sound = are_ranges(ranges);
    let allowed = ranges.is_empty() || is_makkah(method);
    few && sound && allowed
}
