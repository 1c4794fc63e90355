// How many entries of a table are of each variant, and the sum of their minutes.
ghost use Rattle.std.specs.Prelude.{◌≡◌, ◌≤◌, ◌*◌, ◌≤ℤ◌, ◌*ℤ◌, neg_ℤ, pos, All, count_by, length, map, zip};
ghost use Rattle.method_table.specs.Row.{row_of};
ghost use Rattle.order_table.specs.Printing.{IsPrintable};
ghost use Rattle.demo_summary.specs.Summary.{counted, is_of, minutes_of, total};

use cell_split::Entry;
use method_table::{Problem, minute_of};
use order_table::Day;

#[derive(Clone, Copy, Debug, PartialEq, Eq)]
pub(crate) enum Variant {
    Minute,
    Whole,
    Never,
    Open,
}

/// The entries of a table by their variant, and the sum of the printed minutes.
#[derive(Clone, Copy, Debug, PartialEq, Eq)]
pub(crate) struct Tally {
    pub minutes: u32,
    pub whole: u32,
    pub never: u32,
    pub undecided: u32,
    pub sum: i32,
}

impl Variant {
    fn is_of(self, entry: &Entry) -> bool
        ensures { result ≡ is_of self entry.now }
    {
        match (self, entry) {
            (Variant::Minute, Entry::Minute { .. }) => true,
            (Variant::Whole, Entry::Whole) => true,
            (Variant::Never, Entry::Never) => true,
            (Variant::Open, Entry::Open { .. }) => true,
            _ => false,
        }
    }

    fn count_in(self, entries: &[Entry]) -> u32
        requires { length entries.now ≤ 7 }
        ensures value { result ≡ count_by (is_of self) entries.now }
        ensures few { result ≤ 7 }
    {
        let mut count = 0;
        for entry in entries {
            if self.is_of(entry) {
                count += 1;
            }
        }
        count
    }

    /// How many entries of all days are of this variant.
    pub(crate) fn count_of(self, days: &[[Entry; 7]]) -> u32
        requires { length days.now ≤ 366 }
        ensures { result ≡ counted self days.now }
    {
        let mut count = 0;
        for entries in days {
            count += self.count_in(entries);
        }
        count
    }
}

/// The printed minute of an entry, with the shift; 0 where it has none.
fn minutes_of(problem: &Problem, entry: &Entry) -> i32
    requires { IsPrintable entry.now }
    ensures value { result ≡ minutes_of (row_of problem.now, entry.now) }
    ensures low { neg_ℤ (pos 3000) ≤ℤ result }
    ensures high { result ≤ℤ pos 3000 }
{
    match entry {
        Entry::Minute { rank } => minute_of(problem, *rank) + problem.shift,
        _ => 0,
    }
}

fn sum_of_day(problems: &[Problem], entries: &[Entry]) -> i32
    requires seven { length problems.now ≡ 7 }
    requires long { length entries.now ≡ 7 }
    requires printable { All IsPrintable entries.now }
    ensures value { result ≡ total minutes_of (zip (map row_of problems.now) entries.now) }
    ensures low { neg_ℤ (pos 21000) ≤ℤ result }
    ensures high { result ≤ℤ pos 21000 }
{
    let mut sum = 0;
    for i in 0..problems.len() {
        sum += minutes_of(&problems[i], &entries[i]);
    }
    sum
}

/// The sum of the printed minutes of these days.
pub(crate) fn sum_of(days: &[Day], entries: &[[Entry; 7]]) -> i32
    requires long { length entries.now ≡ length days.now }
    requires printable { All (All IsPrintable) entries.now }
    requires few { length days.now ≤ 366 }
    ensures { result ≡ total (λ x. total minutes_of (zip (map row_of x.0.problems) x.1)) (zip days.now entries.now) }
{
    let mut sum = 0;
    for (i, day) in days.iter().enumerate() {
        sum += sum_of_day(&day.problems, &entries[i]);
    }
    sum
}
