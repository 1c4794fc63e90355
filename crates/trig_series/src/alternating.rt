// The series of sine and cosine where x has one sign. Then each term has one too, and the signs alternate: the least
// magnitude of a term comes of the least before it, and the greatest of the greatest.

ghost use Rattle.std.specs.Prelude.{ℕ, ◌≡◌, ◌+◌, ◌*◌, ◌^◌, ◌≤◌};
ghost use Rattle.fixed_interval.specs.Grid.{UNIT, DEPTH, Ends, reach, grid_sum, grid_product, grid_divide_by};
ghost use Rattle.fixed_interval.specs.Interval.{ends};
ghost use Rattle.trig_series.specs.Magnitudes.{ends_of};
ghost use Rattle.trig_series.specs.PartialSum.{HasTerms};
ghost use Rattle.trig_series.specs.Short.{ends_of as short_ends};
ghost use Rattle.trig_series.specs.Series.{grid_margin, grid_term, grid_series, grid_sine_series, grid_cosine_series};

use crate::magnitudes::Magnitudes;
use crate::series::{TERMS, margin};
use crate::short::Short;
use fixed_interval::Interval;

/// The sine of x radians, for an x from 0 to 1.
pub(crate) fn sine_of_magnitudes(x: Magnitudes) -> Interval
    ensures value { ends result ≡ grid_sine_series (ends_of x) }
    ensures bound { reach (ends result) ≤ 2 ^ 60 }
{
    series(x, x.product(x), 1)
}

/// The cosine of x radians, for an x from 0 to 1.
pub(crate) fn cosine_of_magnitudes(x: Magnitudes) -> Interval
    ensures value { ends result ≡ grid_cosine_series (ends_of x) }
    ensures bound { reach (ends result) ≤ 2 ^ 60 }
{
    series(Magnitudes::one(), x.product(x), 0)
}

/// The sine and the cosine of x radians, for an x from 0 to 1.
pub(crate) fn both_of_magnitudes(x: Magnitudes) -> (Interval, Interval)
    ensures sine { ends result.0 ≡ grid_sine_series (ends_of x) }
    ensures cosine { ends result.1 ≡ grid_cosine_series (ends_of x) }
{
    let square = x.product(x);
    (series(x, square, 1), series(Magnitudes::one(), square, 0))
}

/// Some terms of a series added up, and the magnitudes of the next one, which is to be added.
#[derive(Clone, Copy)]
pub(crate) struct PartialSum {
    total: Short,
    next: Magnitudes,
}

/// The terms of a series added up, with the margin of the first one left out.
/// `first` is the first term, `power` its power of x, and `square` the square of x.
#[inline(always)]
fn series(first: Magnitudes, square: Magnitudes, power: u64) -> Interval
    requires { power ≤ 1 }
    ensures value { ends result ≡ grid_series (grid_term power (ends_of first) (ends_of square)) DEPTH }
    ensures bound { reach (ends result) ≤ 14 * UNIT }
{
    let mut sum = none_added(first);
    for pair in 0..4 {
        sum = with_pair(sum, square, 4 * pair + power);
    }
    if sum.next.is_level(square) {
        return with_margin(with_level_pair(with_level_pair(sum)));
    }
    for pair in 4..TERMS / 2 {
        sum = with_pair(sum, square, 4 * pair + power);
    }
    with_margin(sum)
}

/// No terms, before the first.
fn none_added(first: Magnitudes) -> PartialSum
    ensures { (power : ℕ) (square : Ends) → HasTerms power (ends_of first) square 0 result }
{
    PartialSum {
        total: Short::zero(),
        next: first,
    }
}

/// With the next term added and the one behind it taken away. The next term is of this power of x.
#[inline(always)]
fn with_pair(sum: PartialSum, square: Magnitudes, power: u64) -> PartialSum
    requires power_small { power ≤ 28 }
    requires total_small { reach (short_ends sum.total) ≤ 10 * UNIT }
    ensures { (p j : ℕ) (first : Ends) → power ≡ 2 * j + p → HasTerms p first (ends_of square) j sum → HasTerms p first (ends_of square) (j + 2) result }
{
    let taken = next_term(sum.next, square, power);
    PartialSum {
        total: sum.total.sum(sum.next.short()).difference(taken.short()),
        next: next_term(taken, square, power + 2),
    }
}

/// The same where each term that is left is like the next one.
#[inline(always)]
fn with_level_pair(sum: PartialSum) -> PartialSum
    requires { reach (short_ends sum.total) ≤ 10 * UNIT }
    ensures value { (p j : ℕ) (first square : Ends) → ((n : ℕ) → 1 ≤ n → grid_divide_by (grid_product (ends_of sum.next) square) n ≡ ends_of sum.next) → HasTerms p first square j sum → HasTerms p first square (j + 2) result }
    ensures next { ends_of result.next ≡ ends_of sum.next }
    ensures bound { reach (short_ends result.total) ≤ reach (short_ends sum.total) + 2 * UNIT }
{
    PartialSum {
        total: sum.total.sum(sum.next.short()).difference(sum.next.short()),
        next: sum.next,
    }
}

/// The sum with the margin of its next term, which is left out.
fn with_margin(sum: PartialSum) -> Interval
    requires { reach (short_ends sum.total) ≤ 12 * UNIT }
    ensures value { ends result ≡ grid_sum (short_ends sum.total) (grid_margin (ends_of sum.next)) }
    ensures bound { reach (ends result) ≤ 14 * UNIT }
{
    sum.total.interval().sum(margin(sum.next.interval()))
}

/// The magnitudes of the term that follows `term`, whose power of x is `power`.
#[inline(always)]
fn next_term(term: Magnitudes, square: Magnitudes, power: u64) -> Magnitudes
    requires { power ≤ 30 }
    ensures { ends_of result ≡ grid_divide_by (grid_product (ends_of term) (ends_of square)) ((power + 1) * (power + 2)) }
{
    term.product(square).divide_by((power + 1) * (power + 2))
}
