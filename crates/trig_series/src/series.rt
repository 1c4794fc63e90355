// Pi and the series of sine and cosine, over intervals.

ghost use Rattle.std.specs.Prelude.{◌≡◌, ◌+◌, ◌*◌, ◌^◌, ◌≤◌};
ghost use Rattle.fixed_interval.specs.Grid.{UNIT, DEPTH, reach, grid_negated};
ghost use Rattle.fixed_interval.specs.Interval.{ends};
ghost use Rattle.trig_series.specs.Pi.{grid_pi};
ghost use Rattle.trig_series.specs.Series.{next_grid_term, grid_term, grid_margin, grid_series, grid_sine_series, grid_cosine_series};

use fixed_interval::Interval;

/// How many terms of a series are added.
pub(crate) const TERMS: u64 = 12;

/// The number 1 on the grid.
const ONE: i128 = 1 << 56;

/// Pi by Machin's formula with 24 and 25 terms, rounded outward to the grid once.
pub fn pi() -> Interval
    ensures { ends result ≡ grid_pi }
{
    Interval::new(226_375_608_064_910_088, 226_375_608_064_910_089)
}

/// The sine of x radians, for an x of at most 1 radian either way.
pub(crate) fn sine_series(x: Interval) -> Interval
    requires { reach (ends x) ≤ UNIT }
    ensures value { ends result ≡ grid_sine_series (ends x) }
    ensures bound { reach (ends result) ≤ 2 ^ 60 }
{
    series(x, x.product(x), 1)
}

/// The cosine of x radians, for an x of at most 1 radian either way.
pub(crate) fn cosine_series(x: Interval) -> Interval
    requires { reach (ends x) ≤ UNIT }
    ensures value { ends result ≡ grid_cosine_series (ends x) }
    ensures bound { reach (ends result) ≤ 2 ^ 60 }
{
    series(Interval::new(ONE, ONE), x.product(x), 0)
}

/// The interval of the opposite numbers.
pub(crate) fn negated(a: Interval) -> Interval
    ensures value { ends result ≡ grid_negated (ends a) }
    ensures bound { reach (ends result) ≡ reach (ends a) }
{
    Interval::new(-a.hi, -a.lo)
}

/// The terms of a series added up, with the margin of the first one left out.
/// `first` is the first term, `power` its power of x, and `square` the square of x.
fn series(first: Interval, square: Interval, power: u64) -> Interval
    requires power_small { power ≤ 1 }
    requires first_small { reach (ends first) ≤ UNIT }
    requires square_small { reach (ends square) ≤ UNIT }
    ensures value { ends result ≡ grid_series (grid_term power (ends first) (ends square)) DEPTH }
    ensures bound { reach (ends result) ≤ 14 * UNIT }
{
    let mut term = first;
    let mut total = Interval::new(0, 0);
    for j in 0..TERMS {
        total = total.sum(term);
        term = next_term(term, square, (2 * j + power + 1) * (2 * j + power + 2));
    }
    total.sum(margin(term))
}

/// The term that follows `term` in a series.
fn next_term(term: Interval, square: Interval, divisor: u64) -> Interval
    requires divisor_positive { 1 ≤ divisor }
    requires term_small { reach (ends term) ≤ UNIT }
    requires square_small { reach (ends square) ≤ UNIT }
    ensures value { ends result ≡ next_grid_term (ends term) (ends square) divisor }
    ensures bound { reach (ends result) ≤ UNIT }
{
    negated(term.product(square).divide_by(divisor))
}

/// Twice the greatest magnitude of `next`, either way.
pub(crate) fn margin(next: Interval) -> Interval
    requires { reach (ends next) ≤ UNIT }
    ensures value { ends result ≡ grid_margin (ends next) }
    ensures bound { reach (ends result) ≤ 2 * UNIT }
{
    let more = 2 * next.hi.max(-next.lo);
    Interval::new(-more, more)
}
