// Numbers of one sign on the grid, in 64-bit words: what the terms of a series are made of where x has one sign.

ghost use Rattle.std.specs.Prelude.{◌≡◌, ◌≤◌, ◌*◌, ◌/◌};
ghost use Rattle.std.specs.Int.{div_ceil};
ghost use Rattle.fixed_interval.specs.Grid.{UNIT};

use crate::short::Short;
use fixed_interval::Interval;

/// The number 1 on the grid.
const ONE: u64 = 1 << 56;

/// The numbers from `least` / 2^56 to `greatest` / 2^56, none of them above 1.
#[derive(Clone, Copy)]
pub(crate) struct Magnitudes {
    least: u64,
    greatest: u64,
    ghost ordered: { least ≤ greatest },
    ghost at_most_one: { greatest ≤ UNIT },
}

impl Magnitudes {
    ghost use Rattle.std.specs.Prelude.{ℕ, true, pos, ◌≤ℤ◌};
    ghost use Rattle.fixed_interval.specs.Grid.{reach, grid_product, grid_divide_by};
    ghost use Rattle.fixed_interval.specs.Interval.{ends};
    ghost use Rattle.trig_series.specs.Magnitudes.{ends_of};
    ghost use Rattle.trig_series.specs.Short.{ends_of as short_ends};

    /// The number 1 alone.
    pub(crate) fn one() -> Magnitudes
        ensures { ends_of result ≡ record { lo = pos UNIT; hi = pos UNIT } }
    {
        Magnitudes {
            least: ONE,
            greatest: ONE,
        }
    }

    /// The numbers of `x`, none of which is below 0 or above 1.
    pub(crate) fn of(x: Interval) -> Magnitudes
        requires not_negative { pos 0 ≤ℤ x.lo }
        requires at_most_one { reach (ends x) ≤ UNIT }
        ensures { ends_of result ≡ ends x }
    {
        Magnitudes {
            least: x.lo as u64,
            greatest: x.hi as u64,
        }
    }

    /// The same numbers as an interval.
    pub(crate) fn interval(self) -> Interval
        ensures value { ends result ≡ ends_of self }
        ensures bound { reach (ends result) ≤ UNIT }
    {
        Interval::new(i128::from(self.least), i128::from(self.greatest))
    }

    /// The same numbers as a short interval.
    pub(crate) fn short(self) -> Short
        ensures value { short_ends result ≡ ends_of self }
        ensures bound { reach (short_ends result) ≤ UNIT }
    {
        Short {
            lo: self.least as i64,
            hi: self.greatest as i64,
        }
    }

    /// Whether these are 0, or 0 and 1 units, and stay so times `square` over any number.
    pub(crate) fn is_level(self, square: Magnitudes) -> bool
        ensures { result ≡ true → (n : ℕ) → 1 ≤ n → grid_divide_by (grid_product (ends_of self) (ends_of square)) n ≡ ends_of self }
    {
        self.least == 0 && self.greatest <= square.greatest.min(1)
    }

    /// All products of a number of each.
    #[inline(always)]
    pub(crate) fn product(self, other: Magnitudes) -> Magnitudes
        ensures { ends_of result ≡ grid_product (ends_of self) (ends_of other) }
    {
        Magnitudes {
            least: floor_product(self.least, other.least),
            greatest: ceil_product(self.greatest, other.greatest),
        }
    }

    /// All numbers over `n`, which is from 1 to 1,000.
    #[inline(always)]
    pub(crate) fn divide_by(self, n: u64) -> Magnitudes
        requires positive { 1 ≤ n }
        requires small { n ≤ 1_000 }
        ensures { ends_of result ≡ grid_divide_by (ends_of self) n }
    {
        Magnitudes {
            least: self.least / n,
            greatest: (self.greatest + (n - 1)) / n,
        }
    }
}

/// The product of two numbers on the grid, rounded down to it.
fn floor_product(a: u64, b: u64) -> u64
    requires first_at_most_one { a ≤ UNIT }
    requires second_at_most_one { b ≤ UNIT }
    ensures { result ≡ a * b / UNIT }
{
    ((u128::from(a) * u128::from(b)) >> 56) as u64
}

/// The product of two numbers on the grid, rounded up to it.
fn ceil_product(a: u64, b: u64) -> u64
    requires first_at_most_one { a ≤ UNIT }
    requires second_at_most_one { b ≤ UNIT }
    ensures { result ≡ div_ceil (a * b) UNIT }
{
    (u128::from(a) * u128::from(b)).div_ceil(1 << 56) as u64
}
