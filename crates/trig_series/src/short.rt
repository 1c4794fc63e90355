// Intervals in 64-bit words: what the sums of a series are made of.

ghost use Rattle.std.specs.Prelude.{pos, ◌≡◌, ◌+◌, ◌^◌, ◌≤◌, ◌≤ℤ◌, unsigned_abs};

use fixed_interval::Interval;

/// The numbers from `lo` / 2^56 to `hi` / 2^56, none of them beyond 64 either way.
#[derive(Clone, Copy)]
pub(crate) struct Short {
    pub(crate) lo: i64,
    pub(crate) hi: i64,
    ghost ordered: { lo ≤ℤ hi },
    ghost low_in_range: { unsigned_abs lo ≤ 2 ^ 62 },
    ghost high_in_range: { unsigned_abs hi ≤ 2 ^ 62 },
}

impl Short {
    ghost use Rattle.fixed_interval.specs.Grid.{reach, grid_sum, grid_difference};
    ghost use Rattle.fixed_interval.specs.Interval.{ends};
    ghost use Rattle.trig_series.specs.Short.{ends_of};

    /// The number 0 alone.
    pub(crate) fn zero() -> Short
        ensures { ends_of result ≡ record { lo = pos 0; hi = pos 0 } }
    {
        Short { lo: 0, hi: 0 }
    }

    /// All sums of a number of each.
    pub(crate) fn sum(self, other: Short) -> Short
        requires { reach (ends_of self) + reach (ends_of other) ≤ 2 ^ 62 }
        ensures value { ends_of result ≡ grid_sum (ends_of self) (ends_of other) }
        ensures bound { reach (ends_of result) ≤ reach (ends_of self) + reach (ends_of other) }
    {
        Short {
            lo: self.lo + other.lo,
            hi: self.hi + other.hi,
        }
    }

    /// All differences of a number of each.
    pub(crate) fn difference(self, other: Short) -> Short
        requires { reach (ends_of self) + reach (ends_of other) ≤ 2 ^ 62 }
        ensures value { ends_of result ≡ grid_difference (ends_of self) (ends_of other) }
        ensures bound { reach (ends_of result) ≤ reach (ends_of self) + reach (ends_of other) }
    {
        Short {
            lo: self.lo - other.hi,
            hi: self.hi - other.lo,
        }
    }

    /// The same numbers as an interval.
    pub(crate) fn interval(self) -> Interval
        ensures { ends result ≡ ends_of self }
    {
        Interval::new(i128::from(self.lo), i128::from(self.hi))
    }
}
