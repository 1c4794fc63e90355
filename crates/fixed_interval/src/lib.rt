// Intervals of fixed-point numbers whose operations are rounded outward.
// Contract: each operation gives exactly the grid form of its definition.
#![tactic(auto)]

ghost use Rattle.std.specs.Prelude.{ℕ, pos, ◌≡◌, ◌+◌, ◌^◌, ◌<◌, ◌≤◌, ◌≤ℤ◌, ◌+ℤ◌, ◌-ℤ◌, ◌*◌, unsigned_abs, max};
ghost use Rattle.std.specs.Int.{div_ceil};
ghost use Rattle.fixed_interval.specs.Grid.{reach, UNIT, grid_sum, grid_difference, grid_product, grid_divide_by};
ghost use Rattle.fixed_interval.specs.Grid.{grid_hull, grid_magnitude, grid_signed_square, grid_root};
ghost use Rattle.fixed_interval.specs.Grid.{grid_scale_units, grid_times_ratio};

pub mod laws;
mod root;
mod steps;

use steps::{
    ceil_quotient, ceil_to_grid, corner_products, exact_product, floor_quotient, floor_to_grid,
    narrow_corner_products, radicand, root_down, root_up, signed_square,
};

/// The numbers from `lo` / 2^56 to `hi` / 2^56: fixed-point interval arithmetic, every result rounded outward.
/// `lo` is at most `hi`, and both magnitudes are at most 2^71.
#[derive(Clone, Copy, Debug, PartialEq, Eq)]
pub struct Interval {
    pub lo: i128,
    pub hi: i128,
    ghost ordered: { lo ≤ℤ hi },
    ghost low_in_range: { unsigned_abs lo ≤ 2 ^ 71 },
    ghost high_in_range: { unsigned_abs hi ≤ 2 ^ 71 },
}

impl Interval {
    ghost use Rattle.fixed_interval.specs.Interval.{ends};

    /// The interval from `lo` / 2^56 to `hi` / 2^56.
    pub fn new(lo: i128, hi: i128) -> Interval
        requires ordered { lo ≤ℤ hi }
        requires low_in_range { unsigned_abs lo ≤ 2 ^ 71 }
        requires high_in_range { unsigned_abs hi ≤ 2 ^ 71 }
        ensures { ends result ≡ record { lo = lo; hi = hi } }
    {
        Interval { lo, hi }
    }

    /// All sums of a number of each. The ends of the result are within 2^71.
    pub fn sum(self, other: Interval) -> Interval
        requires low_in_range { unsigned_abs (self.lo +ℤ other.lo) ≤ 2 ^ 71 }
        requires high_in_range { unsigned_abs (self.hi +ℤ other.hi) ≤ 2 ^ 71 }
        ensures value { ends result ≡ grid_sum (ends self) (ends other) }
        ensures bound { reach (ends result) ≤ reach (ends self) + reach (ends other) }
    {
        Interval {
            lo: self.lo + other.lo,
            hi: self.hi + other.hi,
        }
    }

    /// All differences of a number of each. The ends of the result are within 2^71.
    pub fn difference(self, other: Interval) -> Interval
        requires low_in_range { unsigned_abs (self.lo -ℤ other.hi) ≤ 2 ^ 71 }
        requires high_in_range { unsigned_abs (self.hi -ℤ other.lo) ≤ 2 ^ 71 }
        ensures value { ends result ≡ grid_difference (ends self) (ends other) }
        ensures bound { reach (ends result) ≤ reach (ends self) + reach (ends other) }
    {
        Interval {
            lo: self.lo - other.hi,
            hi: self.hi - other.lo,
        }
    }

    /// All products of a number of each. The greatest magnitudes of the ends multiply to at most 2^126.
    pub fn product(self, other: Interval) -> Interval
        requires { reach (ends self) * reach (ends other) ≤ 2 ^ 126 }
        ensures value { ends result ≡ grid_product (ends self) (ends other) }
        ensures bound { reach (ends result) ≤ div_ceil (reach (ends self) * reach (ends other)) UNIT }
    {
        let (least, greatest) = corner_products(self.lo, self.hi, other.lo, other.hi);
        Interval {
            lo: floor_to_grid(least),
            hi: ceil_to_grid(greatest),
        }
    }

    /// All products of a number of each, for ends below 2^63: as `product`, on 64-bit words.
    pub fn narrow_product(self, other: Interval) -> Interval
        requires self_narrow { reach (ends self) < 2 ^ 63 }
        requires other_narrow { reach (ends other) < 2 ^ 63 }
        ensures value { ends result ≡ grid_product (ends self) (ends other) }
        ensures bound { reach (ends result) ≤ div_ceil (reach (ends self) * reach (ends other)) UNIT }
    {
        let (least, greatest) = narrow_corner_products(self.lo, self.hi, other.lo, other.hi);
        Interval {
            lo: floor_to_grid(least),
            hi: ceil_to_grid(greatest),
        }
    }

    /// All numbers of the interval over `n`, which is at least 1.
    pub fn divide_by(self, n: u64) -> Interval
        requires { 1 ≤ n }
        ensures value { ends result ≡ grid_divide_by (ends self) n }
        ensures bound { reach (ends result) ≤ div_ceil (reach (ends self)) n }
    {
        Interval {
            lo: floor_quotient(self.lo, n),
            hi: ceil_quotient(self.hi, n),
        }
    }

    /// The least interval that holds both.
    pub fn hull(self, other: Interval) -> Interval
        ensures value { ends result ≡ grid_hull (ends self) (ends other) }
        ensures bound { reach (ends result) ≤ max (reach (ends self)) (reach (ends other)) }
    {
        Interval {
            lo: self.lo.min(other.lo),
            hi: self.hi.max(other.hi),
        }
    }

    /// The absolute values of the interval's numbers.
    pub fn magnitude(self) -> Interval
        ensures value { ends result ≡ grid_magnitude (ends self) }
        ensures bound { reach (ends result) ≤ reach (ends self) }
    {
        Interval {
            lo: self.lo.max(-self.hi).max(0),
            hi: (-self.lo).max(self.hi),
        }
    }

    /// Each number times its absolute value. The square of the greatest magnitude of an end is at most 2^126.
    pub fn signed_square(self) -> Interval
        requires { reach (ends self) * reach (ends self) ≤ 2 ^ 126 }
        ensures value { ends result ≡ grid_signed_square (ends self) }
        ensures bound { reach (ends result) ≤ div_ceil (reach (ends self) * reach (ends self)) UNIT }
    {
        Interval {
            lo: floor_to_grid(signed_square(self.lo)),
            hi: ceil_to_grid(signed_square(self.hi)),
        }
    }

    /// The square roots of the interval's numbers, where a negative number counts as 0. `hi` is at most 2^70.
    /// The result reaches no further than any number whose square does.
    pub fn root(self) -> Interval
        requires { self.hi ≤ℤ pos (2 ^ 70) }
        ensures value { ends result ≡ grid_root (ends self) }
        ensures bound { (s : ℕ) → reach (ends self) * UNIT ≤ s * s → reach (ends result) ≤ s }
    {
        Interval {
            lo: root_down(radicand(self.lo)),
            hi: root_up(radicand(self.hi)),
        }
    }

    /// The interval times `units`, which is from 0 to 2^45, rounded outward to whole units.
    pub fn scale_units(self, units: i64) -> (i128, i128)
        requires low { pos 0 ≤ℤ units }
        requires high { units ≤ℤ pos (2 ^ 45) }
        ensures low { result.0 ≡ (grid_scale_units (ends self) (unsigned_abs units)).lo }
        ensures high { result.1 ≡ (grid_scale_units (ends self) (unsigned_abs units)).hi }
        ensures ordered { result.0 ≤ℤ result.1 }
        ensures bound { max (unsigned_abs result.0) (unsigned_abs result.1)
            ≤ div_ceil (reach (ends self) * unsigned_abs units) UNIT }
    {
        let units = units as i128;
        (
            floor_to_grid(exact_product(self.lo, units)),
            ceil_to_grid(exact_product(self.hi, units)),
        )
    }

    /// All products with a number from `low` to `high`, over `n`, which is at least 1.
    /// `low` and `high` are within 2^44, and the ends of the result within 2^71.
    pub fn times_ratio(self, low: i64, high: i64, n: u64) -> Interval
        requires ordered { low ≤ℤ high }
        requires low_in_range { unsigned_abs low ≤ 2 ^ 44 }
        requires high_in_range { unsigned_abs high ≤ 2 ^ 44 }
        requires positive { 1 ≤ n }

        // The greatest product, over n: so the ends of the result are within 2^71.
        requires result_in_range { reach (ends self) * max (unsigned_abs low) (unsigned_abs high)
            ≤ 2 ^ 71 * n }
        ensures value { ends result ≡ grid_times_ratio (ends self) (record { lo = low; hi = high }) n }
        ensures bound { reach (ends result)
            ≤ div_ceil (reach (ends self) * max (unsigned_abs low) (unsigned_abs high)) n }
    {
        let (least, greatest) = corner_products(self.lo, self.hi, low as i128, high as i128);
        Interval {
            lo: floor_quotient(least, n),
            hi: ceil_quotient(greatest, n),
        }
    }
}
