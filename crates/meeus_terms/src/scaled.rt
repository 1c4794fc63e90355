// Numbers on the grid times coefficients, in whole units.
ghost use Rattle.std.specs.Prelude.{◌≡◌, ◌*◌, ◌^◌, ◌≤◌, pos, ◌≤ℤ◌, unsigned_abs};
ghost use Rattle.std.specs.Int.{int_min, int_max};
ghost use Rattle.fixed_interval.specs.Grid.{UNIT, reach, grid_scale_units};
ghost use Rattle.fixed_interval.specs.Interval.{ends};
ghost use Rattle.trig_series.specs.Angle.{range_of};
ghost use Rattle.meeus_terms.specs.Scaled.{hull_of, grid_scale_between};

use fixed_interval::Interval;
use trig_series::Angle;

/// A sine or cosine times a number of units, rounded outward to whole units.
pub(crate) fn scaled(a: Interval, units: i64) -> Angle
    requires small { 3 * reach (ends a) ≤ 4 * UNIT }
    requires not_negative { pos 0 ≤ℤ units }
    requires in_range { units ≤ℤ pos (2 ^ 40) }
    ensures value { range_of result ≡ grid_scale_units (ends a) (unsigned_abs units) }
    ensures low { unsigned_abs result.lo ≤ 2 ^ 42 }
    ensures high { unsigned_abs result.hi ≤ 2 ^ 42 }
{
    let (lo, hi) = a.scale_units(units);
    Angle::new(lo, hi)
}

// The least range that holds both.
#[tactic(auto, unfolding(crate::specs::Scaled::hull_of))]
fn hull(a: Angle, b: Angle) -> Angle
    ensures value { range_of result ≡ hull_of (range_of a) (range_of b) }
    ensures low { result.lo ≡ int_min a.lo b.lo }
    ensures high { result.hi ≡ int_max a.hi b.hi }
{
    Angle::new(a.lo.min(b.lo), a.hi.max(b.hi))
}

/// A sine or cosine times each coefficient of a range, rounded outward to whole units.
#[tactic(auto, unfolding(crate::specs::Scaled::grid_scale_between))]
pub(crate) fn scaled_between(a: Interval, coefficients: Angle) -> Angle
    requires small { 3 * reach (ends a) ≤ 4 * UNIT }
    requires not_negative { pos 0 ≤ℤ coefficients.lo }
    requires in_range { coefficients.hi ≤ℤ pos (2 ^ 39) }
    ensures value { range_of result ≡ grid_scale_between (ends a) (range_of coefficients) }
    ensures low { unsigned_abs result.lo ≤ 2 ^ 42 }
    ensures high { unsigned_abs result.hi ≤ 2 ^ 42 }
{
    let least = scaled(a, coefficients.lo as i64);
    let greatest = scaled(a, coefficients.hi as i64);
    hull(least, greatest)
}
