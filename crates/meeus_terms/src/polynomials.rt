// Polynomials in the centuries at one minute, as tops over powers of the minutes of a century.
ghost use Rattle.std.specs.Prelude.{◌≡◌, ◌*◌, ◌+◌, ◌^◌, ◌≤◌, pos, ◌+ℤ◌, ◌*ℤ◌, ◌≤ℤ◌, unsigned_abs};
ghost use Rattle.fixed_interval.specs.Whole.{floor_over, ceil_over};
ghost use Rattle.meeus_terms.specs.Polynomials.{linear_top, quadratic_top, cubic_top};

use trig_series::Angle;

/// The minutes of a Julian century.
pub(crate) const CENTURY: i128 = 52_596_000;

// A product that fits.
fn product(x: i64, y: i128) -> i128
    requires { unsigned_abs x * unsigned_abs y ≤ 2 ^ 124 }
    ensures { result ≡ x *ℤ y }
{
    i128::from(x) * y
}

// A minute times a number that fits.
fn times(k: i64, x: i128) -> i128
    requires minute { unsigned_abs k ≤ 53200000 }
    requires fits { unsigned_abs x ≤ 2 ^ 98 }
    ensures value { result ≡ k *ℤ x }
    ensures bound { unsigned_abs result ≤ 53200000 * unsigned_abs x }
{
    product(k, x)
}

// A sum that fits.
fn sum(x: i128, y: i128) -> i128
    requires left { unsigned_abs x ≤ 2 ^ 124 }
    requires right { unsigned_abs y ≤ 2 ^ 124 }
    ensures { result ≡ x +ℤ y }
{
    x + y
}

/// a + b T, over a century.
pub(crate) fn linear(a: i64, b: i64, k: i64) -> i128
    requires minute { unsigned_abs k ≤ 53200000 }
    ensures value { result ≡ linear_top a b k 52596000 }
    ensures bound { unsigned_abs result ≤ 53200000 * (unsigned_abs a + unsigned_abs b) }
{
    sum(product(a, CENTURY), times(k, i128::from(b)))
}

/// a + b T + c T^2, over the square of a century.
pub(crate) fn quadratic(a: i64, b: i64, c: i64, k: i64) -> i128
    requires minute { unsigned_abs k ≤ 53200000 }
    ensures value { result ≡ quadratic_top a b c k 52596000 }
    ensures bound { unsigned_abs result ≤ 2830240000000000 * (unsigned_abs a + unsigned_abs b + unsigned_abs c) }
{
    sum(product(a, CENTURY * CENTURY), times(k, linear(b, c, k)))
}

/// a + b T + c T^2 + d T^3, over the cube of a century.
pub(crate) fn cubic(a: i64, b: i64, c: i64, d: i64, k: i64) -> i128
    requires minute { unsigned_abs k ≤ 53200000 }
    requires constant { unsigned_abs a ≤ 2 ^ 45 }
    requires others { unsigned_abs b + unsigned_abs c + unsigned_abs d ≤ 2 ^ 45 }
    ensures value { result ≡ cubic_top a b c d k 52596000 }
    ensures bound { unsigned_abs result ≤ 2 ^ 124 }
{
    sum(
        product(a, CENTURY * CENTURY * CENTURY),
        times(k, quadratic(b, c, d, k)),
    )
}

// `top` over `bottom`, rounded down.
fn floor_quotient(top: i128, bottom: u128) -> i128
    requires positive { 1 ≤ bottom }
    requires bottom_in_range { bottom ≤ 2 ^ 80 }
    requires top_in_range { unsigned_abs top ≤ 2 ^ 126 }
    ensures { result ≡ floor_over top bottom }
{
    top.div_euclid(bottom as i128)
}

// `top` over `bottom`, rounded up.
fn ceil_quotient(top: i128, bottom: u128) -> i128
    requires positive { 1 ≤ bottom }
    requires bottom_in_range { bottom ≤ 2 ^ 80 }
    requires top_in_range { unsigned_abs top ≤ 2 ^ 126 }
    ensures { result ≡ ceil_over top bottom }
{
    -(-top).div_euclid(bottom as i128)
}

/// From `low` to `high` over `bottom`, rounded outward to whole units.
pub(crate) fn whole_units(low: i128, high: i128, bottom: u128) -> Angle
    requires positive { 1 ≤ bottom }
    requires bottom_in_range { bottom ≤ 2 ^ 80 }
    requires ordered { low ≤ℤ high }
    requires low_in_range { unsigned_abs low ≤ 2 ^ 124 }
    requires high_in_range { unsigned_abs high ≤ 2 ^ 124 }
    requires low_small { unsigned_abs low ≤ 2 ^ 60 * bottom }
    requires high_small { unsigned_abs high ≤ 2 ^ 60 * bottom }
    ensures low { result.lo ≡ floor_over low bottom }
    ensures high { result.hi ≡ ceil_over high bottom }
{
    Angle::new(floor_quotient(low, bottom), ceil_quotient(high, bottom))
}
