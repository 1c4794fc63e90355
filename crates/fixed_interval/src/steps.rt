// Steps on whole numbers. Each does one operation, so that its clause is exact and the operations above only join them.
ghost use Rattle.std.specs.Prelude.{◌≡◌, ◌*◌, ◌^◌, ◌≤◌, pos, ◌<◌, ◌*ℤ◌, ◌≤ℤ◌, unsigned_abs, max};
ghost use Rattle.std.specs.Int.{int_min, int_max};
ghost use Rattle.fixed_interval.specs.Whole.{floor_over, ceil_over, least_of_four, greatest_of_four};
ghost use Rattle.fixed_interval.specs.Enclosure.{natural, whole_root as the_whole_root, root_up};

use crate::root::{square, whole_root};

/// A product that fits.
pub fn exact_product(x: i128, y: i128) -> i128
    requires { unsigned_abs x * unsigned_abs y ≤ 2 ^ 126 }
    ensures { result ≡ x *ℤ y }
{
    x * y
}

/// The least of four numbers.
fn least(a: i128, b: i128, c: i128, d: i128) -> i128
    ensures { result ≡ least_of_four a b c d }
{
    a.min(b).min(c.min(d))
}

/// The greatest of four numbers.
fn greatest(a: i128, b: i128, c: i128, d: i128) -> i128
    ensures { result ≡ greatest_of_four a b c d }
{
    a.max(b).max(c.max(d))
}

/// The least and the greatest of the four products of an end from `lo` to `hi` and one from `low` to `high`.
pub fn corner_products(lo: i128, hi: i128, low: i128, high: i128) -> (i128, i128)
    requires { max (unsigned_abs lo) (unsigned_abs hi) * max (unsigned_abs low) (unsigned_abs high) ≤ 2 ^ 126 }
    ensures least { result.0 ≡ least_of_four (lo *ℤ low) (lo *ℤ high) (hi *ℤ low) (hi *ℤ high) }
    ensures greatest { result.1 ≡ greatest_of_four (lo *ℤ low) (lo *ℤ high) (hi *ℤ low) (hi *ℤ high) }
{
    let a = exact_product(lo, low);
    let b = exact_product(lo, high);
    let c = exact_product(hi, low);
    let d = exact_product(hi, high);
    (least(a, b, c, d), greatest(a, b, c, d))
}

/// The same for ends below 2^63: the sign of an end of one picks the end of the other.
pub fn narrow_corner_products(lo: i128, hi: i128, low: i128, high: i128) -> (i128, i128)
    requires other_ordered { low ≤ℤ high }
    requires lo_narrow { unsigned_abs lo < 2 ^ 63 }
    requires hi_narrow { unsigned_abs hi < 2 ^ 63 }
    requires low_narrow { unsigned_abs low < 2 ^ 63 }
    requires high_narrow { unsigned_abs high < 2 ^ 63 }
    ensures least { result.0 ≡ least_of_four (lo *ℤ low) (lo *ℤ high) (hi *ℤ low) (hi *ℤ high) }
    ensures greatest { result.1 ≡ greatest_of_four (lo *ℤ low) (lo *ℤ high) (hi *ℤ low) (hi *ℤ high) }
{
    let (lo, hi) = (lo as i64, hi as i64);
    let (low, high) = (low as i64, high as i64);
    (
        lesser_product(lo, low, high).min(lesser_product(hi, low, high)),
        greater_product(lo, low, high).max(greater_product(hi, low, high)),
    )
}

/// The lesser of the products of `x` with `low` and with `high`.
fn lesser_product(x: i64, low: i64, high: i64) -> i128
    requires { low ≤ℤ high }
    ensures { result ≡ int_min (x *ℤ low) (x *ℤ high) }
{
    if 0 <= x {
        word_product(x, low)
    } else {
        word_product(x, high)
    }
}

/// The greater of the products of `x` with `low` and with `high`.
fn greater_product(x: i64, low: i64, high: i64) -> i128
    requires { low ≤ℤ high }
    ensures { result ≡ int_max (x *ℤ low) (x *ℤ high) }
{
    if 0 <= x {
        word_product(x, high)
    } else {
        word_product(x, low)
    }
}

/// The product of two words.
fn word_product(x: i64, y: i64) -> i128
    ensures { result ≡ x *ℤ y }
{
    x as i128 * y as i128
}

/// `x` / 2^56, rounded down.
pub fn floor_to_grid(x: i128) -> i128
    requires { unsigned_abs x ≤ 2 ^ 126 }
    ensures { result ≡ floor_over x (2 ^ 56) }
{
    x >> 56
}

/// `x` / 2^56, rounded up.
pub fn ceil_to_grid(x: i128) -> i128
    requires { unsigned_abs x ≤ 2 ^ 126 }
    ensures { result ≡ ceil_over x (2 ^ 56) }
{
    -((-x) >> 56)
}

/// `x` / `n`, rounded down.
pub fn floor_quotient(x: i128, n: u64) -> i128
    requires positive { 1 ≤ n }
    requires in_range { unsigned_abs x ≤ 2 ^ 126 }
    ensures { result ≡ floor_over x n }
{
    x.div_euclid(n as i128)
}

/// `x` / `n`, rounded up.
pub fn ceil_quotient(x: i128, n: u64) -> i128
    requires positive { 1 ≤ n }
    requires in_range { unsigned_abs x ≤ 2 ^ 126 }
    ensures { result ≡ ceil_over x n }
{
    -(-x).div_euclid(n as i128)
}

/// `x` times its absolute value, which fits.
pub fn signed_square(x: i128) -> i128
    requires { unsigned_abs x * unsigned_abs x ≤ 2 ^ 126 }
    ensures { result ≡ x *ℤ pos (unsigned_abs x) }
{
    x * x.abs()
}

/// What stands under the root of `x` / 2^56: a count of 2^-112, or 0 where `x` is negative.
pub fn radicand(x: i128) -> u128
    requires { x ≤ℤ pos (2 ^ 70) }
    ensures { result ≡ natural x * 2 ^ 56 }
{
    (x.max(0) as u128) << 56
}

/// The square root of `n`, rounded down.
pub fn root_down(n: u128) -> i128
    ensures { result ≡ pos (the_whole_root n) }
{
    whole_root(n) as i128
}

/// The square root of `n`, rounded up.
pub fn root_up(n: u128) -> i128
    ensures { result ≡ pos (root_up n) }
{
    let root = whole_root(n);
    if square(root) == n {
        root as i128
    } else {
        root as i128 + 1
    }
}
