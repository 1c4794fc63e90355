// Products of sines and cosines, from left to right, and how great they may be.
ghost use Rattle.std.specs.Prelude.{◌≡◌, ◌*◌, ◌≤◌};
ghost use Rattle.fixed_interval.specs.Grid.{UNIT, reach, grid_product};
ghost use Rattle.fixed_interval.specs.Interval.{ends};

use fixed_interval::Interval;

// The product of two, at most 16/9.
pub(crate) fn product_of_two(a: Interval, b: Interval) -> Interval
    requires a_small { 3 * reach (ends a) ≤ 4 * UNIT }
    requires b_small { 3 * reach (ends b) ≤ 4 * UNIT }
    ensures value { ends result ≡ grid_product (ends a) (ends b) }
    ensures bound { 100 * reach (ends result) ≤ 178 * UNIT }
{
    a.narrow_product(b)
}

// The product of three, at most 64/27.
pub(crate) fn product_of_three(a: Interval, b: Interval, c: Interval) -> Interval
    requires a_small { 3 * reach (ends a) ≤ 4 * UNIT }
    requires b_small { 3 * reach (ends b) ≤ 4 * UNIT }
    requires c_small { 3 * reach (ends c) ≤ 4 * UNIT }
    ensures value { ends result ≡ grid_product (grid_product (ends a) (ends b)) (ends c) }
    ensures bound { 100 * reach (ends result) ≤ 238 * UNIT }
{
    product_of_two(a, b).narrow_product(c)
}
