// Angle units as radians: times pi over 180 degrees, where a product with the reciprocal stands in for the division.

ghost use Rattle.std.specs.Prelude.{◌≡◌, ◌*◌, ◌/◌, ◌≤◌, pos, neg_ℤ, ◌*ℤ◌, ◌≤ℤ◌};
ghost use Rattle.std.specs.Int.{div_ceil, int_min, int_max};
ghost use Rattle.fixed_interval.specs.Grid.{UNIT, reach, grid_times_ratio};
ghost use Rattle.fixed_interval.specs.Interval.{ends};
ghost use Rattle.fixed_interval.specs.Whole.{floor_over, ceil_over};
ghost use Rattle.trig_series.specs.Pi.{grid_pi, pi_low, pi_high};
ghost use Rattle.trig_series.specs.Quarters.{eighth_turn, half_turn};

use fixed_interval::Interval;

/// 180 degrees, in angle units.
const HALF_TURN: u128 = 25_920_000_000_000;

/// The ends of pi on the grid.
const PI_LOW: u128 = 226_375_608_064_910_088;

const PI_HIGH: u128 = 226_375_608_064_910_089;

/// 2^50 `PI_LOW` / `HALF_TURN`, rounded down.
const RECIPROCAL: u128 = 9_833_189_661_717_771_232;

/// The angles from `low` to `high`, at most 45 degrees either way, in radians.
pub(crate) fn radians(low: i64, high: i64) -> Interval
    requires ordered { low ≤ℤ high }
    requires low_in_range { neg_ℤ (pos eighth_turn) ≤ℤ low }
    requires high_in_range { high ≤ℤ pos eighth_turn }
    ensures value { ends result ≡ grid_times_ratio grid_pi (record { lo = low; hi = high }) half_turn }
    ensures bound { reach (ends result) ≤ UNIT }
{
    Interval::new(i128::from(lower(low)), i128::from(upper(high)))
}

/// The lesser of the products with the ends of pi, over a half turn, rounded down.
fn lower(units: i64) -> i64
    requires low_in_range { neg_ℤ (pos eighth_turn) ≤ℤ units }
    requires high_in_range { units ≤ℤ pos eighth_turn }
    ensures { result ≡ floor_over (int_min (pos pi_low *ℤ units) (pos pi_high *ℤ units)) half_turn }
{
    if 0 <= units {
        rounded_down(units as u64) as i64
    } else {
        -(rounded_up(units.unsigned_abs()) as i64)
    }
}

/// The greater of the products with the ends of pi, over a half turn, rounded up.
fn upper(units: i64) -> i64
    requires low_in_range { neg_ℤ (pos eighth_turn) ≤ℤ units }
    requires high_in_range { units ≤ℤ pos eighth_turn }
    ensures { result ≡ ceil_over (int_max (pos pi_low *ℤ units) (pos pi_high *ℤ units)) half_turn }
{
    if 0 <= units {
        rounded_up(units as u64) as i64
    } else {
        -(rounded_down(units.unsigned_abs()) as i64)
    }
}

/// `units` times the lower end of pi over a half turn, rounded down.
fn rounded_down(units: u64) -> u64
    requires { units ≤ eighth_turn }
    ensures { result ≡ pi_low * units / half_turn }
{
    let quotient = by_reciprocal(units);
    let left = (u128::from(units) * PI_LOW - u128::from(quotient) * HALF_TURN) as u64;
    quotient + u64::from(HALF_TURN as u64 <= left)
}

/// `units` times the upper end of pi over a half turn, rounded up.
fn rounded_up(units: u64) -> u64
    requires { units ≤ eighth_turn }
    ensures { result ≡ div_ceil (pi_high * units) half_turn }
{
    let quotient = by_reciprocal(units);
    let left = (u128::from(units) * PI_HIGH - u128::from(quotient) * HALF_TURN) as u64;
    quotient + u64::from(0 < left) + u64::from((HALF_TURN as u64) < left)
}

/// `units` times pi over a half turn, rounded down, or one less, for either end of pi.
fn by_reciprocal(units: u64) -> u64
    requires { units ≤ eighth_turn }
    ensures { result ≡ units * 9_833_189_661_717_771_232 / 1_125_899_906_842_624 }
{
    ((u128::from(units) * RECIPROCAL) >> 50) as u64
}
