// Sine and cosine of a range of angles: each quarter that the range meets goes through a series.

ghost use Rattle.std.specs.Prelude.{◌≡◌, ◌*◌, ◌≤◌, ◌^◌, ℤ, pos, neg_ℤ, ◌+ℤ◌, ◌-ℤ◌, ◌*ℤ◌, ◌≤ℤ◌, unsigned_abs};
ghost use Rattle.fixed_interval.specs.Fraction.{over};
ghost use Rattle.fixed_interval.specs.Grid.{UNIT, reach, grid_times_ratio};
ghost use Rattle.fixed_interval.specs.Interval.{ends};
ghost use Rattle.fixed_interval.specs.Whole.{floor_over};
ghost use Rattle.trig_series.specs.Angle.{range_of};
ghost use Rattle.trig_series.specs.Pi.{grid_pi};
ghost use Rattle.trig_series.specs.Quarters.{eighth_turn, quarter_turn, half_turn, Meets, first_quarter as the_first_quarter, last_quarter as the_last_quarter, grid_piece, grid_over_quarters};
ghost use Rattle.trig_series.specs.Series.{grid_sine_series, grid_cosine_series};
ghost use Rattle.trig_series.specs.Sine.{modulo_4, grid_quarters_on, grid_sine, grid_cosine, grid_sine_beyond};

use crate::Angle;
use crate::by_sign::{SineAndCosine, both_of_radians, cosine_of_radians, sine_of_radians};
use crate::radians::radians;
use crate::series::negated;
use fixed_interval::Interval;

/// 45 degrees, in angle units.
const EIGHTH_TURN: i128 = 6_480_000_000_000;

/// 90 degrees, in angle units.
const QUARTER_TURN: i128 = 12_960_000_000_000;

/// An enclosure of the sine of every angle of `a`, which is at most 360 degrees wide.
/// It lies within 4/3, and is the hull of Taylor's series over the pieces of `a` between odd multiples of 45 degrees.
pub fn sine(a: Angle) -> Interval
    requires { (a.hi -ℤ a.lo) ≤ℤ pos 51_840_000_000_000 }
    ensures value { ends result ≡ grid_sine (range_of a) }
    ensures bound { 3 * reach (ends result) ≤ 4 * UNIT }
{
    over_quarters(a, 0)
}

/// An enclosure of the cosine of every angle of `a`, which is at most 360 degrees wide.
/// It lies within 4/3, and is the sine one quarter turn on.
pub fn cosine(a: Angle) -> Interval
    requires { (a.hi -ℤ a.lo) ≤ℤ pos 51_840_000_000_000 }
    ensures value { ends result ≡ grid_cosine (range_of a) }
    ensures bound { 3 * reach (ends result) ≤ 4 * UNIT }
{
    over_quarters(a, 1)
}

/// Enclosures of the sine and of the cosine of every angle of `a`, which is at most 360 degrees wide:
/// what `sine` and `cosine` give.
pub fn sine_and_cosine(a: Angle) -> SineAndCosine
    requires { (a.hi -ℤ a.lo) ≤ℤ pos 51_840_000_000_000 }
    ensures sine { ends result.sine ≡ grid_sine (range_of a) }
    ensures sine_bound { 3 * reach (ends result.sine) ≤ 4 * UNIT }
    ensures cosine { ends result.cosine ≡ grid_cosine (range_of a) }
    ensures cosine_bound { 3 * reach (ends result.cosine) ≤ 4 * UNIT }
{
    let mut quarter = first_quarter(a.lo);
    let last = last_quarter(a.hi);
    let mut both = both_in_quarter(a, quarter);
    while quarter < last {
        quarter += 1;
        let more = both_in_quarter(a, quarter);
        both = SineAndCosine {
            sine: both.sine.hull(more.sine),
            cosine: both.cosine.hull(more.cosine),
        };
    }
    both
}

/// The sine of every angle of `a` with `ahead` quarters added.
fn over_quarters(a: Angle, ahead: i128) -> Interval
    requires { unsigned_abs ahead ≤ 1 }
    ensures value { ends result ≡ grid_over_quarters (λ c. grid_sine_beyond (c +ℤ ahead) (grid_piece (range_of a) c)) (range_of a) }
    ensures bound { 3 * reach (ends result) ≤ 4 * UNIT }
{
    let mut quarter = first_quarter(a.lo);
    let last = last_quarter(a.hi);
    let mut all = sine_in_quarter(a, quarter, ahead);
    while quarter < last {
        quarter += 1;
        all = all.hull(sine_in_quarter(a, quarter, ahead));
    }
    all
}

/// The first quarter that ends at the angle or beyond it.
fn first_quarter(angle: i128) -> i128
    requires { unsigned_abs angle ≤ 2 ^ 70 }
    ensures value { result ≡ the_first_quarter (over angle 1) }
    ensures bound { unsigned_abs result ≤ 2 ^ 30 }
{
    -whole_quarters(EIGHTH_TURN - angle)
}

/// The last quarter that begins at the angle or before it.
fn last_quarter(angle: i128) -> i128
    requires { unsigned_abs angle ≤ 2 ^ 70 }
    ensures value { result ≡ the_last_quarter (over angle 1) }
    ensures bound { unsigned_abs result ≤ 2 ^ 30 }
{
    whole_quarters(angle + EIGHTH_TURN)
}

/// How many whole quarter turns are in so many angle units, rounded down: by one word where the units fit it.
fn whole_quarters(units: i128) -> i128
    requires { unsigned_abs units ≤ 2 ^ 71 }
    ensures { result ≡ floor_over units quarter_turn }
{
    match i64::try_from(units) {
        Ok(units) => i128::from(units.div_euclid(QUARTER_TURN as i64)),
        Err(_) => units.div_euclid(QUARTER_TURN),
    }
}

/// The sine of the angles of `a` in one quarter that it meets, with `ahead` quarters added.
fn sine_in_quarter(a: Angle, quarter: i128, ahead: i128) -> Interval
    requires met { Meets (range_of a) quarter }
    requires ahead_small { unsigned_abs ahead ≤ 1 }
    ensures value { ends result ≡ grid_sine_beyond (quarter +ℤ ahead) (grid_piece (range_of a) quarter) }
    ensures bound { 3 * reach (ends result) ≤ 4 * UNIT }
{
    sine_beyond(quarter + ahead, radians_in_quarter(a, quarter))
}

/// Sine and cosine of the angles of `a` in one quarter that it meets.
fn both_in_quarter(a: Angle, quarter: i128) -> SineAndCosine
    requires { Meets (range_of a) quarter }
    ensures sine { ends result.sine ≡ grid_sine_beyond quarter (grid_piece (range_of a) quarter) }
    ensures cosine { ends result.cosine ≡ grid_sine_beyond (quarter +ℤ pos 1) (grid_piece (range_of a) quarter) }
    ensures sine_bound { 3 * reach (ends result.sine) ≤ 4 * UNIT }
    ensures cosine_bound { 3 * reach (ends result.cosine) ≤ 4 * UNIT }
{
    both_beyond(quarter, radians_in_quarter(a, quarter))
}

/// The angles of `a` in one quarter that it meets, turned back by whole quarters, in radians.
fn radians_in_quarter(a: Angle, quarter: i128) -> Interval
    requires { Meets (range_of a) quarter }
    ensures value { ends result ≡ grid_times_ratio grid_pi (grid_piece (range_of a) quarter) half_turn }
    ensures bound { reach (ends result) ≤ UNIT }
{
    let low = turned_back(a.lo, quarter).max(-EIGHTH_TURN);
    let high = turned_back(a.hi, quarter).min(EIGHTH_TURN);
    radians(low as i64, high as i64)
}

/// The angle less that many quarter turns.
fn turned_back(angle: i128, quarters: i128) -> i128
    requires angle_in_range { unsigned_abs angle ≤ 2 ^ 70 }
    requires quarters_in_range { unsigned_abs quarters ≤ 2 ^ 31 }
    ensures { result ≡ angle -ℤ (pos quarter_turn *ℤ quarters) }
{
    angle - QUARTER_TURN * quarters
}

/// The sine of x radians with whole quarters added, for an x of at most 1 radian either way.
fn sine_beyond(quarters: i128, x: Interval) -> Interval
    requires { reach (ends x) ≤ UNIT }
    ensures { ends result ≡ grid_quarters_on (modulo_4 quarters) (grid_sine_series (ends x)) (grid_cosine_series (ends x)) }
{
    match quarters.rem_euclid(4) {
        0 => sine_of_radians(x),
        1 => cosine_of_radians(x),
        2 => negated(sine_of_radians(x)),
        _ => negated(cosine_of_radians(x)),
    }
}

/// Sine and cosine of x radians with whole quarters added, for an x of at most 1 radian either way.
fn both_beyond(quarters: i128, x: Interval) -> SineAndCosine
    requires { reach (ends x) ≤ UNIT }
    ensures sine { ends result.sine ≡ grid_quarters_on (modulo_4 quarters) (grid_sine_series (ends x)) (grid_cosine_series (ends x)) }
    ensures cosine { ends result.cosine ≡ grid_quarters_on (modulo_4 (quarters +ℤ pos 1)) (grid_sine_series (ends x)) (grid_cosine_series (ends x)) }
{
    let SineAndCosine { sine, cosine } = both_of_radians(x);
    match quarters.rem_euclid(4) {
        0 => SineAndCosine { sine, cosine },
        1 => SineAndCosine {
            sine: cosine,
            cosine: negated(sine),
        },
        2 => SineAndCosine {
            sine: negated(sine),
            cosine: negated(cosine),
        },
        _ => SineAndCosine {
            sine: negated(cosine),
            cosine: sine,
        },
    }
}
