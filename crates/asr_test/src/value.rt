// The Asr value.
ghost use Rattle.std.specs.Prelude.{◌≡◌, ◌+◌, ◌*◌, ◌≤◌};
ghost use Rattle.fixed_interval.specs.Grid.{UNIT, reach, grid_sum, grid_difference, grid_product, grid_magnitude, grid_signed_square};
ghost use Rattle.fixed_interval.specs.Interval.{ends};
ghost use Rattle.solar_terms.specs.Sun.{minutes_of, terms_of};
ghost use Rattle.altitude_test.specs.Values.{box_of};
ghost use Rattle.asr_test.specs.Asr.{asr_at_latitude, grid_one, grid_times_factor, grid_asr_value};

use crate::noon::{declination_of, noon_cosine, noon_sine, one};
use altitude_test::{Direction, Place, altitude_sine_at, latitude_direction};
use fixed_interval::Interval;
use solar_terms::{Minutes, Sun};

// t times the interval.
#[tactic(auto, unfolding(crate::specs::Asr::grid_times_factor))]
fn times_factor(factor: u8, a: Interval) -> Interval
    requires positive { 1 ≤ factor }
    requires at_most_2 { factor ≤ 2 }
    requires in_range { 100 * reach (ends a) ≤ 511 * UNIT }
    ensures value { ends result ≡ grid_times_factor factor (ends a) }
    ensures bound { 100 * reach (ends result) ≤ 1022 * UNIT }
{
    if factor == 2 { a.sum(a) } else { a }
}

// v = t · cos (φ - d) + |sin (φ - d)|.
fn asr_shadow(cosine: Interval, sine: Interval, factor: u8) -> Interval
    requires positive { 1 ≤ factor }
    requires at_most_2 { factor ≤ 2 }
    requires cosine_small { 100 * reach (ends cosine) ≤ 511 * UNIT }
    requires sine_small { 100 * reach (ends sine) ≤ 511 * UNIT }
    ensures value { ends result ≡ grid_sum (grid_times_factor factor (ends cosine)) (grid_magnitude (ends sine)) }
    ensures bound { 100 * reach (ends result) ≤ 1533 * UNIT }
{
    times_factor(factor, cosine).sum(sine.magnitude())
}

// S · S.
fn square_of_altitude(sine: Interval) -> Interval
    requires { reach (ends sine) ≤ 8 * UNIT }
    ensures value { ends result ≡ grid_product (ends sine) (ends sine) }
    ensures bound { reach (ends result) ≤ 65 * UNIT }
{
    sine.narrow_product(sine)
}

// S|S|.
fn signed_square_of_altitude(sine: Interval) -> Interval
    requires { reach (ends sine) ≤ 8 * UNIT }
    ensures value { ends result ≡ grid_signed_square (ends sine) }
    ensures bound { reach (ends result) ≤ 64 * UNIT + 1 }
{
    sine.signed_square()
}

// cz · cz.
fn square_of_cosine(cz: Interval) -> Interval
    requires { 100 * reach (ends cz) ≤ 511 * UNIT }
    ensures value { ends result ≡ grid_product (ends cz) (ends cz) }
    ensures bound { 100 * reach (ends result) ≤ 2612 * UNIT }
{
    cz.narrow_product(cz)
}

// v · v.
fn square_of_shadow(v: Interval) -> Interval
    requires { 100 * reach (ends v) ≤ 1533 * UNIT }
    ensures value { ends result ≡ grid_product (ends v) (ends v) }
    ensures bound { 100 * reach (ends result) ≤ 23510 * UNIT }
{
    v.narrow_product(v)
}

// 1 - S · S.
fn one_less_square(sine: Interval) -> Interval
    requires { reach (ends sine) ≤ 8 * UNIT }
    ensures value { ends result ≡ grid_difference grid_one (grid_product (ends sine) (ends sine)) }
    ensures bound { reach (ends result) ≤ 66 * UNIT }
{
    one().difference(square_of_altitude(sine))
}

// (1 - S · S) · (cz · cz).
fn level_part(sine: Interval, cz: Interval) -> Interval
    requires sine_small { reach (ends sine) ≤ 8 * UNIT }
    requires cosine_small { 100 * reach (ends cz) ≤ 511 * UNIT }
    ensures value { ends result ≡ grid_product
        (grid_difference grid_one (grid_product (ends sine) (ends sine)))
        (grid_product (ends cz) (ends cz)) }
    ensures bound { reach (ends result) ≤ 1730 * UNIT }
{
    one_less_square(sine).narrow_product(square_of_cosine(cz))
}

// S|S| · (v · v).
fn upright_part(sine: Interval, v: Interval) -> Interval
    requires sine_small { reach (ends sine) ≤ 8 * UNIT }
    requires shadow_small { 100 * reach (ends v) ≤ 1533 * UNIT }
    ensures value { ends result ≡ grid_product (grid_signed_square (ends sine)) (grid_product (ends v) (ends v)) }
    ensures bound { reach (ends result) ≤ 15050 * UNIT }
{
    signed_square_of_altitude(sine).product(square_of_shadow(v))
}

/// The Asr value over the places `p` at the minutes `m`, whose sun is `s`, for the factor 1 or 2: above zero where
/// the shadow is longer than `factor` times the object plus its shadow at noon, or the sun is below the horizon.
#[tactic(auto, unfolding(crate::specs::Asr::grid_noon_cosine, crate::specs::Asr::grid_noon_sine, crate::specs::Asr::grid_asr_shadow, crate::specs::Asr::grid_asr_value))]
pub fn asr_value(s: &Sun, m: Minutes, p: Place, factor: u8) -> Interval
    requires positive { 1 ≤ factor }
    requires at_most_2 { factor ≤ 2 }
    ensures { ends result ≡ grid_asr_value (terms_of s.now) (minutes_of m) (box_of p) factor }
{
    let phi = latitude_direction(p);
    asr_value_by(s, altitude_sine_at(s, m, p, phi), phi, factor)
}

/// The same by the sine of the altitude and the latitude `phi`, wherever these were made.
pub fn asr_value_by(s: &Sun, sine: Interval, phi: Direction, factor: u8) -> Interval
    requires sine_small { reach (ends sine) ≤ 8 * UNIT }
    requires positive { 1 ≤ factor }
    requires at_most_2 { factor ≤ 2 }
    ensures { ends result ≡ asr_at_latitude (terms_of s.now) (ends sine) (ends phi.sine) (ends phi.cosine) factor }
{
    let d = declination_of(s);
    let cosine = noon_cosine(phi, d);
    let shadow = asr_shadow(cosine, noon_sine(phi, d), factor);
    level_part(sine, cosine).difference(upright_part(sine, shadow))
}
