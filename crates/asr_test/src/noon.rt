// The sun at its noon height: sine and cosine of its declination d, and of φ - d at the latitude φ.
ghost use Rattle.std.specs.Prelude.{◌≡◌, ◌*◌, ◌≤◌};
ghost use Rattle.fixed_interval.specs.Grid.{UNIT, reach, grid_sum, grid_difference, grid_product};
ghost use Rattle.fixed_interval.specs.Interval.{ends};
ghost use Rattle.solar_terms.specs.Sun.{terms_of};
ghost use Rattle.asr_test.specs.Asr.{grid_one, grid_sine_declination, grid_cosine_declination};

use altitude_test::Direction;
use fixed_interval::Interval;
use solar_terms::Sun;

#[tactic(auto, unfolding(crate::specs::Asr::grid_one))]
pub(crate) fn one() -> Interval
    ensures value { ends result ≡ grid_one }
    ensures bound { reach (ends result) ≤ UNIT }
{
    Interval::new(1 << 56, 1 << 56)
}

// The sine and the cosine of the sun's declination.
#[derive(Clone, Copy)]
pub(crate) struct Declination {
    pub(crate) sine: Interval,
    pub(crate) cosine: Interval,
    ghost sine_small: { 100 * reach (ends sine) ≤ 178 * UNIT },
    ghost cosine_small: { 100 * reach (ends cosine) ≤ 205 * UNIT },
}

// sin d = sin e · sin L.
#[tactic(auto, unfolding(crate::specs::Asr::grid_sine_declination))]
fn sine_declination(s: &Sun) -> Interval
    ensures value { ends result ≡ grid_sine_declination (terms_of s.now) }
    ensures bound { 100 * reach (ends result) ≤ 178 * UNIT }
{
    s.sin_e.narrow_product(s.sin_l)
}

// sin d · sin d.
fn square_of_sine(w: Interval) -> Interval
    requires { 100 * reach (ends w) ≤ 178 * UNIT }
    ensures value { ends result ≡ grid_product (ends w) (ends w) }
    ensures bound { 100 * reach (ends result) ≤ 317 * UNIT }
{
    w.narrow_product(w)
}

// The argument of the root in cos d.
fn one_less_square(w: Interval) -> Interval
    requires { 100 * reach (ends w) ≤ 178 * UNIT }
    ensures value { ends result ≡ grid_difference grid_one (grid_product (ends w) (ends w)) }
    ensures bound { 100 * reach (ends result) ≤ 417 * UNIT }
{
    one().difference(square_of_sine(w))
}

// cos d = root(1 - sin d · sin d).
#[tactic(auto, unfolding(crate::specs::Asr::grid_cosine_declination))]
fn cosine_declination(s: &Sun, w: Interval) -> Interval
    requires sine { ends w ≡ grid_sine_declination (terms_of s.now) }
    requires small { 100 * reach (ends w) ≤ 178 * UNIT }
    ensures value { ends result ≡ grid_cosine_declination (terms_of s.now) }
    ensures bound { 100 * reach (ends result) ≤ 205 * UNIT }
{
    one_less_square(w).root()
}

pub(crate) fn declination_of(s: &Sun) -> Declination
    ensures sine { ends result.sine ≡ grid_sine_declination (terms_of s.now) }
    ensures cosine { ends result.cosine ≡ grid_cosine_declination (terms_of s.now) }
{
    let sine = sine_declination(s);
    Declination {
        sine,
        cosine: cosine_declination(s, sine),
    }
}

// A sine or cosine of the latitude times the cosine of d.
fn times_cosine(a: Interval, cosine_declination: Interval) -> Interval
    requires a_small { 3 * reach (ends a) ≤ 4 * UNIT }
    requires cosine_small { 100 * reach (ends cosine_declination) ≤ 205 * UNIT }
    ensures value { ends result ≡ grid_product (ends a) (ends cosine_declination) }
    ensures bound { 1000 * reach (ends result) ≤ 2734 * UNIT }
{
    a.narrow_product(cosine_declination)
}

// A sine or cosine of the latitude times the sine of d.
fn times_sine(a: Interval, sine_declination: Interval) -> Interval
    requires a_small { 3 * reach (ends a) ≤ 4 * UNIT }
    requires sine_small { 100 * reach (ends sine_declination) ≤ 178 * UNIT }
    ensures value { ends result ≡ grid_product (ends a) (ends sine_declination) }
    ensures bound { 1000 * reach (ends result) ≤ 2374 * UNIT }
{
    a.narrow_product(sine_declination)
}

// cos (φ - d).
pub(crate) fn noon_cosine(phi: Direction, d: Declination) -> Interval
    ensures value { ends result ≡ grid_sum
        (grid_product (ends phi.cosine) (ends d.cosine))
        (grid_product (ends phi.sine) (ends d.sine)) }
    ensures bound { 100 * reach (ends result) ≤ 511 * UNIT }
{
    let level = times_cosine(phi.cosine, d.cosine);
    level.sum(times_sine(phi.sine, d.sine))
}

// sin (φ - d).
pub(crate) fn noon_sine(phi: Direction, d: Declination) -> Interval
    ensures value { ends result ≡ grid_difference
        (grid_product (ends phi.sine) (ends d.cosine))
        (grid_product (ends phi.cosine) (ends d.sine)) }
    ensures bound { 100 * reach (ends result) ≤ 511 * UNIT }
{
    let north = times_cosine(phi.sine, d.cosine);
    north.difference(times_sine(phi.cosine, d.sine))
}
