// The sun over a range of minutes: what the prayer conditions need of its place in the sky.
// Contract: `sun(m)` is the grid form of the observatory's formulas over the minutes of m.
#![tactic(auto)]

ghost use Rattle.std.specs.Prelude.{◌*◌, ◌^◌, ◌≤◌, neg_ℤ, pos, ◌-ℤ◌, ◌≤ℤ◌, unsigned_abs};
ghost use Rattle.fixed_interval.specs.Grid.{UNIT, reach};
ghost use Rattle.fixed_interval.specs.Interval.{ends};

mod angles;
pub mod laws;
pub mod observatory;

use fixed_interval::Interval;
use trig_series::Angle;

/// A range of whole minutes since 2000-01-01 12:00 Universal Time, both ends included.
///
/// It spans at most 720 minutes and lies within 53,200,000 minutes (101 years) either way.
#[derive(Clone, Copy, Debug, PartialEq, Eq)]
pub struct Minutes {
    pub first: i64,
    pub last: i64,
    ghost not_before: { neg_ℤ (pos 53200000) ≤ℤ first },
    ghost ordered: { first ≤ℤ last },
    ghost not_after: { last ≤ℤ pos 53200000 },
    ghost narrow: { (last -ℤ first) ≤ℤ pos 720 },
}

impl Minutes {
    ghost use Rattle.std.specs.Prelude.{◌≡◌};
    ghost use Rattle.solar_terms.specs.Sun.{minutes_of};

    /// The minutes from `first` to `last`.
    pub fn new(first: i64, last: i64) -> Minutes
        requires not_before { neg_ℤ (pos 53200000) ≤ℤ first }
        requires ordered { first ≤ℤ last }
        requires not_after { last ≤ℤ pos 53200000 }
        requires narrow { (last -ℤ first) ≤ℤ pos 720 }
        ensures { minutes_of result ≡ record { lo = first; hi = last } }
    {
        Minutes { first, last }
    }
}

/// The sun over a range of minutes: sine and cosine of its ecliptic longitude `l` and of the
/// obliquity `e`, and its mean longitude `q` in angle units.
///
/// The sines and cosines are at most 4/3; `q` is within 2^60 and at most 100 degrees wide.
#[derive(Clone, Copy)]
pub struct Sun {
    pub sin_l: Interval,
    pub cos_l: Interval,
    pub sin_e: Interval,
    pub cos_e: Interval,
    pub q: Angle,
    ghost sin_l_small: { 3 * reach (ends sin_l) ≤ 4 * UNIT },
    ghost cos_l_small: { 3 * reach (ends cos_l) ≤ 4 * UNIT },
    ghost sin_e_small: { 3 * reach (ends sin_e) ≤ 4 * UNIT },
    ghost cos_e_small: { 3 * reach (ends cos_e) ≤ 4 * UNIT },
    ghost q_low: { unsigned_abs q.lo ≤ 2 ^ 60 },
    ghost q_high: { unsigned_abs q.hi ≤ 2 ^ 60 },
    ghost q_narrow: { (q.hi -ℤ q.lo) ≤ℤ pos 14400000000000 },
}

impl Sun {
    ghost use Rattle.std.specs.Prelude.{◌≡◌};
    ghost use Rattle.trig_series.specs.Angle.{range_of};
    ghost use Rattle.solar_terms.specs.Sun.{terms_of};

    /// The sun with these terms.
    pub fn new(sin_l: Interval, cos_l: Interval, sin_e: Interval, cos_e: Interval, q: Angle) -> Sun
        requires sin_l_small { 3 * reach (ends sin_l) ≤ 4 * UNIT }
        requires cos_l_small { 3 * reach (ends cos_l) ≤ 4 * UNIT }
        requires sin_e_small { 3 * reach (ends sin_e) ≤ 4 * UNIT }
        requires cos_e_small { 3 * reach (ends cos_e) ≤ 4 * UNIT }
        requires q_low { unsigned_abs q.lo ≤ 2 ^ 60 }
        requires q_high { unsigned_abs q.hi ≤ 2 ^ 60 }
        requires q_narrow { (q.hi -ℤ q.lo) ≤ℤ pos 14400000000000 }
        ensures { terms_of result ≡ record {
          sin_l = ends sin_l;
          cos_l = ends cos_l;
          sin_e = ends sin_e;
          cos_e = ends cos_e;
          q = range_of q;
        } }
    {
        Sun {
            sin_l,
            cos_l,
            sin_e,
            cos_e,
            q,
        }
    }
}
