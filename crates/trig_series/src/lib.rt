// Pi, and enclosures of sine and cosine over a range of angles.
// Contract: each call gives the enclosure of its definition on the grid, to the last place.
#![tactic(auto)]

mod alternating;
mod by_sign;
mod laws;
mod magnitudes;
mod quarters;
mod radians;
mod ranges;
mod series;
mod short;

ghost use Rattle.std.specs.Prelude.{◌≡◌, ◌^◌, ◌≤◌, ◌≤ℤ◌, unsigned_abs};

pub use by_sign::SineAndCosine;
pub use laws::{
    grid_sines_are_monotone, grid_sines_hold_exact, joined_quarters_are_those_met,
    sines_are_bounded, sines_are_monotone, sines_are_ordered, sines_nest,
};
pub use quarters::{cosine, sine, sine_and_cosine};
pub use series::pi;

/// A range of angles from `lo` to `hi`, in whole angle units, of which 144,000,000,000 make one degree.
/// `lo` is at most `hi`, and both magnitudes are at most 2^70.
#[derive(Clone, Copy, Debug, PartialEq, Eq)]
pub struct Angle {
    pub lo: i128,
    pub hi: i128,
    ghost ordered: { lo ≤ℤ hi },
    ghost low_in_range: { unsigned_abs lo ≤ 2 ^ 70 },
    ghost high_in_range: { unsigned_abs hi ≤ 2 ^ 70 },
}

impl Angle {
    ghost use Rattle.trig_series.specs.Angle.{range_of};

    /// The range from `lo` to `hi`, in angle units.
    pub fn new(lo: i128, hi: i128) -> Angle
        requires ordered { lo ≤ℤ hi }
        requires low_in_range { unsigned_abs lo ≤ 2 ^ 70 }
        requires high_in_range { unsigned_abs hi ≤ 2 ^ 70 }
        ensures { range_of result ≡ record { lo = lo; hi = hi } }
    {
        Angle { lo, hi }
    }
}
