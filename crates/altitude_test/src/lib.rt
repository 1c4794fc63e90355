// Where the sun stands over a box of places and a range of minutes: the altitude value and the meridian value.
// Contract: each value is the grid form of its formula.
#![tactic(auto)]

ghost use Rattle.std.specs.Prelude.{neg_ℤ, pos, ◌-ℤ◌, ◌≤ℤ◌};

pub mod angles;
mod directions;
pub mod laws;
mod products;
mod values;

pub use directions::{Direction, KeptDirection, latitude_direction};
pub use values::{
    altitude_sine, altitude_sine_at, altitude_sine_by, altitude_value, meridian_value,
    meridian_value_by,
};

/// A closed box of places in place units of 1/128 microdegree: `x` is the longitude, positive to the east, `y` the latitude.
///
/// It lies within 47,000,000,000 (367 degrees) of longitude and 8,900,000,000 (69.5 degrees) of latitude either way,
/// and is at most 2^29 (4.19 degrees) wide and high.
#[derive(Clone, Copy, Debug, PartialEq, Eq)]
pub struct Place {
    pub x0: i64,
    pub x1: i64,
    pub y0: i64,
    pub y1: i64,
    ghost x_ordered: { x0 ≤ℤ x1 },
    ghost y_ordered: { y0 ≤ℤ y1 },
    ghost x_not_before: { neg_ℤ (pos 47000000000) ≤ℤ x0 },
    ghost x_not_after: { x1 ≤ℤ pos 47000000000 },
    ghost y_not_before: { neg_ℤ (pos 8900000000) ≤ℤ y0 },
    ghost y_not_after: { y1 ≤ℤ pos 8900000000 },
    ghost x_narrow: { (x1 -ℤ x0) ≤ℤ pos 536870912 },
    ghost y_narrow: { (y1 -ℤ y0) ≤ℤ pos 536870912 },
}

impl Place {
    ghost use Rattle.std.specs.Prelude.{◌≡◌};
    ghost use Rattle.altitude_test.specs.Values.{box_of};

    /// The box from `x0` to `x1` and from `y0` to `y1`.
    pub fn new(x0: i64, x1: i64, y0: i64, y1: i64) -> Place
        requires x_ordered { x0 ≤ℤ x1 }
        requires y_ordered { y0 ≤ℤ y1 }
        requires x_not_before { neg_ℤ (pos 47000000000) ≤ℤ x0 }
        requires x_not_after { x1 ≤ℤ pos 47000000000 }
        requires y_not_before { neg_ℤ (pos 8900000000) ≤ℤ y0 }
        requires y_not_after { y1 ≤ℤ pos 8900000000 }
        requires x_narrow { (x1 -ℤ x0) ≤ℤ pos 536870912 }
        requires y_narrow { (y1 -ℤ y0) ≤ℤ pos 536870912 }
        ensures { box_of result ≡ record { x = record { lo = x0; hi = x1 }; y = record { lo = y0; hi = y1 } } }
    {
        Place { x0, x1, y0, y1 }
    }
}
