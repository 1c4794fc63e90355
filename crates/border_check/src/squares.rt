// Squares of places, and their quarters.
ghost use Rattle.std.specs.Prelude.{◌≡◌, ◌≤◌, ◌<◌, ◌^◌, ◌≤ℤ◌, ◌+ℤ◌, if◌then◌else◌, neg_ℤ, pos};
ghost use Rattle.border_check.specs.Squares.{IsNear, box_in, quarter, root};
ghost use Rattle.border_check.specs.Views.{box_of};

use crate::extents::Extent;

/// The closed square of the places with the south-west corner (`x`, `y`) and the side `2^size`, in place
/// units (128 to a microdegree). Any numbers make one.
#[derive(Clone, Copy, Debug, PartialEq, Eq)]
pub struct Square {
    pub x: i64,
    pub y: i64,
    pub size: u8,
}

/// The root of all squares: it holds each place whose longitude is within 360 degrees, and more.
pub fn root() -> Square
    ensures value { result ≡ root }
    ensures near { IsNear result }
{
    Square {
        x: -68_719_476_736,
        y: -68_719_476_736,
        size: 37,
    }
}

// The side of a square of this size, in place units.
fn side_of(size: u8) -> i64
    requires { size ≤ 37 }
    ensures value { result ≡ pos (2 ^ size) }
    ensures bound { result ≤ℤ pos (2 ^ 37) }
{
    (1u64 << size) as i64
}

/// The square's box.
pub(crate) fn extent_of(s: &Square) -> Extent
    requires { IsNear s.now }
    ensures { box_of result ≡ box_in s.now }
{
    let side = side_of(s.size);
    Extent {
        x0: s.x,
        x1: s.x + side,
        y0: s.y,
        y1: s.y + side,
    }
}

// Where a half of a range begins: the first one, or the second.
fn start_of(from: i64, half: i64, far: bool) -> i64
    requires from_not_low { neg_ℤ (pos (2 ^ 36)) ≤ℤ from }
    requires half_not_low { pos 0 ≤ℤ half }
    requires half_not_high { (from +ℤ half) ≤ℤ pos (2 ^ 36) }
    ensures { result ≡ (if far then from +ℤ half else from) }
{
    if far { from + half } else { from }
}

/// One of the square's quarters.
pub(crate) fn quarter(s: &Square, east: bool, north: bool) -> Square
    requires near { IsNear s.now }
    requires large { 0 < s.now.size }
    ensures value { result ≡ quarter s.now east north }
    ensures near { IsNear result }
{
    let half = side_of(s.size - 1);
    Square {
        x: start_of(s.x, half, east),
        y: start_of(s.y, half, north),
        size: s.size - 1,
    }
}
