// Boxes of places.
ghost use Rattle.std.specs.Prelude.{◌≡◌, pos, ◌≤ℤ◌};
ghost use Rattle.plane_edges.specs.Magnitude.{IsWithin};

/// The closed box of the places with longitudes from `x0` to `x1` and latitudes from `y0` to `y1`,
/// in place units (128 to a microdegree). Its ends are within 47,000,000,000 either way.
#[derive(Clone, Copy, Debug, PartialEq, Eq)]
pub struct Rect {
    pub x0: i64,
    pub x1: i64,
    pub y0: i64,
    pub y1: i64,
    pub ghost x_ordered: { x0 ≤ℤ x1 },
    pub ghost y_ordered: { y0 ≤ℤ y1 },
    pub ghost x0_within: { IsWithin (pos 47_000_000_000) x0 },
    pub ghost x1_within: { IsWithin (pos 47_000_000_000) x1 },
    pub ghost y0_within: { IsWithin (pos 47_000_000_000) y0 },
    pub ghost y1_within: { IsWithin (pos 47_000_000_000) y1 },
}

impl Rect {
    /// The box from `x0` to `x1` and from `y0` to `y1`.
    pub fn new(x0: i64, x1: i64, y0: i64, y1: i64) -> Rect
        requires x_ordered { x0 ≤ℤ x1 }
        requires y_ordered { y0 ≤ℤ y1 }
        requires x0_within { IsWithin (pos 47_000_000_000) x0 }
        requires x1_within { IsWithin (pos 47_000_000_000) x1 }
        requires y0_within { IsWithin (pos 47_000_000_000) y0 }
        requires y1_within { IsWithin (pos 47_000_000_000) y1 }
        ensures x0 { result.x0 ≡ x0 }
        ensures x1 { result.x1 ≡ x1 }
        ensures y0 { result.y0 ≡ y0 }
        ensures y1 { result.y1 ≡ y1 }
    {
        Rect { x0, x1, y0, y1 }
    }
}
