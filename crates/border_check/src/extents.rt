ghost use Rattle.std.specs.Prelude.{◌^◌, pos, ◌≤ℤ◌};
ghost use Rattle.plane_edges.specs.Magnitude.{IsWithin};

/// The closed box of the places with longitudes from `x0` to `x1` and latitudes from `y0` to `y1`, in place units
/// (128 to a microdegree). Its ends are within 2^36 either way.
#[derive(Clone, Copy)]
pub(crate) struct Extent {
    pub(crate) x0: i64,
    pub(crate) x1: i64,
    pub(crate) y0: i64,
    pub(crate) y1: i64,
    pub(crate) ghost x_ordered: { x0 ≤ℤ x1 },
    pub(crate) ghost y_ordered: { y0 ≤ℤ y1 },
    pub(crate) ghost x0_within: { IsWithin (pos (2 ^ 36)) x0 },
    pub(crate) ghost x1_within: { IsWithin (pos (2 ^ 36)) x1 },
    pub(crate) ghost y0_within: { IsWithin (pos (2 ^ 36)) y0 },
    pub(crate) ghost y1_within: { IsWithin (pos (2 ^ 36)) y1 },
}
