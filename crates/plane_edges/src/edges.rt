// Edges of rings.
ghost use Rattle.std.specs.Prelude.{◌^◌, pos, ◌-ℤ◌};
ghost use Rattle.plane_edges.specs.Magnitude.{IsWithin};

/// The edge from `(xa, ya)` to `(xb, yb)` of a polygon's ring, in place units (128 to a microdegree),
/// with the polygon's number in its district. It spans at most 2^29 place units each way.
#[derive(Clone, Copy, Debug, PartialEq, Eq)]
pub struct Edge {
    pub xa: i64,
    pub ya: i64,
    pub xb: i64,
    pub yb: i64,
    pub polygon: u32,
    pub ghost xa_within: { IsWithin (pos 47_000_000_000) xa },
    pub ghost ya_within: { IsWithin (pos 47_000_000_000) ya },
    pub ghost xb_within: { IsWithin (pos 47_000_000_000) xb },
    pub ghost yb_within: { IsWithin (pos 47_000_000_000) yb },
    pub ghost x_span: { IsWithin (pos (2 ^ 29)) (xb -ℤ xa) },
    pub ghost y_span: { IsWithin (pos (2 ^ 29)) (yb -ℤ ya) },
}
