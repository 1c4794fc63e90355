ghost use Rattle.std.specs.Prelude.{pos};
ghost use Rattle.plane_edges.specs.Magnitude.{IsWithin};

/// The edge from `(xa, ya)` to `(xb, yb)` of a ring, in place units (128 to a microdegree), however long.
#[derive(Clone, Copy)]
pub(crate) struct Edge {
    pub(crate) xa: i64,
    pub(crate) ya: i64,
    pub(crate) xb: i64,
    pub(crate) yb: i64,
    pub(crate) ghost xa_within: { IsWithin (pos 47_000_000_000) xa },
    pub(crate) ghost ya_within: { IsWithin (pos 47_000_000_000) ya },
    pub(crate) ghost xb_within: { IsWithin (pos 47_000_000_000) xb },
    pub(crate) ghost yb_within: { IsWithin (pos 47_000_000_000) yb },
}
