// A polygon's ring: its positions, and its edges in place units.
ghost use Rattle.std.specs.Prelude.{◌≡◌, ℤ, List, length, slice_get, IsTrue, IsFalse, count_by, ◌<◌, map, ◌++◌, OnOk};
ghost use Rattle.region.specs.Strips.{numbered, kept};
ghost use Rattle.std.specs.List.{list_any};
ghost use Rattle.std.specs.Option.{option_map};
ghost use Rattle.plane_edges.specs.Plane.{is_on, crosses};
ghost use Rattle.region.specs.Rings.{edge_between, edges_from, ring_edges, is_odd};
ghost use Rattle.plane_edges.specs.EdgePoints.{first_point};
ghost use Rattle.ring_survey.specs.Extent.{is_far, is_step, is_compact, is_compact_from};
ghost use Rattle.plane_edges.specs.Views.{place_of, box_of, segment_of};

use crate::keeps::keep_edge;
use plane_edges::{Edge, Point, Rect, Touch, edge_point, edge_touch};
use std::alloc::AllocError;
use std::marker::Model;

/// The positions of a ring, in microdegrees, none of them far and each near the one before it.
#[derive(Drop)]
pub(crate) struct Ring {
    positions: Vec<(i64, i64)>,
}

impl Model for Ring {
    ghost Value = { List (ℤ × ℤ) };

    ghost view = { λ a. a.positions.items };

    ghost invariant = { λ a. IsTrue (is_compact a.positions.items) };
}

// The edge between two positions, in place units.
fn edge_between(p: (i64, i64), q: (i64, i64), polygon: u32) -> Edge
    requires start { IsFalse (is_far p) }
    requires end { IsFalse (is_far q) }
    requires step { IsTrue (is_step p q) }
    ensures segment { segment_of result ≡ edge_between p q }
    ensures polygon { result.polygon ≡ polygon }
{
    Edge {
        xa: 128 * p.0,
        ya: 128 * p.1,
        xb: 128 * q.0,
        yb: 128 * q.1,
        polygon,
    }
}

fn touch_along(first: (i64, i64), rest: &[(i64, i64)], p: &Point) -> Touch
    requires { IsTrue (is_compact_from first rest.now) }
    ensures on { result.on ≡ list_any (is_on (place_of p.now)) (edges_from first rest.now) }
    ensures odd { result.odd ≡ is_odd (count_by (crosses (place_of p.now)) (edges_from first rest.now)) }
{
    let mut seen = Touch {
        on: false,
        odd: false,
    };
    let mut previous = first;
    for next in rest {
        seen = seen.joined(edge_touch(&edge_between(previous, *next, 0), p));
        previous = *next;
    }
    seen
}

fn point_along(first: (i64, i64), rest: &[(i64, i64)], r: &Rect) -> Option<Point>
    requires { IsTrue (is_compact_from first rest.now) }
    ensures { option_map place_of result ≡ first_point (box_of r.now) (edges_from first rest.now) }
{
    let mut previous = first;
    for next in rest {
        if let Some(p) = edge_point(&edge_between(previous, *next, 0), r) {
            return Some(p);
        }
        previous = *next;
    }
    None
}

fn keep_along(
    edges: &mut Vec<Edge>,
    first: (i64, i64),
    rest: &[(i64, i64)],
    polygon: u32,
    low: i64,
    high: i64,
) -> Result<(), AllocError>
    requires { IsTrue (is_compact_from first rest.now) }
    ensures { OnOk result (map numbered edges.new.items
        ≡ map numbered edges.old.items ++ kept polygon low high (edges_from first rest.now)) }
{
    let mut previous = first;
    for next in rest {
        keep_edge(edges, edge_between(previous, *next, polygon), low, high)?;
        previous = *next;
    }
    Ok(())
}

impl Ring {
    pub(crate) fn new(positions: Vec<(i64, i64)>) -> Ring
        requires { IsTrue (is_compact positions.items) }
        ensures { result ≡ positions.items }
    {
        Ring { positions }
    }

    pub(crate) fn len(&self) -> usize
        ensures { result ≡ length self.now }
    {
        self.positions.len()
    }

    pub(crate) fn position(&self, i: usize) -> (i64, i64)
        requires { i < length self.now }
        ensures { slice_get self.now i ≡ Some result }
    {
        self.positions[i]
    }

    /// How the ring's edges stand to a place.
    pub(crate) fn touch(&self, p: &Point) -> Touch
        ensures on { result.on ≡ list_any (is_on (place_of p.now)) (ring_edges self.now) }
        ensures odd { result.odd ≡ is_odd (count_by (crosses (place_of p.now)) (ring_edges self.now)) }
    {
        match self.positions.split_first() {
            Some((first, rest)) => touch_along(*first, rest, p),
            None => Touch {
                on: false,
                odd: false,
            },
        }
    }

    /// Adds the ring's edges that reach the latitudes from `low` to `high`.
    pub(crate) fn keep_edges(
        &self,
        edges: &mut Vec<Edge>,
        polygon: u32,
        low: i64,
        high: i64,
    ) -> Result<(), AllocError>
        ensures { OnOk result (map numbered edges.new.items
            ≡ map numbered edges.old.items ++ kept polygon low high (ring_edges self.now)) }
    {
        match self.positions.split_first() {
            Some((first, rest)) => keep_along(edges, *first, rest, polygon, low, high),
            None => Ok(()),
        }
    }

    /// Where the ring's edges first meet a box.
    pub(crate) fn point_in(&self, r: &Rect) -> Option<Point>
        ensures { option_map place_of result ≡ first_point (box_of r.now) (ring_edges self.now) }
    {
        match self.positions.split_first() {
            Some((first, rest)) => point_along(*first, rest, r),
            None => None,
        }
    }
}
