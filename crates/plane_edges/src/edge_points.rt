// The place where an edge meets a box.
ghost use Rattle.std.specs.Prelude.{◌≡◌, pos, int_lt, int_le, ◌&&◌, ◌||◌};
ghost use Rattle.std.specs.Option.{option_map};
ghost use Rattle.plane_edges.specs.Magnitude.{IsWithin};
ghost use Rattle.plane_edges.specs.EdgePoints.{misses_latitudes, misses_longitudes, at_start, at_longitude, at_latitude, corner, edge_point};
ghost use Rattle.plane_edges.specs.Views.{place_of, box_of, segment_of};

use crate::crossings::passing;
use crate::edges::Edge;
use crate::exact::scaled;
use crate::points::Point;
use crate::rects::Rect;

/// Both ends are less than a number.
pub fn are_below(u: i64, v: i64, z: i64) -> bool
    ensures { result ≡ (int_lt u z && int_lt v z) }
{
    u < z && v < z
}

/// Both ends are greater than a number.
pub fn are_above(u: i64, v: i64, z: i64) -> bool
    ensures { result ≡ (int_lt z u && int_lt z v) }
{
    z < u && z < v
}

// The edge's latitudes are beyond the box's.
fn misses_latitudes(edge: &Edge, r: &Rect) -> bool
    ensures { result ≡ misses_latitudes (box_of r.now) (segment_of edge.now) }
{
    are_below(edge.ya, edge.yb, r.y0) || are_above(edge.ya, edge.yb, r.y1)
}

// The edge's longitudes are beyond the box's.
fn misses_longitudes(edge: &Edge, r: &Rect) -> bool
    ensures { result ≡ misses_longitudes (box_of r.now) (segment_of edge.now) }
{
    are_below(edge.xa, edge.xb, r.x0) || are_above(edge.xa, edge.xb, r.x1)
}

fn is_between(low: i64, z: i64, high: i64) -> bool
    ensures { result ≡ (int_le low z && int_le z high) }
{
    low <= z && z <= high
}

// The edge's start, in the box.
fn at_start(edge: &Edge, r: &Rect) -> Option<Point>
    ensures { option_map place_of result ≡ at_start (box_of r.now) (segment_of edge.now) }
{
    if !is_between(r.x0, edge.xa, r.x1) {
        return None;
    }
    if !is_between(r.y0, edge.ya, r.y1) {
        return None;
    }
    Some(Point {
        a: edge.xa as i128,
        b: edge.ya as i128,
        d: 1,
    })
}

// Where the edge passes the longitude `x` in the box's latitudes.
fn at_longitude(edge: &Edge, r: &Rect, x: i64) -> Option<Point>
    requires { IsWithin (pos 47_000_000_000) x }
    ensures { option_map place_of result ≡ at_longitude (box_of r.now) (segment_of edge.now) x }
{
    match passing(edge.xa, edge.xb, edge.ya, edge.yb, x, r.y0, r.y1) {
        Some(crossing) => Some(Point {
            a: scaled(x, crossing.d),
            b: crossing.value,
            d: crossing.d,
        }),
        None => None,
    }
}

// Where the edge passes the latitude `y` in the box's longitudes.
fn at_latitude(edge: &Edge, r: &Rect, y: i64) -> Option<Point>
    requires { IsWithin (pos 47_000_000_000) y }
    ensures { option_map place_of result ≡ at_latitude (box_of r.now) (segment_of edge.now) y }
{
    match passing(edge.ya, edge.yb, edge.xa, edge.xb, y, r.x0, r.x1) {
        Some(crossing) => Some(Point {
            a: crossing.value,
            b: scaled(y, crossing.d),
            d: crossing.d,
        }),
        None => None,
    }
}

// The edge's start in the box, or where it first passes a side: west, east, south, north.
#[inline(never)]
fn on_a_side(edge: &Edge, r: &Rect) -> Option<Point>
    ensures { option_map place_of result ≡ edge_point (box_of r.now) (segment_of edge.now) }
{
    if let Some(p) = at_start(edge, r) {
        return Some(p);
    }
    if let Some(p) = at_longitude(edge, r, r.x0) {
        return Some(p);
    }
    if let Some(p) = at_longitude(edge, r, r.x1) {
        return Some(p);
    }
    if let Some(p) = at_latitude(edge, r, r.y0) {
        return Some(p);
    }
    at_latitude(edge, r, r.y1)
}

/// A box's corner in the south-west.
#[inline(always)]
pub fn corner(r: &Rect) -> Point
    ensures { place_of result ≡ corner (box_of r.now) }
{
    Point {
        a: r.x0 as i128,
        b: r.y0 as i128,
        d: 1,
    }
}

/// The place where the edge meets the box, if it does. The edge's own box is tested first, in the loop
/// that calls this.
#[inline(always)]
pub fn edge_point(edge: &Edge, r: &Rect) -> Option<Point>
    ensures { option_map place_of result ≡ edge_point (box_of r.now) (segment_of edge.now) }
{
    if misses_latitudes(edge, r) {
        return None;
    }
    if misses_longitudes(edge, r) {
        return None;
    }
    on_a_side(edge, r)
}
