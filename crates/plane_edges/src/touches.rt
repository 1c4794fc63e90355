// How an edge stands to a place: the place on it, and whether a ray to the east crosses it.
ghost use Rattle.std.specs.Prelude.{◌≡◌, pos, ◌*ℤ◌, ◌&&◌, ◌||◌, not, int_lt, if◌then◌else◌};
ghost use Rattle.std.specs.Ordering.{int_eq};
ghost use Rattle.plane_edges.specs.Plane.{orientation, is_on, is_above, crosses, encloses, xor};
ghost use Rattle.plane_edges.specs.Views.{place_of, segment_of};

use crate::edges::Edge;
use crate::exact::{are_above, are_below, area, cross, gap, scaled, span};
use crate::points::Point;

/// The place is on an edge, and a ray from it to the east crosses an odd number of edges.
#[derive(Clone, Copy, Debug, PartialEq, Eq)]
pub struct Touch {
    pub on: bool,
    pub odd: bool,
}

impl Touch {
    /// What holds of two lists of edges, one after the other.
    pub fn joined(self, other: Touch) -> Touch
        ensures on { result.on ≡ (self.on || other.on) }
        ensures odd { result.odd ≡ xor self.odd other.odd }
    {
        Touch {
            on: self.on || other.on,
            odd: self.odd != other.odd,
        }
    }
}

// Two ends enclose a number, in either order.
fn encloses(u: i128, v: i128, z: i128) -> bool
    ensures { result ≡ encloses u v z }
{
    (u <= z && z <= v) || (v <= z && z <= u)
}

// Above 0 where the place is on the edge's left, below 0 on its right.
fn orientation(edge: &Edge, p: &Point) -> i128
    ensures { result ≡ orientation (segment_of edge.now) (place_of p.now) }
{
    let rise = area(span(edge.xa, edge.xb), gap(scaled(edge.ya, p.d), p.b));
    let run = area(span(edge.ya, edge.yb), gap(scaled(edge.xa, p.d), p.a));
    cross(rise, run)
}

// The edge's latitudes are beyond the place.
fn misses_latitude(edge: &Edge, p: &Point) -> bool
    ensures { result ≡ not (encloses (edge.now.ya *ℤ p.now.d) (edge.now.yb *ℤ p.now.d) p.now.b) }
{
    !encloses(scaled(edge.ya, p.d), scaled(edge.yb, p.d), p.b)
}

// Both ends of the edge are west of the place.
fn lies_west(edge: &Edge, p: &Point) -> bool
    ensures { result ≡ (int_lt (edge.now.xa *ℤ p.now.d) p.now.a && int_lt (edge.now.xb *ℤ p.now.d) p.now.a) }
{
    are_below(scaled(edge.xa, p.d), scaled(edge.xb, p.d), p.a)
}

// Both ends of the edge are east of the place.
fn lies_east(edge: &Edge, p: &Point) -> bool
    ensures { result ≡ (int_lt p.now.a (edge.now.xa *ℤ p.now.d) && int_lt p.now.a (edge.now.xb *ℤ p.now.d)) }
{
    are_above(scaled(edge.xa, p.d), scaled(edge.xb, p.d), p.a)
}

// The edge's start is above the place.
fn starts_above(edge: &Edge, p: &Point) -> bool
    ensures { result ≡ is_above (place_of p.now) edge.now.ya }
{
    p.b < scaled(edge.ya, p.d)
}

// The edge's end is above the place.
fn ends_above(edge: &Edge, p: &Point) -> bool
    ensures { result ≡ is_above (place_of p.now) edge.now.yb }
{
    p.b < scaled(edge.yb, p.d)
}

fn is_zero(z: i128) -> bool
    ensures { result ≡ int_eq z (pos 0) }
{
    z == 0
}

// A ray to the east crosses an edge that goes from one side of the place's latitude to the other, the
// place on its left or right.
fn is_crossed(from_above: bool, to_above: bool, turn: i128) -> bool
    ensures { result ≡ (if to_above
        then (not from_above && int_lt (pos 0) turn)
        else (from_above && int_lt turn (pos 0))) }
{
    if to_above {
        !from_above && turn > 0
    } else {
        from_above && turn < 0
    }
}

/// How one edge stands to the place. The edge's own box is tested first.
#[inline(always)]
pub fn edge_touch(edge: &Edge, p: &Point) -> Touch
    ensures on { result.on ≡ is_on (place_of p.now) (segment_of edge.now) }
    ensures odd { result.odd ≡ crosses (place_of p.now) (segment_of edge.now) }
{
    if misses_latitude(edge, p) {
        return Touch {
            on: false,
            odd: false,
        };
    }
    if lies_west(edge, p) {
        return Touch {
            on: false,
            odd: false,
        };
    }
    let from_above = starts_above(edge, p);
    let to_above = ends_above(edge, p);
    if lies_east(edge, p) {
        return Touch {
            on: false,
            odd: from_above != to_above,
        };
    }
    let turn = orientation(edge, p);
    Touch {
        on: is_zero(turn),
        odd: is_crossed(from_above, to_above, turn),
    }
}
