// How an edge stands to a box, and to the way from the box's corner to a place.
ghost use Rattle.std.specs.Prelude.{◌≡◌, ◌^◌, ◌≤ℤ◌, ◌-ℤ◌, ◌*ℤ◌, pos, int_lt, not, ◌&&◌, ◌||◌, if◌then◌else◌};
ghost use Rattle.plane_edges.specs.Magnitude.{IsWithin};
ghost use Rattle.plane_edges.specs.Plane.{orientation, is_above, crosses, xor};
ghost use Rattle.plane_edges.specs.EdgePoints.{misses_latitudes, misses_longitudes};
ghost use Rattle.border_check.specs.Shares.{meets, is_passed, changes};
ghost use Rattle.border_check.specs.Sides.{whole, all_left, all_right};
ghost use Rattle.border_check.specs.Views.{box_of, segment_of};

use crate::edges::Edge;
use crate::extents::Extent;
use region::{are_above, are_below};

/// Exactly one of two tests holds.
pub(crate) fn differ(a: bool, b: bool) -> bool
    ensures { result ≡ xor a b }
{
    a != b
}

fn either(a: bool, b: bool) -> bool
    ensures { result ≡ (a || b) }
{
    a || b
}

// The edge's latitudes are beyond the box's.
fn misses_latitudes(edge: &Edge, r: &Extent) -> bool
    ensures { result ≡ misses_latitudes (box_of r.now) (segment_of edge.now) }
{
    are_below(edge.ya, edge.yb, r.y0) || are_above(edge.ya, edge.yb, r.y1)
}

// The edge's longitudes are beyond the box's.
fn misses_longitudes(edge: &Edge, r: &Extent) -> bool
    ensures { result ≡ misses_longitudes (box_of r.now) (segment_of edge.now) }
{
    are_below(edge.xa, edge.xb, r.x0) || are_above(edge.xa, edge.xb, r.x1)
}

// How far an edge goes in one coordinate.
fn span(from: i64, to: i64) -> i64
    requires from_within { IsWithin (pos 47_000_000_000) from }
    requires to_within { IsWithin (pos 47_000_000_000) to }
    ensures value { result ≡ to -ℤ from }
    ensures within { IsWithin (pos (2 ^ 37)) result }
{
    to - from
}

// How far a place is beyond an edge's start in one coordinate.
fn gap(from: i64, to: i64) -> i64
    requires from_within { IsWithin (pos 47_000_000_000) from }
    requires to_within { IsWithin (pos (2 ^ 36)) to }
    ensures value { result ≡ to -ℤ from *ℤ pos 1 }
    ensures within { IsWithin (pos (2 ^ 37)) result }
{
    to - from
}

// The product of a span and a gap.
fn area(span: i64, gap: i64) -> i128
    requires span { IsWithin (pos (2 ^ 37)) span }
    requires gap { IsWithin (pos (2 ^ 37)) gap }
    ensures value { result ≡ span *ℤ gap }
    ensures within { IsWithin (pos (2 ^ 74)) result }
{
    span as i128 * gap as i128
}

// The difference of two such products.
fn turn(first: i128, second: i128) -> i128
    requires first { IsWithin (pos (2 ^ 74)) first }
    requires second { IsWithin (pos (2 ^ 74)) second }
    ensures { result ≡ first -ℤ second }
{
    first - second
}

// Above 0 where the place is on the edge's left, below 0 on its right.
fn side_at(edge: &Edge, x: i64, y: i64) -> i128
    requires x_within { IsWithin (pos (2 ^ 36)) x }
    requires y_within { IsWithin (pos (2 ^ 36)) y }
    ensures { result ≡ orientation (segment_of edge.now) (whole x y) }
{
    let rise = area(span(edge.xa, edge.xb), gap(edge.ya, y));
    let run = area(span(edge.ya, edge.yb), gap(edge.xa, x));
    turn(rise, run)
}

fn are_positive(a: i128, b: i128, c: i128, d: i128) -> bool
    ensures { result ≡ (int_lt (pos 0) a && (int_lt (pos 0) b && (int_lt (pos 0) c && int_lt (pos 0) d))) }
{
    a > 0 && b > 0 && c > 0 && d > 0
}

fn are_negative(a: i128, b: i128, c: i128, d: i128) -> bool
    ensures { result ≡ (int_lt a (pos 0) && (int_lt b (pos 0) && (int_lt c (pos 0) && int_lt d (pos 0)))) }
{
    a < 0 && b < 0 && c < 0 && d < 0
}

// All four corners of the box are strictly on one side of the edge's line.
fn has_aside(edge: &Edge, r: &Extent) -> bool
    ensures { result ≡ (all_left (box_of r.now) (segment_of edge.now) || all_right (box_of r.now) (segment_of edge.now)) }
{
    let south_west = side_at(edge, r.x0, r.y0);
    let south_east = side_at(edge, r.x1, r.y0);
    let north_west = side_at(edge, r.x0, r.y1);
    let north_east = side_at(edge, r.x1, r.y1);
    either(
        are_positive(south_west, south_east, north_west, north_east),
        are_negative(south_west, south_east, north_west, north_east),
    )
}

/// Whether some place of the edge is in the box. The edge's own box is tested first.
pub(crate) fn meets(edge: &Edge, r: &Extent) -> bool
    ensures { result ≡ meets (box_of r.now) (segment_of edge.now) }
{
    if misses_latitudes(edge, r) {
        return false;
    }
    if misses_longitudes(edge, r) {
        return false;
    }
    !has_aside(edge, r)
}

// The edge goes from one side of a latitude to the other, the place on its left or on its right.
fn is_crossed(from_above: bool, to_above: bool, turn: i128) -> bool
    ensures { result ≡ (if to_above
        then (not from_above && int_lt (pos 0) turn)
        else (from_above && int_lt turn (pos 0))) }
{
    if to_above {
        !from_above && turn > 0
    } else {
        from_above && turn < 0
    }
}

fn lies_above(y: i64, place: i64) -> bool
    ensures { result ≡ int_lt place (y *ℤ pos 1) }
{
    place < y
}

/// Whether a ray from the place to the east crosses the edge.
pub(crate) fn crosses(edge: &Edge, x: i64, y: i64) -> bool
    requires x_within { IsWithin (pos (2 ^ 36)) x }
    requires y_within { IsWithin (pos (2 ^ 36)) y }
    ensures { result ≡ crosses (whole x y) (segment_of edge.now) }
{
    let from_above = lies_above(edge.ya, y);
    let to_above = lies_above(edge.yb, y);
    if from_above == to_above {
        return false;
    }
    is_crossed(from_above, to_above, side_at(edge, x, y))
}

fn lies_between(east: bool, above_corner: bool, above_place: bool) -> bool
    ensures { result ≡ (east && (above_corner && not above_place)) }
{
    east && above_corner && !above_place
}

// An end of an edge is between the latitudes of the box's corner and of a place, east of the corner.
fn is_passed(r: &Extent, y: i64, end: (i64, i64)) -> bool
    ensures { result ≡ (int_lt r.now.x0 end.0 && (int_lt r.now.y0 (end.1 *ℤ pos 1) && not (int_lt y (end.1 *ℤ pos 1)))) }
{
    lies_between(r.x0 < end.0, lies_above(end.1, r.y0), lies_above(end.1, y))
}

/// Whether the edge changes the parity on the way from the box's corner to the place.
pub(crate) fn changes(edge: &Edge, r: &Extent, x: i64, y: i64) -> bool
    requires x_within { IsWithin (pos (2 ^ 36)) x }
    requires y_within { IsWithin (pos (2 ^ 36)) y }
    ensures { result ≡ changes (box_of r.now) (whole x y) (segment_of edge.now) }
{
    let crossed = differ(crosses(edge, x, y), crosses(edge, r.x0, r.y0));
    let start = is_passed(r, y, (edge.xa, edge.ya));
    let end = is_passed(r, y, (edge.xb, edge.yb));
    differ(crossed, differ(start, end))
}
