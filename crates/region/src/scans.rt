// What the edges of blocks say of a box: where they first meet it, and whether they are round its corner.
ghost use Rattle.std.specs.Prelude.{◌≡◌, ◌&&◌, not, map, false, if◌then◌else◌, count_by};
ghost use Rattle.std.specs.List.{All, list_any};
ghost use Rattle.std.specs.Option.{option_map};
ghost use Rattle.plane_edges.specs.Plane.{is_on, crosses, xor};
ghost use Rattle.region.specs.Rings.{is_odd};
ghost use Rattle.plane_edges.specs.EdgePoints.{corner, first_point};
ghost use Rattle.region.specs.Blocks.{IsHeld, AreBlocksOf, cut, first_in_blocks, is_in_some_block};
ghost use Rattle.plane_edges.specs.Views.{place_of, box_of, segment_of};

use crate::blocks::Block;
use plane_edges::{Edge, Point, Rect, Touch, corner, edge_point, edge_touch};

// Where the edges first meet a box.
fn first_of(edges: &[Edge], r: &Rect) -> Option<Point>
    ensures { option_map place_of result ≡ first_point (box_of r.now) (map segment_of edges.now) }
{
    for edge in edges {
        if let Some(p) = edge_point(edge, r) {
            return Some(p);
        }
    }
    None
}

// How the edges stand to a place: round a box's corner no denominator is left.
#[inline(always)]
fn touch_of(edges: &[Edge], p: &Point) -> Touch
    ensures on { result.on ≡ list_any (is_on (place_of p.now)) (map segment_of edges.now) }
    ensures odd { result.odd ≡ is_odd (count_by (crosses (place_of p.now)) (map segment_of edges.now)) }
{
    let mut seen = Touch {
        on: false,
        odd: false,
    };
    for edge in edges {
        seen = seen.joined(edge_touch(edge, p));
    }
    seen
}

// Where a block's edges first meet a box. The block's own box is tested first.
fn block_point(block: &Block, edges: &[Edge], r: &Rect) -> Option<Point>
    requires { All (IsHeld block.now) edges.now }
    ensures { option_map place_of result ≡ first_point (box_of r.now) (map segment_of edges.now) }
{
    if block.misses_latitudes(r) {
        return None;
    }
    if block.misses_longitudes(r) {
        return None;
    }
    first_of(edges, r)
}

// How a block's edges stand to a box's corner. The block's own latitudes are tested first.
fn block_touch(block: &Block, edges: &[Edge], r: &Rect) -> Touch
    requires { All (IsHeld block.now) edges.now }
    ensures on { result.on ≡ list_any (is_on (corner (box_of r.now))) (map segment_of edges.now) }
    ensures odd { result.odd ≡ is_odd (count_by (crosses (corner (box_of r.now))) (map segment_of edges.now)) }
{
    if block.misses_latitudes(r) {
        return Touch {
            on: false,
            odd: false,
        };
    }
    touch_of(edges, &corner(r))
}

// The polygon so far has the place inside, and another one begins.
fn ends_inside(same: bool, odd: bool) -> bool
    ensures { result ≡ (not same && odd) }
{
    !same && odd
}

// The parity with one more block, of the same polygon or of the next.
fn next_odd(same: bool, odd: bool, crossed: bool) -> bool
    ensures { result ≡ (if same then xor odd crossed else crossed) }
{
    if same { odd != crossed } else { crossed }
}

/// Where the edges of the blocks first meet a box.
pub(crate) fn first_in(blocks: &[Block], edges: &[Edge], r: &Rect) -> Option<Point>
    requires { AreBlocksOf blocks.now edges.now }
    ensures { option_map place_of result ≡ first_in_blocks (box_of r.now) (cut blocks.now edges.now) }
{
    let mut left = edges;
    for block in blocks {
        let (own, rest) = left.split_at(block.count);
        if let Some(p) = block_point(block, own, r) {
            return Some(p);
        }
        left = rest;
    }
    None
}

/// Whether a box's corner is in a polygon of which these are the edges that matter to it.
pub(crate) fn any_around(blocks: &[Block], edges: &[Edge], r: &Rect) -> bool
    requires { AreBlocksOf blocks.now edges.now }
    ensures { result ≡ is_in_some_block (corner (box_of r.now)) 0 false (cut blocks.now edges.now) }
{
    let mut left = edges;
    let mut polygon = 0;
    let mut odd = false;
    for block in blocks {
        let (own, rest) = left.split_at(block.count);
        let same = block.polygon == polygon;
        if ends_inside(same, odd) {
            return true;
        }
        let touch = block_touch(block, own, r);
        if touch.on {
            return true;
        }
        odd = next_odd(same, odd, touch.odd);
        polygon = block.polygon;
        left = rest;
    }
    odd
}
