// A polygon: its rings together, by the even-odd rule.
ghost use Rattle.std.specs.Prelude.{◌≡◌, ℤ, List, length, slice_get, count_by, ◌<◌, ◌^◌, map, ◌++◌, IfOk, OnOk};
ghost use Rattle.region.specs.Strips.{edges_between, numbered, kept};
ghost use Rattle.std.specs.List.{list_any, flat_map};
ghost use Rattle.std.specs.Option.{option_map};
ghost use Rattle.plane_edges.specs.Plane.{is_on, crosses};
ghost use Rattle.region.specs.Rings.{polygon_edges, is_odd, is_in_polygon, is_in_district};
ghost use Rattle.plane_edges.specs.EdgePoints.{first_point};
ghost use Rattle.plane_edges.specs.Views.{place_of, box_of};

use crate::rings::Ring;
use plane_edges::{Edge, Point, Rect, Touch};
use std::alloc::{AllocError, Global};
use std::marker::Model;

/// The rings of a polygon, the outer one and its holes.
#[derive(Drop)]
pub(crate) struct Polygon {
    rings: Vec<Ring>,
}

impl Model for Polygon {
    ghost Value = { List (List (ℤ × ℤ)) };

    ghost view = { λ a. a.rings.items };
}

fn rings_touch(rings: &[Ring], p: &Point) -> Touch
    ensures on { result.on ≡ list_any (is_on (place_of p.now)) (polygon_edges rings.now) }
    ensures odd { result.odd ≡ is_odd (count_by (crosses (place_of p.now)) (polygon_edges rings.now)) }
{
    let mut seen = Touch {
        on: false,
        odd: false,
    };
    for ring in rings {
        seen = seen.joined(ring.touch(p));
    }
    seen
}

fn rings_point(rings: &[Ring], r: &Rect) -> Option<Point>
    ensures { option_map place_of result ≡ first_point (box_of r.now) (polygon_edges rings.now) }
{
    for ring in rings {
        if let Some(p) = ring.point_in(r) {
            return Some(p);
        }
    }
    None
}

fn keep_rings(
    edges: &mut Vec<Edge>,
    rings: &[Ring],
    polygon: u32,
    low: i64,
    high: i64,
) -> Result<(), AllocError>
    ensures { OnOk result (map numbered edges.new.items
        ≡ map numbered edges.old.items ++ kept polygon low high (polygon_edges rings.now)) }
{
    for ring in rings {
        ring.keep_edges(edges, polygon, low, high)?;
    }
    Ok(())
}

impl Polygon {
    pub(crate) fn new(rings: Vec<Ring>) -> Polygon
        ensures { result ≡ rings.items }
    {
        Polygon { rings }
    }

    pub(crate) fn ring_count(&self) -> usize
        ensures { result ≡ length self.now }
    {
        self.rings.len()
    }

    pub(crate) fn ring(&self, i: usize) -> &Ring
        requires { i < length self.now }
        ensures { slice_get self.now i ≡ Some result.now }
    {
        &self.rings[i]
    }

    pub(crate) fn contains(&self, p: &Point) -> bool
        ensures { result ≡ is_in_polygon (place_of p.now) self.now }
    {
        let touch = rings_touch(self.rings.as_slice(), p);
        touch.on || touch.odd
    }

    /// Adds the polygon's edges that reach the latitudes from `low` to `high`.
    pub(crate) fn keep_edges(
        &self,
        edges: &mut Vec<Edge>,
        polygon: u32,
        low: i64,
        high: i64,
    ) -> Result<(), AllocError>
        ensures { OnOk result (map numbered edges.new.items
            ≡ map numbered edges.old.items ++ kept polygon low high (polygon_edges self.now)) }
    {
        keep_rings(edges, self.rings.as_slice(), polygon, low, high)
    }

    pub(crate) fn point_in(&self, r: &Rect) -> Option<Point>
        ensures { option_map place_of result ≡ first_point (box_of r.now) (polygon_edges self.now) }
    {
        rings_point(self.rings.as_slice(), r)
    }
}

/// Whether one of the polygons contains the place.
pub(crate) fn any_contains(polygons: &[Polygon], p: &Point) -> bool
    ensures { result ≡ is_in_district (place_of p.now) polygons.now }
{
    for polygon in polygons {
        if polygon.contains(p) {
            return true;
        }
    }
    false
}

/// Where the polygons' edges first meet a box.
pub(crate) fn first_point(polygons: &[Polygon], r: &Rect) -> Option<Point>
    ensures { option_map place_of result ≡ first_point (box_of r.now) (flat_map polygon_edges polygons.now) }
{
    for polygon in polygons {
        if let Some(p) = polygon.point_in(r) {
            return Some(p);
        }
    }
    None
}

/// The polygons' edges that reach the latitudes from `low` to `high`.
pub(crate) fn edges_between(
    alloc: Global,
    polygons: &[Polygon],
    low: i64,
    high: i64,
) -> Result<Vec<Edge>, AllocError>
    requires { length polygons.now < 2 ^ 32 }
    ensures { IfOk result (λ edges. map numbered edges.items ≡ edges_between low high polygons.now) }
{
    let mut edges = Vec::new(alloc);
    let mut number = 0;
    for polygon in polygons {
        polygon.keep_edges(&mut edges, number, low, high)?;
        number += 1;
    }
    Ok(edges)
}
