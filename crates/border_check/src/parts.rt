// The edges of one polygon that meet a box, and the parity at the box's corner.
ghost use Rattle.std.specs.Prelude.{◌≡◌, ℤ, pos, ◌*ℤ◌, map, [], ◌∷◌, ◌++◌, IfOk, OnOk, IsFalse, false};
ghost use Rattle.std.specs.List.{list_any};
ghost use Rattle.ring_survey.specs.Extent.{is_far};
ghost use Rattle.ring_survey.specs.Faults.{is_empty};
ghost use Rattle.plane_edges.specs.EdgePoints.{corner};
ghost use Rattle.plane_edges.specs.Plane.{crosses, xor};
ghost use Rattle.region.specs.Rings.{edge_between, edges_from, ring_edges, polygon_edges};
ghost use Rattle.ring_survey.specs.Vectors.{rings_in};
ghost use Rattle.border_check.specs.Borders.{positions_in};
ghost use Rattle.border_check.specs.Shares.{PartView, near, grown, part_of, part_within, meets};
ghost use Rattle.border_check.specs.Views.{box_of, segment_of};

use crate::edge_tests::{changes, crosses, differ, meets};
use crate::edges::Edge;
use crate::extents::Extent;
use std::alloc::{AllocError, Global};
use std::marker::Model;

/// Edges of one polygon that meet a box, and whether a ray from the box's corner to the east crosses an
/// odd number of all the polygon's edges.
#[derive(Drop)]
pub(crate) struct Part {
    edges: Vec<Edge>,
    odd: bool,
}

impl Model for Part {
    ghost Value = { PartView };

    ghost view = { λ p. record { edges = map segment_of p.edges.items; odd = p.odd } };
}

// Adds the edge, if it meets the box.
fn keep_edge(edges: &mut Vec<Edge>, edge: &Edge, r: &Extent) -> Result<(), AllocError>
    ensures { OnOk result (map segment_of edges.new.items
        ≡ map segment_of edges.old.items ++ near (box_of r.now) (segment_of edge.now ∷ [])) }
{
    if meets(edge, r) {
        edges.push(*edge)?;
    }
    Ok(())
}

// The edge between two positions, in place units.
fn edge_between(p: (i64, i64), q: (i64, i64)) -> Edge
    requires start { IsFalse (is_far p) }
    requires end { IsFalse (is_far q) }
    ensures { segment_of result ≡ edge_between p q }
{
    Edge {
        xa: 128 * p.0,
        ya: 128 * p.1,
        xb: 128 * q.0,
        yb: 128 * q.1,
    }
}

// The edges that meet the inner box, and the parity at its corner.
fn edges_within(
    alloc: Global,
    edges: &[Edge],
    odd: bool,
    outer: &Extent,
    inner: &Extent,
) -> Result<Part, AllocError>
    ensures { IfOk result (λ part. part ≡ part_within (box_of outer.now) (box_of inner.now)
        (record { edges = map segment_of edges.now; odd = odd })) }
{
    let mut near = Vec::new(alloc);
    let mut parity = odd;
    for edge in edges {
        keep_edge(&mut near, edge, inner)?;
        parity = differ(parity, changes(edge, outer, inner.x0, inner.y0));
    }
    Ok(Part {
        edges: near,
        odd: parity,
    })
}

impl Part {
    // Takes one more edge of the polygon.
    fn take(&mut self, edge: &Edge, r: &Extent) -> Result<(), AllocError>
        ensures { OnOk result (self.new
            ≡ grown (meets (box_of r.now)) (crosses (corner (box_of r.now))) self.old (segment_of edge.now ∷ [])) }
    {
        keep_edge(&mut self.edges, edge, r)?;
        self.odd = differ(self.odd, crosses(edge, r.x0, r.y0));
        Ok(())
    }

    // Takes the edges from a position to the next, and so on.
    fn take_along(
        &mut self,
        first: (i64, i64),
        rest: &[(i64, i64)],
        r: &Extent,
    ) -> Result<(), AllocError>
        requires first { IsFalse (is_far first) }
        requires rest { IsFalse (list_any is_far rest.now) }
        ensures { OnOk result (self.new
            ≡ grown (meets (box_of r.now)) (crosses (corner (box_of r.now))) self.old (edges_from first rest.now)) }
    {
        let mut previous = first;
        for next in rest {
            self.take(&edge_between(previous, *next), r)?;
            previous = *next;
        }
        Ok(())
    }

    fn take_ring(&mut self, ring: &[(i64, i64)], r: &Extent) -> Result<(), AllocError>
        requires { IsFalse (list_any is_far ring.now) }
        ensures { OnOk result (self.new
            ≡ grown (meets (box_of r.now)) (crosses (corner (box_of r.now))) self.old (ring_edges ring.now)) }
    {
        match ring.split_first() {
            Some((first, rest)) => self.take_along(*first, rest, r),
            None => Ok(()),
        }
    }

    /// What of a polygon matters in a box. Its positions aren't far.
    pub(crate) fn of_polygon(
        alloc: Global,
        rings: &[Vec<(i64, i64)>],
        r: &Extent,
    ) -> Result<Part, AllocError>
        requires { IsFalse (list_any is_far (positions_in (rings_in rings.now))) }
        ensures { IfOk result (λ part. part ≡ part_of (box_of r.now) (polygon_edges (rings_in rings.now))) }
    {
        let mut part = Part {
            edges: Vec::new(alloc),
            odd: false,
        };
        for ring in rings {
            part.take_ring(ring.as_slice(), r)?;
        }
        Ok(part)
    }

    /// Whether no edge of the polygon meets the box.
    pub(crate) fn is_empty(&self) -> bool
        ensures { result ≡ is_empty self.now.edges }
    {
        self.edges.is_empty()
    }

    pub(crate) fn is_odd(&self) -> bool
        ensures { result ≡ self.now.odd }
    {
        self.odd
    }

    /// The part as a box within the part's own box sees it.
    pub(crate) fn within(
        &self,
        alloc: Global,
        outer: &Extent,
        inner: &Extent,
    ) -> Result<Part, AllocError>
        ensures { IfOk result (λ part. part ≡ part_within (box_of outer.now) (box_of inner.now) self.now) }
    {
        edges_within(alloc, self.edges.as_slice(), self.odd, outer, inner)
    }
}
