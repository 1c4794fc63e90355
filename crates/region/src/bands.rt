// A district's edges near some latitudes, so that the boxes between them ask no others.
ghost use Rattle.std.specs.Prelude.{◌≡◌, ℤ, ◌≤ℤ◌, List, length, ◌<◌, ◌^◌, IfOk};
ghost use Rattle.std.specs.Option.{option_map};
ghost use Rattle.region.specs.Blocks.{AreBlocksOf};
ghost use Rattle.region.specs.Named.{named};
ghost use Rattle.region.specs.Strips.{BandView, IsBandOf};
ghost use Rattle.plane_edges.specs.Views.{place_of, box_of};

use crate::blocks::{Block, blocks_of};
use crate::polygons::{Polygon, edges_between};
use crate::scans::{any_around, first_in};
use plane_edges::{Edge, Point, Rect, corner};
use std::alloc::{AllocError, Global};
use std::marker::Model;

/// The edges of a district whose closed range of latitudes meets the band's, from `low` to `high` in
/// place units, in the order of polygons, rings and positions.
#[derive(Drop)]
pub struct Band {
    low: i64,
    high: i64,
    edges: Vec<Edge>,
    blocks: Vec<Block>,
}

impl Model for Band {
    ghost Value = { BandView };

    ghost view = { λ b. record { low = b.low; high = b.high; edges = b.edges.items } };

    ghost invariant = { λ b. AreBlocksOf b.blocks.items b.edges.items };
}

/// The band from `low` to `high`.
pub(crate) fn band_of(
    alloc: Global,
    polygons: &[Polygon],
    low: i64,
    high: i64,
) -> Result<Band, AllocError>
    requires { length polygons.now < 2 ^ 32 }
    ensures low { IfOk result (λ band. band.low ≡ low) }
    ensures high { IfOk result (λ band. band.high ≡ high) }
    ensures band { IfOk result (IsBandOf polygons.now) }
{
    let edges = edges_between(alloc, polygons, low, high)?;
    let blocks = blocks_of(alloc, edges.as_slice())?;
    Ok(Band {
        low,
        high,
        edges,
        blocks,
    })
}

impl Band {
    /// The lower end of the band's latitudes, in place units.
    pub(crate) fn low(&self) -> i64
        ensures { result ≡ self.now.low }
    {
        self.low
    }

    /// The band's edges, in the order of polygons, rings and positions.
    pub(crate) fn edges(&self) -> &[Edge]
        ensures { result.now ≡ self.now.edges }
    {
        self.edges.as_slice()
    }

    /// The place that is named for the box, as by the whole district. The box's latitudes lie in the
    /// band's.
    pub fn meets(&self, r: Rect) -> Option<Point>
        requires low { self.now.low ≤ℤ r.y0 }
        requires high { r.y1 ≤ℤ self.now.high }
        ensures { (polygons : List (List (List (ℤ × ℤ)))) → IsBandOf polygons self.now
            → option_map place_of result ≡ named (box_of r) polygons }
    {
        let blocks = self.blocks.as_slice();
        let edges = self.edges.as_slice();
        if let Some(p) = first_in(blocks, edges, &r) {
            return Some(p);
        }
        if any_around(blocks, edges, &r) {
            Some(corner(&r))
        } else {
            None
        }
    }
}
