// A district's edges in strips of latitude, so that a small box asks only those near it.
ghost use Rattle.std.specs.Prelude.{◌≡◌, ℤ, pos, ◌≤ℤ◌, ◌<◌, List, length, slice_get, ◌^◌, ◌+ℤ◌, ◌*◌, IfOk, Some};
ghost use Rattle.plane_edges.specs.Magnitude.{IsWithin};
ghost use Rattle.std.specs.Option.{option_map};
ghost use Rattle.region.specs.Named.{named};
ghost use Rattle.region.specs.Strips.{StripView, IsStripOf, AreStripsOf, top_of};
ghost use Rattle.plane_edges.specs.Views.{place_of, box_of};

use crate::bands::{Band, band_of};
use crate::polygons::Polygon;
use plane_edges::{Edge, Point, Rect};
use std::alloc::{AllocError, Global};
use std::marker::Model;

/// A strip's height, 2^23 place units.
const HEIGHT: i64 = 8_388_608;

/// The edges of a district whose closed range of latitudes meets the strip's, which is 2^23 place
/// units high, in the order of polygons, rings and positions.
#[derive(Drop)]
pub struct Strip {
    band: Band,
}

impl Model for Strip {
    ghost Value = { StripView };

    ghost view = { λ s. record { low = s.band.low; edges = s.band.edges } };

    ghost invariant = { λ s. s.band.high ≡ top_of s.band.low };
}

impl Strip {
    /// The lower end of the strip's latitudes, in place units.
    pub fn low(&self) -> i64
        ensures { result ≡ self.now.low }
    {
        self.band.low()
    }

    pub fn edge_count(&self) -> usize
        ensures { result ≡ length self.now.edges }
    {
        self.band.edges().len()
    }

    pub fn edge(&self, i: usize) -> Edge
        requires { i < length self.now.edges }
        ensures { slice_get self.now.edges i ≡ Some result }
    {
        self.band.edges()[i]
    }

    /// The place that is named for the box, as by the whole district. The box's latitudes lie in the
    /// strip's.
    pub fn meets(&self, r: Rect) -> Option<Point>
        requires low { self.now.low ≤ℤ r.y0 }
        requires high { r.y1 ≤ℤ top_of self.now.low }
        ensures { (polygons : List (List (List (ℤ × ℤ)))) → IsStripOf polygons self.now
            → option_map place_of result ≡ named (box_of r) polygons }
    {
        self.band.meets(r)
    }
}

/// The 64 strips of a root's height, one on another.
#[derive(Drop)]
pub struct Strips {
    strips: Vec<Strip>,
}

impl Model for Strips {
    ghost Value = { List StripView };

    ghost view = { λ s. s.strips.items };

    ghost invariant = { λ s. length s.strips.items ≡ 64 };
}

impl Strips {
    /// The strip of this number, from the south.
    pub fn strip(&self, i: u32) -> &Strip
        requires { i < 64 }
        ensures { slice_get self.now i ≡ Some result.now }
    {
        &self.strips[i as usize]
    }
}

// The upper end of the strip that begins at `low`.
fn top_of(low: i64) -> i64
    requires { IsWithin (pos 47_000_000_000) low }
    ensures { result ≡ top_of low }
{
    low + HEIGHT
}

// The strip that begins at `low`.
fn strip_of(alloc: Global, polygons: &[Polygon], low: i64) -> Result<Strip, AllocError>
    requires few { length polygons.now < 2 ^ 32 }
    requires low { IsWithin (pos 47_000_000_000) low }
    ensures { IfOk result (λ strip. (strip.low ≡ low) × IsStripOf polygons.now strip) }
{
    let band = band_of(alloc, polygons, low, top_of(low))?;
    Ok(Strip { band })
}

// The lower end of the strip of this number.
fn low_at(south: i64, i: u32) -> i64
    requires south { IsWithin (pos 8_320_000_000) south }
    requires number { i < 64 }
    ensures value { result ≡ south +ℤ pos (i * 2 ^ 23) }
    ensures within { IsWithin (pos 47_000_000_000) result }
{
    south + i64::from(i) * 8_388_608
}

/// The strips from the latitude `south` on.
pub(crate) fn strips_of(
    alloc: Global,
    polygons: &[Polygon],
    south: i64,
) -> Result<Strips, AllocError>
    requires few { length polygons.now < 2 ^ 32 }
    requires south { IsWithin (pos 8_320_000_000) south }
    ensures { IfOk result (λ strips. AreStripsOf polygons.now south strips) }
{
    let mut strips = Vec::new(alloc);
    for i in 0..64u32 {
        strips.push(strip_of(alloc, polygons, low_at(south, i))?)?;
    }
    Ok(Strips { strips })
}
