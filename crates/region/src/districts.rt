// Districts of polygons, and the places and boxes that meet them.
ghost use Rattle.std.specs.Prelude.{◌≡◌, ℤ, List, length, slice_get, slice_index_or, [], ◌<◌, IsTrue, IsFalse, IfSome, IfNone, IfOk, IfErr, OnOk, ◌⊎◌, pos, Some, None};
ghost use Rattle.std.specs.List.{list_all};
ghost use Rattle.std.specs.Option.{option_map};
ghost use Rattle.plane_edges.specs.Magnitude.{IsWithin};
ghost use Rattle.region.specs.Strips.{AreStripsOf, IsBandOf};
ghost use Rattle.plane_edges.specs.Plane.{Place, IsIn};
ghost use Rattle.region.specs.Rings.{is_in_district};
ghost use Rattle.region.specs.Named.{named};
ghost use Rattle.ring_survey.specs.Extent.{longitudes, latitudes, positions_of, least, greatest, is_compact};
ghost use Rattle.ring_survey.specs.Faults.{first_fault, IsSurveyed};
ghost use Rattle.ring_survey.specs.Vectors.{rings_in, polygons_in};
ghost use Rattle.plane_edges.specs.Views.{place_of, box_of};

use crate::bands::{Band, band_of};
use crate::polygons::{Polygon, any_contains, first_point};
use crate::rings::Ring;
use crate::strips::{Strips, strips_of};
use no_memory::NoMemory;
use plane_edges::{Point, Rect, corner};
use ring_survey::{RegionFault, RingList, survey_of};
use std::alloc::{AllocError, Global};
use std::marker::Model;

/// A district of polygons. A place is in a polygon if it lies on an edge of one of its rings, or if a
/// ray from it to the east crosses the edges of all its rings together an odd number of times; it is
/// in the district if it is in some polygon.
///
/// A clause sees a district as a list of polygons, each a list of rings, each a list of positions
/// (longitude, latitude) in microdegrees.
#[derive(Drop)]
pub struct District {
    polygons: Vec<Polygon>,
    west: i64,
    east: i64,
    south: i64,
    north: i64,
    positions: u32,
}

impl Model for District {
    ghost Value = { List (List (List (ℤ × ℤ))) };

    ghost view = { λ d. d.polygons.items };

    ghost invariant = { λ d. IsSurveyed d.polygons.items d.west d.east d.south d.north d.positions };
}

// The rings, each with its one list of positions.
fn ring_list(alloc: Global, rings: RingList) -> Result<Vec<Ring>, AllocError>
    requires { IsTrue (list_all is_compact (rings_in rings.items)) }
    ensures { IfOk result (λ list. list.items ≡ rings_in rings.items) }
{
    let mut list = Vec::new(alloc);
    for ring in rings {
        list.push(Ring::new(ring))?;
    }
    Ok(list)
}

fn polygon_list(alloc: Global, polygons: Vec<RingList>) -> Result<Vec<Polygon>, AllocError>
    requires { IsTrue (list_all (list_all is_compact) (polygons_in polygons.items)) }
    ensures { IfOk result (λ list. list.items ≡ polygons_in polygons.items) }
{
    let mut list = Vec::new(alloc);
    for rings in polygons {
        list.push(Polygon::new(ring_list(alloc, rings)?))?;
    }
    Ok(list)
}

impl District {
    /// The district of these polygons, each a list of rings, each a list of positions (longitude,
    /// latitude) in microdegrees. The first fault, in this order: no polygon or ring, too many
    /// positions, the first ring that is short or open, too far, too wide.
    pub fn new(alloc: Global, polygons: Vec<RingList>) -> Result<District, RegionFault>
        ensures ok { IfOk result (λ district. district ≡ polygons_in polygons.items) }
        ensures sound { OnOk result (first_fault (polygons_in polygons.items) ≡ None) }
        ensures fault { IfErr result (λ fault. (fault ≡ RegionFault.NoMemory) ⊎ (first_fault (polygons_in polygons.items) ≡ Some fault)) }
    {
        let survey = match survey_of(polygons.as_slice()) {
            Ok(survey) => survey,
            Err(fault) => return Err(fault),
        };
        let polygons = match polygon_list(alloc, polygons) {
            Ok(list) => list,
            Err(_) => return Err(RegionFault::NoMemory),
        };
        Ok(District {
            polygons,
            west: survey.west,
            east: survey.east,
            south: survey.south,
            north: survey.north,
            positions: survey.positions,
        })
    }

    /// Every district keeps the rule of its type, however it was made: its polygons have no fault.
    /// The call does nothing.
    pub fn has_no_fault(&self)
        ensures { first_fault self.now ≡ None }
    {
        let _kept = self.positions;
    }

    /// Whether the place is in the district.
    pub fn contains(&self, p: Point) -> bool
        ensures { result ≡ is_in_district (place_of p) self.now }
    {
        any_contains(self.polygons.as_slice(), &p)
    }

    /// The place that is named for the box: where the district's border first meets it, or else its
    /// corner in the south-west, if that is in the district.
    /// None exactly where no rational place of the box is in the district.
    pub fn meets(&self, r: Rect) -> Option<Point>
        ensures named { option_map place_of result ≡ named (box_of r) self.now }
        ensures some { IfSome result (λ p. IsIn (box_of r) (place_of p) × IsTrue (is_in_district (place_of p) self.now)) }
        ensures none { IfNone result ((p : Place) → IsIn (box_of r) p → IsFalse (is_in_district p self.now)) }
    {
        if let Some(p) = first_point(self.polygons.as_slice(), &r) {
            return Some(p);
        }
        let corner = corner(&r);
        if any_contains(self.polygons.as_slice(), &corner) {
            Some(corner)
        } else {
            None
        }
    }

    /// The district's edges in 64 strips of latitude, each 2^23 place units high, the first from
    /// `south` on. The latitude `south` is within 8,320,000,000 place units either way.
    pub fn strips(&self, alloc: Global, south: i64) -> Result<Strips, NoMemory>
        requires { IsWithin (pos 8_320_000_000) south }
        ensures { IfOk result (λ strips. AreStripsOf self.now south strips) }
    {
        match strips_of(alloc, self.polygons.as_slice(), south) {
            Ok(strips) => Ok(strips),
            Err(_) => Err(NoMemory),
        }
    }

    /// The district's edges that reach the latitudes from `low` to `high`, in place units.
    pub fn band(&self, alloc: Global, low: i64, high: i64) -> Result<Band, NoMemory>
        ensures low { IfOk result (λ band. band.low ≡ low) }
        ensures high { IfOk result (λ band. band.high ≡ high) }
        ensures band { IfOk result (IsBandOf self.now) }
    {
        match band_of(alloc, self.polygons.as_slice(), low, high) {
            Ok(band) => Ok(band),
            Err(_) => Err(NoMemory),
        }
    }

    /// The least longitude, in microdegrees.
    pub fn west(&self) -> i64
        ensures { result ≡ least (longitudes self.now) }
    {
        self.west
    }

    /// The greatest longitude, in microdegrees.
    pub fn east(&self) -> i64
        ensures { result ≡ greatest (longitudes self.now) }
    {
        self.east
    }

    /// The least latitude, in microdegrees.
    pub fn south(&self) -> i64
        ensures { result ≡ least (latitudes self.now) }
    {
        self.south
    }

    /// The greatest latitude, in microdegrees.
    pub fn north(&self) -> i64
        ensures { result ≡ greatest (latitudes self.now) }
    {
        self.north
    }

    /// How many positions all rings have together.
    pub fn positions(&self) -> u32
        ensures { result ≡ length (positions_of self.now) }
    {
        self.positions
    }

    pub fn polygon_count(&self) -> usize
        ensures { result ≡ length self.now }
    {
        self.polygons.len()
    }

    pub fn ring_count(&self, polygon: usize) -> usize
        requires { polygon < length self.now }
        ensures { result ≡ length (slice_index_or self.now polygon []) }
    {
        self.polygons[polygon].ring_count()
    }

    pub fn position_count(&self, polygon: usize, ring: usize) -> usize
        requires polygon { polygon < length self.now }
        requires ring { ring < length (slice_index_or self.now polygon []) }
        ensures { result ≡ length (slice_index_or (slice_index_or self.now polygon []) ring []) }
    {
        self.polygons[polygon].ring(ring).len()
    }

    /// A position (longitude, latitude), in microdegrees.
    pub fn position(&self, polygon: usize, ring: usize, i: usize) -> (i64, i64)
        requires polygon { polygon < length self.now }
        requires ring { ring < length (slice_index_or self.now polygon []) }
        requires position { i < length (slice_index_or (slice_index_or self.now polygon []) ring []) }
        ensures { slice_get (slice_index_or (slice_index_or self.now polygon []) ring []) i ≡ Some result }
    {
        self.polygons[polygon].ring(ring).position(i)
    }
}
