// The survey that makes a list of polygons a district, or its first fault.
ghost use Rattle.std.specs.Prelude.{◌≡◌, Some, MatchResult};
ghost use Rattle.ring_survey.specs.Faults.{first_fault, IsSurveyed};
ghost use Rattle.ring_survey.specs.Vectors.{polygons_in};

use crate::counts::{RingList, check_rings, lacks_ring, room_left};
use crate::extents::{bounds_of, reaches_far, spans_wide};
use crate::faults::RegionFault;

const MOST_POSITIONS: usize = 4096;

/// What a district knows of its polygons.
#[derive(Clone, Copy, Debug, PartialEq, Eq)]
pub struct Survey {
    pub west: i64,
    pub east: i64,
    pub south: i64,
    pub north: i64,
    pub positions: u32,
}

/// The survey of the polygons, or their first fault.
pub fn survey_of(polygons: &[RingList]) -> Result<Survey, RegionFault>
    ensures { MatchResult result
        (λ s. IsSurveyed (polygons_in polygons.now) s.west s.east s.south s.north s.positions)
        (λ fault. first_fault (polygons_in polygons.now) ≡ Some fault) }
{
    if lacks_ring(polygons) {
        return Err(RegionFault::NoPolygon);
    }
    let left = match room_left(polygons, MOST_POSITIONS) {
        Some(left) => left,
        None => return Err(RegionFault::TooMany),
    };
    match check_rings(polygons) {
        Ok(()) => {}
        Err(fault) => return Err(fault),
    }
    if reaches_far(polygons) {
        return Err(RegionFault::TooFar);
    }
    let bounds = bounds_of(polygons);
    if spans_wide(&bounds) {
        return Err(RegionFault::TooWide);
    }
    Ok(Survey {
        west: bounds.west,
        east: bounds.east,
        south: bounds.south,
        north: bounds.north,
        positions: (MOST_POSITIONS - left) as u32,
    })
}
