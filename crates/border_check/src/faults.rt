// Why a list of polygons is no border.
ghost use Rattle.std.specs.Prelude.{◌≡◌};
ghost use Rattle.ring_survey.specs.Vectors.{polygons_in};
ghost use Rattle.border_check.specs.Borders.{border_fault};

use region::{RegionFault, RingList, check_rings, lacks_ring, reaches_far, room_left};

const MOST_POSITIONS: usize = 1_000_000;

/// The first fault for which the polygons are no border.
pub(crate) fn border_fault(polygons: &[RingList]) -> Option<RegionFault>
    ensures { result ≡ border_fault (polygons_in polygons.now) }
{
    if lacks_ring(polygons) {
        return Some(RegionFault::NoPolygon);
    }
    if room_left(polygons, MOST_POSITIONS).is_none() {
        return Some(RegionFault::TooMany);
    }
    if let Err(fault) = check_rings(polygons) {
        return Some(fault);
    }
    if reaches_far(polygons) {
        Some(RegionFault::TooFar)
    } else {
        None
    }
}
