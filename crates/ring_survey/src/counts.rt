// How many rings and positions a list of polygons has, and whether its rings are closed.
ghost use Rattle.std.specs.Prelude.{◌≡◌, ◌+◌, ◌*◌, ◌^◌, ◌<◌, ◌≤◌, ◌&&◌, Some, None, length, MatchOption, MatchResult};
ghost use Rattle.std.specs.List.{flat_map};
ghost use Rattle.std.specs.Ordering.{int_eq};
ghost use Rattle.ring_survey.specs.Polygons.{is_closed};
ghost use Rattle.ring_survey.specs.Extent.{positions_of};
ghost use Rattle.ring_survey.specs.Faults.{lacks_ring, ring_fault};
ghost use Rattle.ring_survey.specs.Vectors.{rings_in, polygons_in};

use crate::faults::RegionFault;

/// The rings of a polygon, the outer one first, each a list of longitudes and latitudes in microdegrees.
pub type RingList = Vec<Vec<(i64, i64)>>;

/// Whether there is no polygon, or a polygon has no ring.
pub fn lacks_ring(polygons: &[RingList]) -> bool
    ensures { result ≡ lacks_ring (polygons_in polygons.now) }
{
    if polygons.is_empty() {
        return true;
    }
    for rings in polygons {
        if rings.is_empty() {
            return true;
        }
    }
    false
}

// What is left of the room for positions after a polygon's.
fn room_after(rings: &[Vec<(i64, i64)>], room: usize) -> Option<usize>
    ensures { MatchOption result (room < length (flat_map (λ ring. ring) (rings_in rings.now)))
        (λ left. left + length (flat_map (λ ring. ring) (rings_in rings.now)) ≡ room) }
{
    let mut left = room;
    for ring in rings {
        if ring.len() > left {
            return None;
        }
        left -= ring.len();
    }
    Some(left)
}

/// What is left of the room for positions after those of all polygons, None if they don't fit.
pub fn room_left(polygons: &[RingList], room: usize) -> Option<usize>
    ensures { MatchOption result (room < length (positions_of (polygons_in polygons.now)))
        (λ left. left + length (positions_of (polygons_in polygons.now)) ≡ room) }
{
    let mut left = room;
    for rings in polygons {
        match room_after(rings.as_slice(), left) {
            Some(rest) => left = rest,
            None => return None,
        }
    }
    Some(left)
}

fn is_same(p: (i64, i64), q: (i64, i64)) -> bool
    ensures { result ≡ (int_eq p.0 q.0 && int_eq p.1 q.1) }
{
    p.0 == q.0 && p.1 == q.1
}

// The ring ends where it begins.
fn is_closed(ring: &[(i64, i64)]) -> bool
    requires { 0 < length ring.now }
    ensures { result ≡ is_closed ring.now }
{
    is_same(ring[ring.len() - 1], ring[0])
}

// The number of the ring after a polygon's rings, the first of which has the number given, if each
// is long enough and closed.
fn number_after(rings: &[Vec<(i64, i64)>], first: u64) -> Result<u64, RegionFault>
    requires { 4 * first + length (flat_map (λ ring. ring) (rings_in rings.now)) < 2 ^ 64 }
    ensures { MatchResult result
        (λ number. (ring_fault first (rings_in rings.now) ≡ None)
        × (number ≡ first + length (rings_in rings.now))
        × (4 * number ≤ 4 * first + length (flat_map (λ ring. ring) (rings_in rings.now))))
        (λ fault. ring_fault first (rings_in rings.now) ≡ Some fault) }
{
    let mut number = first;
    for ring in rings {
        if ring.len() < 4 {
            return Err(RegionFault::Short(number));
        }
        if !is_closed(ring.as_slice()) {
            return Err(RegionFault::Open(number));
        }
        number += 1;
    }
    Ok(number)
}

/// Refuses the first ring that has fewer than four positions or doesn't end where it begins.
pub fn check_rings(polygons: &[RingList]) -> Result<(), RegionFault>
    requires { length (positions_of (polygons_in polygons.now)) < 2 ^ 64 }
    ensures { MatchResult result
        (λ _. ring_fault 0 (flat_map (λ rings. rings) (polygons_in polygons.now)) ≡ None)
        (λ fault. ring_fault 0 (flat_map (λ rings. rings) (polygons_in polygons.now)) ≡ Some fault) }
{
    let mut number = 0;
    for rings in polygons {
        match number_after(rings.as_slice(), number) {
            Ok(next) => number = next,
            Err(fault) => return Err(fault),
        }
    }
    Ok(())
}
