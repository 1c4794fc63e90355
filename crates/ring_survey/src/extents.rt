// How far a list of polygons reaches.
ghost use Rattle.std.specs.Prelude.{◌≡◌, pos, ◌-ℤ◌, int_lt, ◌||◌, fold};
ghost use Rattle.std.specs.List.{list_any, flat_map};
ghost use Rattle.ring_survey.specs.Bounds.{widened, or_zero, bounds_of};
ghost use Rattle.ring_survey.specs.Extent.{is_far, positions_of};
ghost use Rattle.ring_survey.specs.Vectors.{rings_in, polygons_in};

use crate::bounds::Bounds;
use crate::counts::RingList;

// Farther than 360 degrees of longitude or 65 degrees of latitude, either way.
fn is_far(p: (i64, i64)) -> bool
    ensures { result ≡ is_far p }
{
    p.1.unsigned_abs() > 65_000_000 || p.0.unsigned_abs() > 360_000_000
}

fn any_far(ring: &[(i64, i64)]) -> bool
    ensures { result ≡ list_any is_far ring.now }
{
    for p in ring {
        if is_far(*p) {
            return true;
        }
    }
    false
}

fn any_far_ring(rings: &[Vec<(i64, i64)>]) -> bool
    ensures { result ≡ list_any is_far (flat_map (λ ring. ring) (rings_in rings.now)) }
{
    for ring in rings {
        if any_far(ring.as_slice()) {
            return true;
        }
    }
    false
}

/// Whether some position, in microdegrees, is over 360 degrees of longitude or 65 degrees of latitude, either way.
pub fn reaches_far(polygons: &[RingList]) -> bool
    ensures { result ≡ list_any is_far (positions_of (polygons_in polygons.now)) }
{
    for rings in polygons {
        if any_far_ring(rings.as_slice()) {
            return true;
        }
    }
    false
}

fn widened(bounds: Option<Bounds>, p: (i64, i64)) -> Option<Bounds>
    ensures { result ≡ widened bounds p }
{
    match bounds {
        None => Some(Bounds {
            west: p.0,
            east: p.0,
            south: p.1,
            north: p.1,
        }),
        Some(b) => Some(Bounds {
            west: b.west.min(p.0),
            east: b.east.max(p.0),
            south: b.south.min(p.1),
            north: b.north.max(p.1),
        }),
    }
}

fn ring_bounds(bounds: Option<Bounds>, ring: &[(i64, i64)]) -> Option<Bounds>
    ensures { result ≡ fold widened bounds ring.now }
{
    let mut grown = bounds;
    for p in ring {
        grown = widened(grown, *p);
    }
    grown
}

fn rings_bounds(bounds: Option<Bounds>, rings: &[Vec<(i64, i64)>]) -> Option<Bounds>
    ensures { result ≡ fold widened bounds (flat_map (λ ring. ring) (rings_in rings.now)) }
{
    let mut grown = bounds;
    for ring in rings {
        grown = ring_bounds(grown, ring.as_slice());
    }
    grown
}

fn all_bounds(polygons: &[RingList]) -> Option<Bounds>
    ensures { result ≡ fold widened None (positions_of (polygons_in polygons.now)) }
{
    let mut grown = None;
    for rings in polygons {
        grown = rings_bounds(grown, rings.as_slice());
    }
    grown
}

fn or_zero(bounds: Option<Bounds>) -> Bounds
    ensures { result ≡ or_zero bounds }
{
    match bounds {
        Some(b) => b,
        None => Bounds {
            west: 0,
            east: 0,
            south: 0,
            north: 0,
        },
    }
}

/// The least box round all positions.
pub(crate) fn bounds_of(polygons: &[RingList]) -> Bounds
    ensures { result ≡ bounds_of (polygons_in polygons.now) }
{
    or_zero(all_bounds(polygons))
}

fn is_wide(low: i64, high: i64) -> bool
    ensures { result ≡ int_lt (pos 4_194_304) (high -ℤ low) }
{
    high as i128 - low as i128 > 4_194_304
}

/// Whether the box spans more than a district may, either way.
pub(crate) fn spans_wide(bounds: &Bounds) -> bool
    ensures { result
        ≡ (int_lt (pos 4_194_304) (bounds.now.east -ℤ bounds.now.west)
        || int_lt (pos 4_194_304) (bounds.now.north -ℤ bounds.now.south)) }
{
    is_wide(bounds.west, bounds.east) || is_wide(bounds.south, bounds.north)
}
