// A district's polygons, position by position.
ghost use Rattle.std.specs.Prelude.{◌≡◌, ◌<◌, [], length, slice_index_or, IfOk};
ghost use Rattle.ring_survey.specs.Vectors.{rings_in, polygons_in};

use region::{District, RingList};
use std::alloc::{AllocError, Global};

fn ring_of(
    alloc: Global,
    district: &District,
    polygon: usize,
    ring: usize,
) -> Result<Vec<(i64, i64)>, AllocError>
    requires polygon { polygon < length district.now }
    requires ring { ring < length (slice_index_or district.now polygon []) }
    ensures { IfOk result (λ r. r.items ≡ slice_index_or (slice_index_or district.now polygon []) ring []) }
{
    let mut positions = Vec::new(alloc);
    for i in 0..district.position_count(polygon, ring) {
        positions.push(district.position(polygon, ring, i))?;
    }
    Ok(positions)
}

fn polygon_of(alloc: Global, district: &District, polygon: usize) -> Result<RingList, AllocError>
    requires { polygon < length district.now }
    ensures { IfOk result (λ rings. rings_in rings.items ≡ slice_index_or district.now polygon []) }
{
    let mut rings = Vec::new(alloc);
    for ring in 0..district.ring_count(polygon) {
        rings.push(ring_of(alloc, district, polygon, ring)?)?;
    }
    Ok(rings)
}

/// The district's polygons, each a list of rings, each a list of positions in microdegrees.
pub(crate) fn polygons_of(alloc: Global, district: &District) -> Result<Vec<RingList>, AllocError>
    ensures { IfOk result (λ polygons. polygons_in polygons.items ≡ district.now) }
{
    let mut polygons = Vec::new(alloc);
    for polygon in 0..district.polygon_count() {
        polygons.push(polygon_of(alloc, district, polygon)?)?;
    }
    Ok(polygons)
}
