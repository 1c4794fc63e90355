// Worked rows, and what a slow reference answers about the same districts.
mod cases;

use cases::{BOXES, DISTRICTS, PLACES};
use region::{District, Point, Rect, RegionFault, Strip, Strips};
use std::alloc::{AllocError, Global};
use std::process::Abort;
use std::test::Fail;

const MILLION: i64 = 128_000_000;

fn district(alloc: Global, polygons: &[&[&[(i64, i64)]]]) -> Result<District, RegionFault> {
    let mut list = Vec::new(alloc);
    for rings in polygons {
        let mut copies = Vec::new(alloc);
        for ring in *rings {
            copies.push(ring.to_vec(alloc)?)?;
        }
        list.push(copies)?;
    }
    District::new(alloc, list)
}

fn all_districts(alloc: Global) -> Result<Vec<District>, RegionFault> {
    let mut list = Vec::new(alloc);
    for polygons in DISTRICTS {
        list.push(district(alloc, polygons)?)?;
    }
    Ok(list)
}

fn point(rt: &impl Abort, a: i128, b: i128, d: i128) -> Point {
    let most: i128 = 1_180_591_620_717_411_303_424;
    assert!(rt; d >= 1);
    assert!(rt; d <= 1_073_741_824);
    assert!(rt; -most <= a);
    assert!(rt; a <= most);
    assert!(rt; -most <= b);
    assert!(rt; b <= most);
    Point::new(a, b, d)
}

// The box with this corner in the south-west.
fn rect(rt: &impl Abort, x: i64, width: i64, y: i64, height: i64) -> Rect {
    let most: i64 = 47_000_000_000;
    assert!(rt; -most <= x);
    assert!(rt; x <= most);
    assert!(rt; 0 <= width);
    assert!(rt; width <= most - x);
    assert!(rt; -most <= y);
    assert!(rt; y <= most);
    assert!(rt; 0 <= height);
    assert!(rt; height <= most - y);
    Rect::new(x, x + width, y, y + height)
}

/// The district of this number holds the place, or doesn't.
fn expect_place(
    rt: &impl Abort,
    districts: &[District],
    n: usize,
    (a, b, d): (i128, i128, i128),
    want: bool,
) -> Result<(), Fail> {
    let district = districts.get(n).ok_or("no such district")?;
    let found = district.contains(point(rt, a, b, d));
    assert_eq!(rt; (n, (a, b, d), found), (n, (a, b, d), want));
    Ok(())
}

/// The place that a district names for a box.
fn named(district: &District, rect: Rect) -> Option<(i128, i128, i128)> {
    district.meets(rect).map(|p| (p.a, p.b, p.d))
}

/// The place that the district of this number names for the box with this corner in the south-west.
fn expect_named(
    rt: &impl Abort,
    districts: &[District],
    n: usize,
    (x, y, width, height): (i64, i64, i64, i64),
    want: Option<(i128, i128, i128)>,
) -> Result<(), Fail> {
    let district = districts.get(n).ok_or("no such district")?;
    let found = named(district, rect(rt, x, width, y, height));
    let cell = (x, y, width, height);
    assert_eq!(rt; (n, cell, found), (n, cell, want));
    Ok(())
}

#[test]
fn contains_and_meets_as_the_reference(rt: HostRuntime) -> Result<(), Fail> {
    let districts = all_districts(rt.alloc())?;
    for case in PLACES {
        let (n, a, b, d, want) = *case;
        expect_place(&rt, &districts, n, (a, b, d), want)?;
    }
    for case in BOXES {
        let (n, x, y, width, height, want) = *case;
        expect_named(&rt, &districts, n, (x, y, width, height), want)?;
    }
    Ok(())
}

/// Places of the square with a hole: in the hole, on the hole's border twice, corner, inside.
const PLACES_BY_HAND: [(i128, i128, bool); 4] = [
    (256_000_000, 256_000_000, false),
    (128_000_000, 256_000_000, true),
    (384_000_000, 384_000_000, true),
    (0, 0, true),
];

/// A district's number, the corner and the size of a square box, and the place that is named for it.
const BOXES_BY_HAND: [(usize, i64, i64, i64, Option<(i128, i128, i128)>); 7] = [
    // The triangle: its slanted side, and beside it.
    (1, 100, 140, 20, Some((25_600, 39_936, 256))),
    (1, 200, 200, 10, None),
    // A vertex on the box's side, and an edge along it.
    (1, 256, -10, 20, Some((65_536, 0, 256))),
    (1, 10, -16, 16, Some((2_560, 0, 256))),
    // Inside the square.
    (
        6,
        MILLION,
        2 * MILLION,
        16,
        Some((128_000_000, 256_000_000, 1)),
    ),
    // One place, of edges of length zero.
    (7, 12_800_000, 0, 16, Some((12_800_000, 0, 1))),
    (7, 12_800_001, 0, 15, None),
];

#[test]
fn contains_and_meets_by_hand(rt: HostRuntime) -> Result<(), Fail> {
    let districts = all_districts(rt.alloc())?;
    for (x, y, want) in &PLACES_BY_HAND {
        expect_place(&rt, &districts, 0, (*x, *y, 1), *want)?;
    }
    for (n, x, y, size, want) in &BOXES_BY_HAND {
        expect_named(&rt, &districts, *n, (*x, *y, *size, *size), *want)?;
    }
    Ok(())
}

type Polygons = &'static [&'static [&'static [(i64, i64)]]];

const GOOD: &[(i64, i64)] = &[(0, 0), (4, 0), (0, 4), (0, 0)];

const WIDEST: &[(i64, i64)] = &[(0, 0), (4_194_304, 0), (0, 4_194_304), (0, 0)];

const SHORT: &[(i64, i64)] = &[(0, 0), (4, 0), (0, 0)];

const OPEN: &[(i64, i64)] = &[(100_000, 0), (4, 0), (0, 4), (100_001, 0)];

const WIDE: &[(i64, i64)] = &[(0, 0), (4_194_305, 0), (0, 4), (0, 0)];

const FAR: &[(i64, i64)] = &[(0, 0), (360_000_001, 0), (0, 4), (0, 0)];

const FAULTS: [(Polygons, Option<RegionFault>); 10] = [
    (&[&[GOOD]], None),
    (&[&[WIDEST]], None),
    (&[], Some(RegionFault::NoPolygon)),
    (&[&[GOOD], &[]], Some(RegionFault::NoPolygon)),
    (&[&[SHORT]], Some(RegionFault::Short(0))),
    (&[&[OPEN]], Some(RegionFault::Open(0))),
    (
        &[&[GOOD, GOOD], &[GOOD, OPEN, SHORT]],
        Some(RegionFault::Open(3)),
    ),
    (&[&[FAR, SHORT, OPEN]], Some(RegionFault::Short(1))),
    (&[&[WIDE]], Some(RegionFault::TooWide)),
    (&[&[WIDE, FAR]], Some(RegionFault::TooFar)),
];

#[test]
fn refuses_the_first_fault(rt: HostRuntime) {
    for (polygons, want) in &FAULTS {
        assert_eq!(rt; district(rt.alloc(), polygons).err(), *want);
    }
}

/// A ring of so many positions and the first again.
fn long_ring(alloc: Global, count: i64) -> Result<Vec<(i64, i64)>, AllocError> {
    let mut ring = Vec::new(alloc);
    for k in 0..count {
        ring.push((k, k % 7))?;
    }
    ring.push((0, 0))?;
    Ok(ring)
}

/// The fault of a ring of so many positions and the first again.
fn fault_of_long(alloc: Global, count: i64) -> Result<Option<RegionFault>, AllocError> {
    let rings = vec![in alloc; long_ring(alloc, count)?]?;
    let polygons = vec![in alloc; rings]?;
    Ok(District::new(alloc, polygons).err())
}

#[test]
fn holds_4096_positions(rt: HostRuntime) -> Result<(), Fail> {
    assert_eq!(rt; fault_of_long(rt.alloc(), 4_095)?, None);
    assert_eq!(rt;
        fault_of_long(rt.alloc(), 4_096)?,
        Some(RegionFault::TooMany)
    );
    Ok(())
}

/// The third position of a district of one ring of four.
fn third_of_four(rt: &impl Abort, district: &District) -> (i64, i64) {
    assert!(rt; district.polygon_count() == 1);
    assert!(rt; district.ring_count(0) == 1);
    assert!(rt; district.position_count(0, 0) == 4);
    district.position(0, 0, 2)
}

#[test]
fn reads_back(rt: HostRuntime) -> Result<(), Fail> {
    let district = district(rt.alloc(), &[&[&[(1, 2), (9, 2), (5, -7), (1, 2)]]])?;
    let bounds = (district.west(), district.east(), district.south());
    assert_eq!(rt; bounds, (1, 9, -7));
    assert_eq!(rt; (district.positions(), district.polygon_count()), (4, 1));
    assert_eq!(rt; third_of_four(&rt, &district), (5, -7));
    Ok(())
}

/// How many edges four of a district's strips hold.
fn edge_counts(strips: &Strips) -> (usize, usize, usize, usize) {
    (
        strips.strip(0).edge_count(),
        strips.strip(1).edge_count(),
        strips.strip(61).edge_count(),
        strips.strip(63).edge_count(),
    )
}

/// The place that a strip names for a box within it.
fn named_by(rt: &impl Abort, strip: &Strip, r: Rect) -> Option<(i128, i128, i128)> {
    assert!(rt; strip.low() <= r.y0);
    assert!(rt; r.y1 - 8_388_608 <= strip.low());
    strip.meets(r).map(|p| (p.a, p.b, p.d))
}

#[test]
fn strips_hold_the_edges_that_reach_them(rt: HostRuntime) -> Result<(), Fail> {
    let districts = all_districts(rt.alloc())?;
    let square = districts.get(6).ok_or("no such district")?;
    let strips = square.strips(rt.alloc(), 0)?;
    assert_eq!(rt; edge_counts(&strips), (3, 2, 3, 0));
    let r = rect(&rt, MILLION, 16, 2 * MILLION, 16);
    let found = named_by(&rt, strips.strip(30), r);
    assert_eq!(rt; found, Some((128_000_000, 256_000_000, 1)));
    Ok(())
}
