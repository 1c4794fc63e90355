// Places and boxes of a district, asked of its whole border or of one strip.
ghost use Rattle.std.specs.Prelude.{◌<◌, ◌≤◌, pos, ◌≤ℤ◌, ◌<ℤ◌};
ghost use Rattle.plane_edges.specs.Magnitude.{IsWithin};
ghost use Rattle.region.specs.Strips.{top_of};

use crate::border::district;
use crate::sums::mixed;
use anyhow::{Context, Result, ensure};
use region::{Point, Rect};
use std::alloc::Global;

// A square round the border: its south-west corner and its side, in place units (128 to a microdegree).
const WEST: i64 = 128 * 37_702_848;

const SOUTH: i64 = 128 * 19_302_848;

const SIDE: u32 = 536_870_912;

// The strip in the middle of the square: its number, its lower end and its height.
const STRIP: u32 = 32;

const LOW: i64 = SOUTH + 32 * 8_388_608;

const HEIGHT: u32 = 8_388_608;

const STEP: u64 = 7_919_000_003;

// The places stand on a grid of thirds of a place unit.
const PARTS: u32 = 3;

pub fn contains(alloc: Global, count: u64) -> Result<u64> {
    let district = district(alloc)?;
    let mut sum = 0;
    for i in 0..count {
        sum = mixed(sum, i128::from(district.contains(place(i))));
    }
    Ok(sum)
}

pub fn meets(alloc: Global, count: u64) -> Result<u64> {
    let district = district(alloc)?;
    let mut sum = 0;
    for i in 0..count {
        sum = with_place(sum, district.meets(box_above(LOW, i)));
    }
    Ok(sum)
}

pub fn meets_by_strip(alloc: Global, count: u64) -> Result<u64> {
    let district = district(alloc)?;
    let strips = district.strips(alloc, SOUTH).ok().context("no strips")?;
    let strip = strips.strip(STRIP);
    ensure!(strip.low() == LOW, "the strip is another one");
    let mut sum = 0;
    for i in 0..count {
        sum = with_place(sum, strip.meets(box_above(LOW, i)));
    }
    Ok(sum)
}

fn with_place(sum: u64, found: Option<Point>) -> u64 {
    match found {
        Some(p) => mixed(mixed(mixed(sum, p.a), p.b), p.d),
        None => mixed(sum, 0),
    }
}

// From 0 on, and less than `end`.
fn spread(i: u64, end: u32) -> i64
    requires { 0 < end }
    ensures low { pos 0 ≤ℤ result }
    ensures high { result <ℤ pos end }
{
    (i.wrapping_mul(STEP) % u64::from(end)) as i64
}

// Anywhere in the square.
fn place(i: u64) -> Point {
    let east = i128::from(spread(i, PARTS * SIDE));
    let north = i128::from(spread(i.wrapping_mul(STEP), PARTS * SIDE));
    let parts = i128::from(PARTS);
    Point::new(
        parts * i128::from(WEST) + east,
        parts * i128::from(SOUTH) + north,
        parts,
    )
}

// From 2^13 to 2^23 place units.
fn side(i: u64) -> u32
    ensures { result ≤ HEIGHT }
{
    8_192 * (1 + (i % 1_024) as u32)
}

// Anywhere in the strip that begins at `low`.
fn box_above(low: i64, i: u64) -> Rect
    requires { IsWithin (pos 46_000_000_000) low }
    ensures low { low ≤ℤ result.y0 }
    ensures high { result.y1 ≤ℤ top_of low }
{
    let side = side(i);
    let x = WEST + spread(i, SIDE);
    let y = low + spread(i, HEIGHT - side + 1);
    Rect::new(x, x + i64::from(side), y, y + i64::from(side))
}
