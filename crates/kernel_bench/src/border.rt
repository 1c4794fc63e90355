// A wavy border of 4,096 positions, the last one the first again.
ghost use Rattle.std.specs.Prelude.{◌<◌, ◌≤◌};

use anyhow::{Context, Result};
use region::District;
use std::alloc::{AllocError, Global};

// Longitude and latitude of the middle, in microdegrees.
const MIDDLE: (i64, i64) = (39_800_000, 21_400_000);

/// The district that the border encloses.
pub fn district(alloc: Global) -> Result<District> {
    let mut rings = Vec::new(alloc);
    rings.push(ring(alloc)?)?;
    let mut polygons = Vec::new(alloc);
    polygons.push(rings)?;
    District::new(alloc, polygons).ok().context("no district")
}

fn ring(alloc: Global) -> Result<Vec<(i64, i64)>, AllocError> {
    let mut ring = Vec::new(alloc);
    for k in 0..4_095 {
        ring.push(position(k))?;
    }
    ring.push(position(0))?;
    Ok(ring)
}

// On a diamond with waves round the middle, within 2,021 times 1,024 microdegrees of it each way.
fn position(k: u32) -> (i64, i64) {
    let (lon, lat) = MIDDLE;
    let reach = i64::from(reach(k));
    let ahead = reach * i64::from(k % 1_024);
    let back = reach * 1_024 - ahead;
    match k / 1_024 {
        0 => (lon + back, lat + ahead),
        1 => (lon - ahead, lat + back),
        2 => (lon - back, lat - ahead),
        _ => (lon + ahead, lat - back),
    }
}

// From 1,500 to 2,021.
fn reach(k: u32) -> u32 {
    1_500 + 2 * wave(k, 256) + 10 * wave(k, 32) + 21 * wave(k, 10)
}

// Down from half of the period to 0 and up again.
fn wave(k: u32, period: u32) -> u32
    requires { 0 < period }
    ensures { result ≤ period }
{
    (k % period).abs_diff(period / 2)
}
