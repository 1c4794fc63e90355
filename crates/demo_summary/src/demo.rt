// What the order of a number asks for.
ghost use Rattle.std.specs.Prelude.{◌≡◌, ◌<◌, ◌≤◌, ◌≤ℤ◌, ◌+ℤ◌, ◌*ℤ◌, pos, neg_ℤ, IfOk};
ghost use Rattle.demo_summary.specs.Demo.{centre, demo_asr, demo_from, demo_method, demo_offset, demo_ring, direction, distance, method_by, offset_at, position_at};

use crate::numbers::drawn;
use method_table::{Asr, Method};
use no_memory::NoMemory;
use std::alloc::Global;

fn method_by(n: u32) -> Method
    ensures { result ≡ method_by n }
{
    match n {
        0 => Method::Mwl,
        1 => Method::Isna,
        2 => Method::Egypt,
        3 => Method::Karachi,
        4 => Method::Makkah,
        5 => Method::Tehran,
        _ => Method::Jafari,
    }
}

pub(crate) fn demo_method(number: u32) -> Method
    ensures { result ≡ demo_method number }
{
    method_by(drawn(number, 3) % 7)
}

pub(crate) fn demo_asr(number: u32) -> Asr
    ensures { result ≡ demo_asr number }
{
    if drawn(number, 4) % 2 == 0 {
        Asr::Standard
    } else {
        Asr::Hanafi
    }
}

/// The first day, since 1970-01-01.
pub(crate) fn demo_from(number: u32) -> i32
    ensures value { result ≡ demo_from number }
    ensures early { pos 20089 ≤ℤ result }
    ensures late { result ≤ℤ pos 20453 }
{
    20089 + (drawn(number, 5) % 365) as i32
}

/// Longitude and latitude in microdegrees.
#[tactic(auto, unfolding(crate::specs::Demo::centre))]
fn centre(number: u32) -> (i64, i64)
    ensures value { result ≡ centre number }
    ensures west { neg_ℤ (pos 170000000) ≤ℤ result.0 }
    ensures east { result.0 ≤ℤ pos 169000000 }
    ensures south { neg_ℤ (pos 40000000) ≤ℤ result.1 }
    ensures north { result.1 ≤ℤ pos 40000000 }
{
    (
        ((drawn(number, 1) % 340) as i64 - 170) * 1000000,
        ((drawn(number, 2) % 81) as i64 - 40) * 1000000,
    )
}

fn offset_at(longitude: i64) -> i32
    requires west { neg_ℤ (pos 170000000) ≤ℤ longitude }
    requires east { longitude ≤ℤ pos 169000000 }
    ensures { result ≡ offset_at longitude }
{
    60 * (longitude + 7500000).div_euclid(15000000) as i32
}

/// The offset of the clock in minutes.
pub(crate) fn demo_offset(number: u32) -> i32
    ensures { result ≡ demo_offset number }
{
    offset_at(centre(number).0)
}

fn distance(number: u32, i: u32) -> u32
    requires { i < 64 }
    ensures value { result ≡ distance number i }
    ensures small { result ≤ 9999 }
{
    1000 + drawn(number, 6 + i) % 9000
}

fn direction(i: u32) -> (i64, i64)
    requires { i < 64 }
    ensures value { result ≡ direction i }
    ensures x_low { neg_ℤ (pos 16) ≤ℤ result.0 }
    ensures x_high { result.0 ≤ℤ pos 16 }
    ensures y_low { neg_ℤ (pos 16) ≤ℤ result.1 }
    ensures y_high { result.1 ≤ℤ pos 16 }
{
    let t = (i % 16) as i64;
    match i / 16 {
        0 => (16, 2 * t - 16),
        1 => (16 - 2 * t, 16),
        2 => (-16, 16 - 2 * t),
        _ => (2 * t - 16, -16),
    }
}

/// A number so many times a direction away from a centre.
fn moved(centre: i64, distance: u32, direction: i64) -> i64
    requires west { neg_ℤ (pos 170000000) ≤ℤ centre }
    requires east { centre ≤ℤ pos 170000000 }
    requires short { distance ≤ 9999 }
    requires low { neg_ℤ (pos 16) ≤ℤ direction }
    requires high { direction ≤ℤ pos 16 }
    ensures { result ≡ centre +ℤ pos distance *ℤ direction }
{
    centre + distance as i64 * direction
}

#[tactic(auto, unfolding(crate::specs::Demo::position_at))]
fn position_at(number: u32, i: u32) -> (i64, i64)
    requires { i < 64 }
    ensures { result ≡ position_at number i }
{
    let centre = centre(number);
    let distance = distance(number, i);
    let direction = direction(i);
    (
        moved(centre.0, distance, direction.0),
        moved(centre.1, distance, direction.1),
    )
}

pub(crate) fn demo_ring(alloc: Global, number: u32) -> Result<Vec<(i64, i64)>, NoMemory>
    ensures { IfOk result (λ ring. ring.items ≡ demo_ring number) }
{
    let mut ring = Vec::new(alloc);
    for i in 0..64 {
        ring.push(position_at(number, i))?;
    }
    ring.push(position_at(number, 0))?;
    Ok(ring)
}
