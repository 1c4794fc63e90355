// Where an edge passes a line along one of a box's sides.
ghost use Rattle.std.specs.Prelude.{◌≡◌, ◌^◌, pos, ◌≤ℤ◌, ◌-ℤ◌, IsTrue, IsFalse, int_le, ◌&&◌};
ghost use Rattle.std.specs.Ordering.{int_eq};
ghost use Rattle.std.specs.Option.{option_map};
ghost use Rattle.plane_edges.specs.Magnitude.{IsWithin};
ghost use Rattle.plane_edges.specs.Plane.{encloses};
ghost use Rattle.plane_edges.specs.EdgePoints.{progress, passing};

use crate::exact::{area, offset, scaled, span};

/// A place on the line: the other coordinate is `value / d`.
#[derive(Clone, Copy, Debug, PartialEq, Eq)]
pub(crate) struct Crossing {
    pub(crate) value: i128,
    pub(crate) d: i128,
    pub ghost positive: { pos 1 ≤ℤ d },
    pub ghost short: { d ≤ℤ pos (2 ^ 30) },
    pub ghost value_within: { IsWithin (pos (2 ^ 70)) value },
}

// How far `z` is on the way from `u` to `v`.
fn progress(u: i64, v: i64, z: i64) -> i64
    requires u_within { IsWithin (pos 47_000_000_000) u }
    requires v_within { IsWithin (pos 47_000_000_000) v }
    requires z_within { IsWithin (pos 47_000_000_000) z }
    ensures { result ≡ progress u v z }
{
    if u < v { z - u } else { u - z }
}

// The whole way from `u` to `v`.
fn distance(u: i64, v: i64) -> i128
    requires u_within { IsWithin (pos 47_000_000_000) u }
    requires v_within { IsWithin (pos 47_000_000_000) v }
    requires span { IsWithin (pos (2 ^ 29)) (v -ℤ u) }
    requires apart { IsFalse (int_eq u v) }
    ensures value { result ≡ progress u v v }
    ensures positive { pos 1 ≤ℤ result }
    ensures short { result ≤ℤ pos (2 ^ 30) }
{
    progress(u, v, v) as i128
}

// The part of the way from `u` to `v` that ends at `z`.
fn part(u: i64, v: i64, z: i64) -> i128
    requires u_within { IsWithin (pos 47_000_000_000) u }
    requires v_within { IsWithin (pos 47_000_000_000) v }
    requires z_within { IsWithin (pos 47_000_000_000) z }
    requires span { IsWithin (pos (2 ^ 29)) (v -ℤ u) }
    requires enclosed { IsTrue (encloses u v z) }
    ensures value { result ≡ progress u v z }
    ensures within { IsWithin (pos (2 ^ 29)) result }
{
    progress(u, v, z) as i128
}

fn encloses(u: i64, v: i64, z: i64) -> bool
    ensures { result ≡ encloses u v z }
{
    (u <= z && z <= v) || (v <= z && z <= u)
}

fn is_same(u: i64, v: i64) -> bool
    ensures { result ≡ int_eq u v }
{
    u == v
}

fn is_between(low: i128, value: i128, high: i128) -> bool
    ensures { result ≡ (int_le low value && int_le value high) }
{
    low <= value && value <= high
}

/// Along an edge one coordinate goes from `u` to `v` while the other goes from `s` to `t`. Where it
/// passes `z`, the other is `value / d`; it counts only from `low` to `high`.
pub(crate) fn passing(
    u: i64,
    v: i64,
    s: i64,
    t: i64,
    z: i64,
    low: i64,
    high: i64,
) -> Option<Crossing>
    requires u_within { IsWithin (pos 47_000_000_000) u }
    requires v_within { IsWithin (pos 47_000_000_000) v }
    requires s_within { IsWithin (pos 47_000_000_000) s }
    requires t_within { IsWithin (pos 47_000_000_000) t }
    requires z_within { IsWithin (pos 47_000_000_000) z }
    requires low_within { IsWithin (pos 47_000_000_000) low }
    requires high_within { IsWithin (pos 47_000_000_000) high }
    requires first_span { IsWithin (pos (2 ^ 29)) (v -ℤ u) }
    requires second_span { IsWithin (pos (2 ^ 29)) (t -ℤ s) }
    ensures { option_map (λ c. (c.value, c.d)) result ≡ passing u v s t z low high }
{
    if is_same(u, v) {
        return None;
    }
    if !encloses(u, v, z) {
        return None;
    }
    let d = distance(u, v);
    let value = offset(scaled(s, d), area(part(u, v, z), span(s, t)));
    let least = scaled(low, d);
    let most = scaled(high, d);
    if is_between(least, value, most) {
        Some(Crossing { value, d })
    } else {
        None
    }
}
