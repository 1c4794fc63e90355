// Exact arithmetic in 128 bits, an operation a function.
ghost use Rattle.std.specs.Prelude.{◌≡◌, ◌^◌, pos, ◌≤ℤ◌, ◌+ℤ◌, ◌-ℤ◌, ◌*ℤ◌, ◌&&◌, int_lt};
ghost use Rattle.plane_edges.specs.Magnitude.{IsWithin};

/// A coordinate in parts of `d`.
pub(crate) fn scaled(x: i64, d: i128) -> i128
    requires x_within { IsWithin (pos 47_000_000_000) x }
    requires positive { pos 1 ≤ℤ d }
    requires short { d ≤ℤ pos (2 ^ 30) }
    ensures value { result ≡ x *ℤ d }
    ensures within { IsWithin (pos (2 ^ 66)) result }
{
    x as i128 * d
}

/// How far `to` is beyond `from`.
pub(crate) fn gap(from: i128, to: i128) -> i128
    requires from_within { IsWithin (pos (2 ^ 66)) from }
    requires to_within { IsWithin (pos (2 ^ 70)) to }
    ensures value { result ≡ to -ℤ from }
    ensures within { IsWithin (pos (2 ^ 71)) result }
{
    to - from
}

/// How far an edge goes in one coordinate.
pub(crate) fn span(from: i64, to: i64) -> i128
    requires from_within { IsWithin (pos 47_000_000_000) from }
    requires to_within { IsWithin (pos 47_000_000_000) to }
    requires span { IsWithin (pos (2 ^ 29)) (to -ℤ from) }
    ensures value { result ≡ to -ℤ from }
    ensures within { IsWithin (pos (2 ^ 29)) result }
{
    (to - from) as i128
}

/// The product of a span and a gap.
pub(crate) fn area(span: i128, gap: i128) -> i128
    requires span { IsWithin (pos (2 ^ 29)) span }
    requires gap { IsWithin (pos (2 ^ 71)) gap }
    ensures value { result ≡ span *ℤ gap }
    ensures within { IsWithin (pos (2 ^ 100)) result }
{
    span * gap
}

/// The difference of two such products.
pub(crate) fn cross(first: i128, second: i128) -> i128
    requires first { IsWithin (pos (2 ^ 100)) first }
    requires second { IsWithin (pos (2 ^ 100)) second }
    ensures { result ≡ first -ℤ second }
{
    first - second
}

/// A coordinate in parts of `d` and a product beyond it.
pub(crate) fn offset(base: i128, product: i128) -> i128
    requires base { IsWithin (pos (2 ^ 66)) base }
    requires product { IsWithin (pos (2 ^ 100)) product }
    ensures { result ≡ base +ℤ product }
{
    base + product
}

/// Both ends are less than a number.
pub(crate) fn are_below(u: i128, v: i128, z: i128) -> bool
    ensures { result ≡ (int_lt u z && int_lt v z) }
{
    u < z && v < z
}

/// Both ends are greater than a number.
pub(crate) fn are_above(u: i128, v: i128, z: i128) -> bool
    ensures { result ≡ (int_lt z u && int_lt z v) }
{
    z < u && z < v
}
