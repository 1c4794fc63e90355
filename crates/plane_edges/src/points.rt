// Rational places.
ghost use Rattle.std.specs.Prelude.{◌≡◌, ◌^◌, pos, ◌≤ℤ◌};
ghost use Rattle.plane_edges.specs.Magnitude.{IsWithin};

/// The place at longitude `a / d` and latitude `b / d`, in place units (128 to a microdegree).
/// `d` is from 1 to 2^30, and `a` and `b` are within 2^70 either way.
#[derive(Clone, Copy, Debug, PartialEq, Eq)]
pub struct Point {
    pub a: i128,
    pub b: i128,
    pub d: i128,
    pub ghost positive: { pos 1 ≤ℤ d },
    pub ghost short: { d ≤ℤ pos (2 ^ 30) },
    pub ghost a_within: { IsWithin (pos (2 ^ 70)) a },
    pub ghost b_within: { IsWithin (pos (2 ^ 70)) b },
}

impl Point {
    /// The place `a / d`, `b / d`.
    pub fn new(a: i128, b: i128, d: i128) -> Point
        requires positive { pos 1 ≤ℤ d }
        requires short { d ≤ℤ pos (2 ^ 30) }
        requires a_within { IsWithin (pos (2 ^ 70)) a }
        requires b_within { IsWithin (pos (2 ^ 70)) b }
        ensures a { result.a ≡ a }
        ensures b { result.b ≡ b }
        ensures d { result.d ≡ d }
    {
        Point { a, b, d }
    }
}
