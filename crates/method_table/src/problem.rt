// One problem: a row of the table for one day, and what its ranks stand for.
ghost use Rattle.std.specs.Prelude.{◌≡◌, ◌≤◌, ◌≤ℤ◌, ◌+ℤ◌, pos, neg_ℤ};
ghost use Rattle.method_table.specs.Kind.{IsKind};

/// A column of the table.
#[derive(Clone, Copy, Debug, PartialEq, Eq)]
pub enum Column {
    Fajr,
    FajrEnd,
    Dhuhr,
    Asr,
    Maghrib,
    MaghribEnd,
    Isha,
}

/// Whether the least safe minute is sought, up to the frame's end, or the greatest, from its start.
#[derive(Clone, Copy, Debug, PartialEq, Eq)]
pub enum Side {
    Start,
    End,
}

/// The condition of a prayer, after the manual. Angles are ranges, low to high, below the horizon,
/// in units of 1/144,000,000,000 degree.
#[derive(Clone, Copy, Debug, PartialEq, Eq)]
pub enum Kind {
    /// The sun is above every angle of the range.
    Above { low: i64, high: i64 },
    /// The sun is below every angle of the range.
    Below { low: i64, high: i64 },
    /// The sun is past the meridian.
    Past,
    /// The shadow is longer than `factor` times the object and its noon shadow.
    Shadow { factor: u8 },
}

/// A row of the table for one day. Local minutes are those of the civil day's clock.
#[derive(Clone, Copy, Debug, PartialEq, Eq)]
pub struct Problem {
    pub column: Column,
    pub side: Side,
    /// The first local minute of the frame, from -720 to 1439.
    pub first: i32,
    /// The last local minute of the frame, 720 after the first.
    pub last: i32,
    /// The minute since 2000-01-01 12:00 Universal Time that is local minute 0.
    pub base: i64,
    pub kind: Kind,
    /// Minutes added where a minute is printed, from 0 to 120.
    pub shift: i32,
    pub ghost first_not_low: { neg_ℤ (pos 720) ≤ℤ first },
    pub ghost first_not_high: { first ≤ℤ pos 1439 },
    pub ghost framed: { last ≡ first +ℤ pos 720 },
    pub ghost base_not_low: { neg_ℤ (pos 53200000) ≤ℤ base },
    pub ghost base_not_high: { base ≤ℤ pos 53200000 },
    pub ghost kind_in_range: { IsKind kind },
    pub ghost shift_not_negative: { pos 0 ≤ℤ shift },
    pub ghost shift_not_high: { shift ≤ℤ pos 120 },
}
