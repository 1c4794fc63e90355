// The minutes that a rule's portion of the night gives.
ghost use Rattle.std.specs.Prelude.{◌≡◌, ◌*◌, ◌^◌, pos, neg_ℤ, ◌*ℤ◌, ◌≤ℤ◌};
ghost use Rattle.method_table.specs.Kind.{DEGREE};
ghost use Rattle.night_portion.specs.Bounds.{IsNear, IsPortion, IsShare, IsWithinTwoNights, ceiling, fajr_bound, isha_bound, part_way, portion};

use night_rule::NightRule;

// sixty degrees in angle units
const SIXTY_DEGREES: i64 = 8_640_000_000_000;

/// The part of the night, as a numerator and a denominator, that a rule gives to a prayer whose sun is at this angle below
/// the horizon, from 0 to 30 degrees in units of 1/144,000,000,000 degree.
pub fn portion(rule: NightRule, angle: i64) -> (i64, i64)
    requires not_negative { pos 0 ≤ℤ angle }
    requires small { angle ≤ℤ pos (30 * DEGREE) }
    ensures value { result ≡ portion rule angle }
    ensures part { IsPortion result.0 result.1 }
{
    match rule {
        NightRule::Half => (1, 2),
        NightRule::Seventh => (1, 7),
        NightRule::ByAngle => (angle, SIXTY_DEGREES),
    }
}

/// The minute that lies the part a / b of the night before sunrise, rounded up. The night begins at the sunset of the day
/// before, which is taken a day before this one's. Minutes are local ones, within 4,000.
pub fn fajr_bound(rise: i32, set: i32, a: i64, b: i64) -> i32
    requires rise { IsNear rise }
    requires set { IsNear set }
    requires part { IsPortion a b }
    ensures { result ≡ fajr_bound rise set a b }
{
    part_way(rise, set - 1440, a, b)
}

/// The minute that lies the part a / b of the night after sunset, rounded up. The night ends at the sunrise of the day
/// after, which is taken a day after this one's. Minutes are local ones, within 4,000.
pub fn isha_bound(rise: i32, set: i32, a: i64, b: i64) -> i32
    requires rise { IsNear rise }
    requires set { IsNear set }
    requires part { IsPortion a b }
    ensures { result ≡ isha_bound rise set a b }
{
    part_way(set, rise + 1440, a, b)
}

// the minute that lies the part a / b of the way from one minute to another, rounded up
fn part_way(from: i32, to: i32, a: i64, b: i64) -> i32
    requires from { IsWithinTwoNights from }
    requires to { IsWithinTwoNights to }
    requires part { IsPortion a b }
    ensures { result ≡ part_way from to a b }
{
    ceiling(share(b - a, from) + share(a, to), b) as i32
}

// a minute so many times
fn share(times: i64, minute: i32) -> i64
    requires not_negative { pos 0 ≤ℤ times }
    requires small { times ≤ℤ pos (2 ^ 43) }
    requires minute { IsWithinTwoNights minute }
    ensures value { result ≡ minute *ℤ times }
    ensures share { IsShare times result }
{
    minute as i64 * times
}

// the least whole number that is at least n / b
fn ceiling(n: i64, b: i64) -> i64
    requires positive { pos 1 ≤ℤ b }
    requires small { b ≤ℤ pos (2 ^ 43) }
    requires share { IsShare b n }
    ensures value { result ≡ ceiling n b }
    ensures within { IsWithinTwoNights result }
{
    -(-n).div_euclid(b)
}
