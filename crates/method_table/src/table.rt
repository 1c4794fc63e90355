// The table of the methods, and the seven problems that it makes of a day.
ghost use Rattle.std.specs.Prelude.{◌≡◌, ◌≤◌, ◌≤ℤ◌, ◌⊎◌, neg_ℤ, pos, map, IfSome};
ghost use Rattle.method_table.specs.Kind.{IsAngleRange, IsKind};
ghost use Rattle.method_table.specs.Row.{above, below, row, row_of};
ghost use Rattle.method_table.specs.Table.{minutes_east, base_of, exactly, exactly_or, fajr_tenths, isha_shift, isha_tenths, maghrib_tenths, noon_of, rows, shadow_factor};

use crate::method::{Asr, Method};
use crate::problem::Side::{End, Start};
use crate::problem::{Column, Kind, Problem, Side};
use crate::sunset::horizon;

// a tenth of a degree
const TENTH: i64 = 14_400_000_000;

/// The reference noon of a district, a local minute from 0 to 1439: its middle longitude's mean noon
/// to the nearest minute. Longitudes are microdegrees, the offset of the clock is in minutes.
pub fn noon_of(west: i64, east: i64, offset: i32) -> i32
    requires west_not_low { neg_ℤ (pos 360000000) ≤ℤ west }
    requires west_not_high { west ≤ℤ pos 360000000 }
    requires east_not_low { neg_ℤ (pos 360000000) ≤ℤ east }
    requires east_not_high { east ≤ℤ pos 360000000 }
    requires offset_not_low { neg_ℤ (pos 720) ≤ℤ offset }
    requires offset_not_high { offset ≤ℤ pos 840 }
    ensures value { result ≡ noon_of west east offset }
    ensures not_negative { pos 0 ≤ℤ result }
    ensures below_a_day { result ≤ℤ pos 1439 }
{
    (720 + offset as i64 - minutes_east(west, east)).rem_euclid(1440) as i32
}

// by how many minutes the mean noon of the middle longitude comes before that of Greenwich
fn minutes_east(west: i64, east: i64) -> i64
    requires west_not_low { neg_ℤ (pos 360000000) ≤ℤ west }
    requires west_not_high { west ≤ℤ pos 360000000 }
    requires east_not_low { neg_ℤ (pos 360000000) ≤ℤ east }
    requires east_not_high { east ≤ℤ pos 360000000 }
    ensures value { result ≡ minutes_east west east }
    ensures not_low { neg_ℤ (pos 1440) ≤ℤ result }
    ensures not_high { result ≤ℤ pos 1440 }
{
    (west + east + 250_000).div_euclid(500_000)
}

/// The seven problems of a day, in the order of the columns: the manual's table by this method, with
/// Asr by this rule. `day` counts from 1970-01-01, from 1900 to 2100; `offset` is the clock's, in minutes;
/// `noon` is the reference noon; `height` is in metres; `interval` is Isha's after Maghrib for `Makkah`.
pub fn problems(
    m: Method,
    a: Asr,
    day: i32,
    offset: i32,
    noon: i32,
    height: u32,
    interval: i32,
) -> [Problem; 7]
    requires day_not_early { neg_ℤ (pos 25567) ≤ℤ day }
    requires day_not_late { day ≤ℤ pos 47846 }
    requires offset_not_low { neg_ℤ (pos 720) ≤ℤ offset }
    requires offset_not_high { offset ≤ℤ pos 840 }
    requires noon_not_negative { pos 0 ≤ℤ noon }
    requires noon_below_a_day { noon ≤ℤ pos 1439 }
    requires height_in_range { height ≤ 9000 }
    requires interval_known { (interval ≡ pos 90) ⊎ (interval ≡ pos 120) }
    ensures { map row_of result ≡ rows m a day offset noon height interval }
{
    let base = base_of(day, offset);
    let fajr = exactly(fajr_tenths(m));
    let sunset = horizon(height);
    let maghrib = exactly_or(maghrib_tenths(m), sunset);
    let isha = exactly_or(isha_tenths(m), maghrib);
    let shift = isha_shift(m, interval);
    [
        row(Column::Fajr, Start, noon - 720, base, above(fajr), 0),
        row(Column::FajrEnd, End, noon - 720, base, below(sunset), 0),
        row(Column::Dhuhr, Start, noon - 360, base, Kind::Past, 0),
        row(Column::Asr, Start, noon, base, shadow(a), 0),
        row(Column::Maghrib, Start, noon, base, below(maghrib), 0),
        row(Column::MaghribEnd, End, noon, base, above(isha), shift),
        row(Column::Isha, Start, noon, base, below(isha), shift),
    ]
}

fn row(column: Column, side: Side, first: i32, base: i64, kind: Kind, shift: i32) -> Problem
    requires first_not_low { neg_ℤ (pos 720) ≤ℤ first }
    requires first_not_high { first ≤ℤ pos 1439 }
    requires base_not_low { neg_ℤ (pos 53200000) ≤ℤ base }
    requires base_not_high { base ≤ℤ pos 53200000 }
    requires kind_in_range { IsKind kind }
    requires shift_not_negative { pos 0 ≤ℤ shift }
    requires shift_not_high { shift ≤ℤ pos 120 }
    ensures { row_of result ≡ row column side first base kind shift }
{
    Problem {
        column,
        side,
        first,
        last: first + 720,
        base,
        kind,
        shift,
    }
}

fn base_of(day: i32, offset: i32) -> i64
    requires day_not_early { neg_ℤ (pos 25567) ≤ℤ day }
    requires day_not_late { day ≤ℤ pos 47846 }
    requires offset_not_low { neg_ℤ (pos 720) ≤ℤ offset }
    requires offset_not_high { offset ≤ℤ pos 840 }
    ensures value { result ≡ base_of day offset }
    ensures not_low { neg_ℤ (pos 53200000) ≤ℤ result }
    ensures not_high { result ≤ℤ pos 53200000 }
{
    (day as i64 - 10_957) * 1440 - 720 - offset as i64
}

fn above(range: (i64, i64)) -> Kind
    requires { IsAngleRange range.0 range.1 }
    ensures value { result ≡ above range }
    ensures in_range { IsKind result }
{
    Kind::Above {
        low: range.0,
        high: range.1,
    }
}

fn below(range: (i64, i64)) -> Kind
    requires { IsAngleRange range.0 range.1 }
    ensures value { result ≡ below range }
    ensures in_range { IsKind result }
{
    Kind::Below {
        low: range.0,
        high: range.1,
    }
}

fn shadow(a: Asr) -> Kind
    ensures value { result ≡ Kind.Shadow (shadow_factor a) }
    ensures in_range { IsKind result }
{
    match a {
        Asr::Standard => Kind::Shadow { factor: 1 },
        Asr::Hanafi => Kind::Shadow { factor: 2 },
    }
}

fn exactly(tenths: u16) -> (i64, i64)
    requires { tenths ≤ 300 }
    ensures value { result ≡ exactly tenths }
    ensures range { IsAngleRange result.0 result.1 }
{
    let angle = tenths as i64 * TENTH;
    (angle, angle)
}

fn exactly_or(tenths: Option<u16>, other: (i64, i64)) -> (i64, i64)
    requires small { IfSome tenths (λ t. t ≤ 300) }
    requires range { IsAngleRange other.0 other.1 }
    ensures value { result ≡ exactly_or tenths other }
    ensures range { IsAngleRange result.0 result.1 }
{
    match tenths {
        Some(t) => exactly(t),
        None => other,
    }
}

fn fajr_tenths(m: Method) -> u16
    ensures value { result ≡ fajr_tenths m }
    ensures small { result ≤ 300 }
{
    match m {
        Method::Mwl => 180,
        Method::Isna => 150,
        Method::Egypt => 195,
        Method::Karachi => 180,
        Method::Makkah => 185,
        Method::Tehran => 177,
        Method::Jafari => 160,
    }
}

fn maghrib_tenths(m: Method) -> Option<u16>
    ensures value { result ≡ maghrib_tenths m }
    ensures small { IfSome result (λ t. t ≤ 300) }
{
    match m {
        Method::Tehran => Some(45),
        Method::Jafari => Some(40),
        _ => None,
    }
}

fn isha_tenths(m: Method) -> Option<u16>
    ensures value { result ≡ isha_tenths m }
    ensures small { IfSome result (λ t. t ≤ 300) }
{
    match m {
        Method::Mwl => Some(170),
        Method::Isna => Some(150),
        Method::Egypt => Some(175),
        Method::Karachi => Some(180),
        Method::Makkah => None,
        Method::Tehran => Some(140),
        Method::Jafari => Some(140),
    }
}

fn isha_shift(m: Method, interval: i32) -> i32
    requires { (interval ≡ pos 90) ⊎ (interval ≡ pos 120) }
    ensures value { result ≡ isha_shift m interval }
    ensures not_negative { pos 0 ≤ℤ result }
    ensures not_high { result ≤ℤ pos 120 }
{
    match m {
        Method::Makkah => interval,
        _ => 0,
    }
}
