// The problems of sunrise and sunset.
ghost use Rattle.std.specs.Prelude.{◌≡◌, ◌≤◌, ◌≤ℤ◌, neg_ℤ, pos, map};
ghost use Rattle.cell_judge.specs.Limits.{AreInLimits};
ghost use Rattle.method_table.specs.Kind.{IsKind};
ghost use Rattle.method_table.specs.Row.{row_of};
ghost use Rattle.night_portion.specs.Sun.{night_rows, repeated, start_of};

use method_table::{Asr, Kind, Method, Problem, Side, horizon, problems};

/// The problems of a day's sunrise and sunset: from when on the sun is above the horizon, up to noon, and from when on it
/// is below it, up to midnight. `day` counts from 1970-01-01, from 1900 to 2100; `offset` is the clock's, in minutes;
/// `noon` is the reference noon, a local minute; `height` is in metres.
pub fn night_problems(day: i32, offset: i32, noon: i32, height: u32) -> [Problem; 2]
    requires day_not_early { neg_ℤ (pos 25567) ≤ℤ day }
    requires day_not_late { day ≤ℤ pos 47846 }
    requires offset_not_low { neg_ℤ (pos 720) ≤ℤ offset }
    requires offset_not_high { offset ≤ℤ pos 840 }
    requires noon_not_negative { pos 0 ≤ℤ noon }
    requires noon_below_a_day { noon ≤ℤ pos 1439 }
    requires height_in_range { height ≤ 9000 }
    ensures rows { map row_of result ≡ night_rows day offset noon height }
    ensures limits { AreInLimits result }
{
    // The end of Fajr has the frame of sunrise, and Maghrib by this method is sunset.
    let [_, before_sunrise, _, _, sunset, ..] = problems(
        Method::Mwl,
        Asr::Standard,
        day,
        offset,
        noon,
        height,
        90,
    );
    let (low, high) = horizon(height);
    [start_of(&before_sunrise, Kind::Above { low, high }), sunset]
}

/// The two problems, repeated to fill the seven places of a sky.
pub fn repeated(sun: &[Problem; 2]) -> [Problem; 7]
    requires { AreInLimits sun.now }
    ensures rows { map row_of result ≡ repeated (map row_of sun.now) }
    ensures limits { AreInLimits result }
{
    let [rise, set] = *sun;
    [rise, set, rise, set, rise, set, rise]
}

// the frame of a problem, with the first minute from which on this condition holds sought
fn start_of(p: &Problem, kind: Kind) -> Problem
    requires { IsKind kind }
    ensures { row_of result ≡ start_of (row_of p.now) kind }
{
    Problem {
        column: p.column,
        side: Side::Start,
        first: p.first,
        last: p.last,
        base: p.base,
        kind,
        shift: p.shift,
    }
}
