// The two minutes of a night.
ghost use Rattle.std.specs.Prelude.{◌≡◌, ◌*◌, ◌≤◌, All, IfSome, map, pos, ◌≤ℤ◌};
ghost use Rattle.method_table.specs.Kind.{DEGREE, IsKind};
ghost use Rattle.method_table.specs.Row.{row_of};
ghost use Rattle.night_portion.specs.Bounds.{IsNear, IsPortion, portion};
ghost use Rattle.night_portion.specs.Minutes.{after, angle_of, earlier, fajr_by, fajr_minute, isha_by, isha_limit, isha_minute, night_of, safe_minute, safe_rank};

use crate::bound::{fajr_bound, isha_bound, portion};
use cell_split::Entry;
use method_table::{Kind, Method, Problem, minute_of};
use night_rule::NightRule;

/// The rank from which on an entry's ranks are safe, from 0 to 720; 721 for none.
pub fn safe_rank(e: &Entry) -> u32
    ensures { result ≡ safe_rank e.now }
{
    match e {
        Entry::Minute { rank } => *rank,
        Entry::Whole => 0,
        Entry::Never => 721,
        Entry::Open { safe, .. } => *safe,
    }
}

/// What is printed of a night: local minutes of the civil day's clock, `None` where no rank is known to be safe.
#[derive(Clone, Copy, Debug, PartialEq, Eq)]
pub struct NightMinutes {
    pub fajr: Option<i32>,
    pub isha: Option<i32>,
}

/// The two minutes of a day's night: by the entries of its seven problems, and by those of its sunrise and sunset.
pub fn night_minutes(
    rule: NightRule,
    method: Method,
    problems: &[Problem; 7],
    entries: &[Entry; 7],
    sun: &[Problem; 2],
    sun_entries: &[Entry; 2],
) -> NightMinutes
    requires in_frame { All (λ e. safe_rank e ≤ 721) entries.now }
    requires sun_in_frame { All (λ e. safe_rank e ≤ 721) sun_entries.now }
    ensures fajr { result.fajr ≡ fajr_minute rule (night_of (map row_of problems.now) entries.now (map row_of sun.now) sun_entries.now) }
    ensures isha { result.isha ≡ isha_minute rule method (night_of (map row_of problems.now) entries.now (map row_of sun.now) sun_entries.now) }
{
    let fajr = safe_minute(&problems[0], &entries[0]);
    let isha = safe_minute(&problems[6], &entries[6]);
    let rise = safe_minute(&sun[0], &sun_entries[0]);
    let set = safe_minute(&sun[1], &sun_entries[1]);
    NightMinutes {
        fajr: fajr_by(portion_of(rule, &problems[0]), fajr, rise, set),
        isha: isha_by(
            method,
            problems[6].shift,
            portion_of(rule, &problems[6]),
            isha,
            rise,
            set,
        ),
    }
}

// the local minute of an entry's safe rank, without the shift
fn safe_minute(p: &Problem, e: &Entry) -> Option<i32>
    requires { safe_rank e.now ≤ 721 }
    ensures value { result ≡ safe_minute (row_of p.now, e.now) }
    ensures bounded { IfSome result IsNear }
{
    let rank = safe_rank(e);
    if rank == 721 {
        None
    } else {
        Some(minute_of(p, rank))
    }
}

// the part of the night that a rule gives to a prayer
fn portion_of(rule: NightRule, p: &Problem) -> (i64, i64)
    ensures value { result ≡ portion rule (angle_of p.now.kind) }
    ensures part { IsPortion result.0 result.1 }
{
    portion(rule, angle_of(p.kind))
}

// the angle of a condition, in angle units
fn angle_of(kind: Kind) -> i64
    requires { IsKind kind }
    ensures value { result ≡ angle_of kind }
    ensures not_negative { pos 0 ≤ℤ result }
    ensures small { result ≤ℤ pos (30 * DEGREE) }
{
    match kind {
        Kind::Above { low, .. } => low,
        Kind::Below { low, .. } => low,
        Kind::Past | Kind::Shadow { .. } => 0,
    }
}

// the later of Fajr's own minute and its portion's
fn fajr_by(part: (i64, i64), fajr: Option<i32>, rise: Option<i32>, set: Option<i32>) -> Option<i32>
    requires part { IsPortion part.0 part.1 }
    requires rise { IfSome rise IsNear }
    requires set { IfSome set IsNear }
    ensures { result ≡ fajr_by part fajr rise set }
{
    match (fajr, rise, set) {
        (Some(fajr), Some(rise), Some(set)) => Some(fajr.max(fajr_bound(
            rise, set, part.0, part.1,
        ))),
        _ => None,
    }
}

// the earlier of Isha's own minute and its portion's; or its own after an interval
fn isha_by(
    method: Method,
    interval: i32,
    part: (i64, i64),
    isha: Option<i32>,
    rise: Option<i32>,
    set: Option<i32>,
) -> Option<i32>
    requires part { IsPortion part.0 part.1 }
    requires isha { IfSome isha IsNear }
    requires rise { IfSome rise IsNear }
    requires set { IfSome set IsNear }
    requires not_negative { pos 0 ≤ℤ interval }
    requires not_long { interval ≤ℤ pos 120 }
    ensures { result ≡ isha_by method interval part isha rise set }
{
    match method {
        Method::Makkah => after(interval, isha),
        _ => earlier(isha, isha_limit(part, rise, set)),
    }
}

// the minute of Isha's portion
fn isha_limit(part: (i64, i64), rise: Option<i32>, set: Option<i32>) -> Option<i32>
    requires part { IsPortion part.0 part.1 }
    requires rise { IfSome rise IsNear }
    requires set { IfSome set IsNear }
    ensures { result ≡ isha_limit part rise set }
{
    match (rise, set) {
        (Some(rise), Some(set)) => Some(isha_bound(rise, set, part.0, part.1)),
        _ => None,
    }
}

fn earlier(a: Option<i32>, b: Option<i32>) -> Option<i32>
    ensures { result ≡ earlier a b }
{
    match (a, b) {
        (Some(a), Some(b)) => Some(a.min(b)),
        (Some(a), None) => Some(a),
        (None, b) => b,
    }
}

fn after(interval: i32, minute: Option<i32>) -> Option<i32>
    requires minute { IfSome minute IsNear }
    requires not_negative { pos 0 ≤ℤ interval }
    requires not_long { interval ≤ℤ pos 120 }
    ensures { result ≡ after interval minute }
{
    match minute {
        Some(minute) => Some(minute + interval),
        None => None,
    }
}
