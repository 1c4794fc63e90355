// The minutes of nights beside those of a slow reference program.
ghost use Rattle.std.specs.Prelude.{◌≤◌};
ghost use Rattle.night_portion.specs.Minutes.{safe_rank};

use cell_split::{Entry, root_at};
use method_table::{Asr, Column, Kind, Method, Problem, Side, problems};
use night_portion::{
    NightMinutes, fajr_bound, isha_bound, night_minutes, night_problems, portion, safe_rank,
};
use night_rule::{NightRule, night_rule_of, night_word};
use std::process::Abort;
use std::test::Fail;

#[test]
fn words_name_their_rules(rt: HostRuntime) -> Result<(), Fail> {
    assert_eq!(rt; night_rule_of("half"), Some(NightRule::Half));
    assert_eq!(rt; night_rule_of("seventh"), Some(NightRule::Seventh));
    assert_eq!(rt; night_rule_of("angle"), Some(NightRule::ByAngle));
    assert_eq!(rt; night_rule_of("third"), None);
    assert_eq!(rt; night_word(NightRule::ByAngle), "angle");
    Ok(())
}

#[test]
fn rules_give_their_portions(rt: HostRuntime) -> Result<(), Fail> {
    let angle = 18 * 144_000_000_000;
    assert_eq!(rt; portion(NightRule::Half, angle), (1, 2));
    assert_eq!(rt; portion(NightRule::Seventh, angle), (1, 7));
    assert_eq!(rt;
        portion(NightRule::ByAngle, angle),
        (angle, 60 * 144_000_000_000)
    );
    Ok(())
}

// Sunrise, sunset, the portion's numerator and denominator; the bounds of Fajr and Isha.
const BOUNDS: &[(i32, i32, i64, i64, i32, i32)] = &[
    (235, 1365, 1, 7, 191, 1410),
    (235, 1365, 1, 2, 80, 1520),
    (360, 1087, 1, 7, 259, 1189),
    (0, 1440, 0, 1, 0, 1440),
    (0, 1440, 1, 1, 0, 1440),
    (-4000, 4000, 4_398_046_511_104, 8_796_093_022_208, -720, 720),
    (
        4000,
        -4000,
        8_640_000_000_000,
        8_640_000_000_000,
        -5440,
        5440,
    ),
    (4000, 4000, 0, 8_796_093_022_208, 4000, 4000),
    (88, 2053, 2_448_000_000_000, 8_640_000_000_000, 237, 1905),
    (-572, 1817, 1, 2, -97, 1343),
    (28, 1913, 1, 2, 251, 1691),
    (319, 1159, 1, 2, 19, 1459),
    (-544, 1608, 1, 2, -188, 1252),
    (-228, 905, 2_592_000_000_000, 8_640_000_000_000, -320, 998),
];

fn bounds(rt: &impl Abort, rise: i32, set: i32, a: i64, b: i64) -> (i32, i32) {
    assert!(rt; -4000 <= rise && rise <= 4000);
    assert!(rt; -4000 <= set && set <= 4000);
    assert!(rt; 0 <= a && a <= b);
    assert!(rt; 1 <= b && b <= 8_796_093_022_208);
    (fajr_bound(rise, set, a, b), isha_bound(rise, set, a, b))
}

#[test]
fn portions_are_rounded_up(rt: HostRuntime) -> Result<(), Fail> {
    for case in BOUNDS {
        let (rise, set, a, b, fajr, isha) = *case;
        let found = bounds(&rt, rise, set, a, b);
        assert_eq!(rt; (rise, set, a, b, found), (rise, set, a, b, (fajr, isha)));
    }
    Ok(())
}

// A problem of the last day that is a start, with its frame and its column.
fn expect_start(rt: &impl Abort, p: &Problem, (first, last): (i32, i32), column: Column) {
    assert_eq!(rt; (p.first, p.last, p.shift), (first, last, 0));
    assert_eq!(rt;
        (p.base, p.side, p.column),
        (53_120_160, Side::Start, column)
    );
}

#[test]
fn sunrise_and_sunset_are_starts_at_the_horizon(rt: HostRuntime) -> Result<(), Fail> {
    let [rise, set] = night_problems(47_846, -720, 1439, 12);
    let (low, high) = (137_261_422_950, 137_261_422_951);
    expect_start(&rt, &rise, (719, 1439), Column::FajrEnd);
    expect_start(&rt, &set, (1439, 2159), Column::Maghrib);
    assert_eq!(rt; rise.kind, Kind::Above { low, high });
    assert_eq!(rt; set.kind, Kind::Below { low, high });
    Ok(())
}

// What an entry is, with its ranks.
type Told = (&'static str, u32, u32);

// The method, the rule, the reference noon; the entries of Fajr, Isha, sunrise and sunset; the minutes.
type Night = (
    Method,
    NightRule,
    i32,
    (Told, Told, Told, Told),
    (Option<i32>, Option<i32>),
);

const NEVER: Told = ("never", 0, 0);

const NIGHTS: &[Night] = &[
    (
        Method::Mwl,
        NightRule::Seventh,
        720,
        (
            ("minute", 285, 0),
            ("minute", 438, 0),
            ("minute", 360, 0),
            ("minute", 367, 0),
        ),
        (Some(285), Some(1158)),
    ),
    (
        Method::Mwl,
        NightRule::Half,
        720,
        (
            ("minute", 10, 0),
            ("minute", 700, 0),
            ("minute", 180, 0),
            ("minute", 600, 0),
        ),
        (Some(30), Some(1420)),
    ),
    (
        Method::Mwl,
        NightRule::ByAngle,
        720,
        (
            ("minute", 10, 0),
            ("minute", 700, 0),
            ("minute", 180, 0),
            ("minute", 600, 0),
        ),
        (Some(90), Some(1405)),
    ),
    (
        Method::Mwl,
        NightRule::Seventh,
        720,
        (NEVER, NEVER, ("minute", 160, 0), ("minute", 640, 0)),
        (None, Some(1395)),
    ),
    (
        Method::Mwl,
        NightRule::Seventh,
        720,
        (
            ("minute", 80, 0),
            ("minute", 690, 0),
            NEVER,
            ("minute", 640, 0),
        ),
        (None, Some(1410)),
    ),
    (
        Method::Mwl,
        NightRule::Seventh,
        720,
        (("minute", 80, 0), NEVER, ("minute", 160, 0), NEVER),
        (None, None),
    ),
    (
        Method::Makkah,
        NightRule::Half,
        720,
        (
            ("minute", 80, 0),
            ("minute", 600, 0),
            ("minute", 160, 0),
            ("minute", 560, 0),
        ),
        (Some(80), Some(1410)),
    ),
    (
        Method::Makkah,
        NightRule::Half,
        720,
        (
            ("minute", 80, 0),
            NEVER,
            ("minute", 160, 0),
            ("minute", 560, 0),
        ),
        (Some(80), None),
    ),
    (
        Method::Mwl,
        NightRule::Half,
        0,
        (
            ("whole", 0, 0),
            ("minute", 720, 0),
            ("whole", 0, 0),
            ("whole", 0, 0),
        ),
        (Some(-720), Some(360)),
    ),
    (
        Method::Egypt,
        NightRule::Half,
        1439,
        (
            ("minute", 700, 0),
            ("minute", 719, 0),
            ("minute", 720, 0),
            ("minute", 720, 0),
        ),
        (Some(1419), Some(2158)),
    ),
    (
        Method::Jafari,
        NightRule::ByAngle,
        1439,
        (
            ("open", 721, 3),
            ("open", 720, 3),
            ("minute", 100, 0),
            ("minute", 700, 0),
        ),
        (None, Some(2159)),
    ),
    (
        Method::Tehran,
        NightRule::ByAngle,
        700,
        (
            ("open", 30, 3),
            ("open", 700, 650),
            ("open", 100, 0),
            ("open", 650, 640),
        ),
        (Some(30), Some(1390)),
    ),
];

fn entry_of(rt: &impl Abort, told: Told) -> Entry
    ensures { safe_rank result ≤ 721 }
{
    let (word, safe, from) = told;
    let entry = match word {
        "minute" => Entry::Minute { rank: safe },
        "whole" => Entry::Whole,
        "never" => Entry::Never,
        _ => Entry::Open {
            safe,
            from,
            cell: root_at(0, 0),
        },
    };
    assert!(rt; safe_rank(&entry) <= 721);
    entry
}

fn minutes_of(
    rt: &impl Abort,
    method: Method,
    rule: NightRule,
    noon: i32,
    entries: (Told, Told, Told, Told),
) -> NightMinutes {
    assert!(rt; 0 <= noon && noon <= 1439);
    let problems = problems(method, Asr::Standard, 10_957, 0, noon, 0, 90);
    let sun = night_problems(10_957, 0, noon, 0);
    let fajr = entry_of(rt, entries.0);
    let isha = entry_of(rt, entries.1);
    let all = [
        fajr,
        Entry::Never,
        Entry::Whole,
        Entry::Never,
        Entry::Whole,
        Entry::Never,
        isha,
    ];
    let of_sun = [entry_of(rt, entries.2), entry_of(rt, entries.3)];
    night_minutes(rule, method, &problems, &all, &sun, &of_sun)
}

#[test]
fn nights_have_the_minutes_of_the_reference(rt: HostRuntime) -> Result<(), Fail> {
    for night in NIGHTS {
        let (method, rule, noon, entries, (fajr, isha)) = *night;
        assert_eq!(rt;
            minutes_of(&rt, method, rule, noon, entries),
            NightMinutes { fajr, isha }
        );
    }
    Ok(())
}
