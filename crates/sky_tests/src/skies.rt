// Verdicts of skies beside those of a slow reference program and the worked table of one place.
ghost use Rattle.std.specs.Prelude.{neg_ℤ, pos, ◌≤◌, ◌≤ℤ◌};
ghost use Rattle.cell_judge.specs.Limits.{AreInLimits};

use cell_judge::{MeeusSky, Sky};
use cell_split::{Cell, Judge, Task, Verdict, root_at, within};
use district_set::SetSky;
use method_table::{Asr, Method, Problem, SunChoice, problems};
use night_portion::{Few, night_problems, repeated};
use region::{District, RegionFault};
use std::alloc::{AllocError, Global};
use std::process::Abort;
use std::test::Fail;

// 2000-01-01, counted from 1970-01-01.
const DAY: i32 = 10_957;

// One place, 0.1 degrees east on the equator, as a ring of four equal positions.
const POINT: &[&[(i64, i64)]] = &[&[(100_000, 0), (100_000, 0), (100_000, 0), (100_000, 0)]];

// A square of four degrees with a hole of two.
const SQUARE: &[&[(i64, i64)]] = &[
    &[
        (0, 0),
        (4_000_000, 0),
        (4_000_000, 4_000_000),
        (0, 4_000_000),
        (0, 0),
    ],
    &[
        (1_000_000, 1_000_000),
        (3_000_000, 1_000_000),
        (3_000_000, 3_000_000),
        (1_000_000, 3_000_000),
        (1_000_000, 1_000_000),
    ],
];

fn district(alloc: Global, rings: &[&[(i64, i64)]]) -> Result<District, RegionFault> {
    let mut copies = Vec::new(alloc);
    for ring in rings {
        copies.push(ring.to_vec(alloc)?)?;
    }
    let mut polygons = Vec::new(alloc);
    polygons.push(copies)?;
    District::new(alloc, polygons)
}

// The day's problems by the Muslim World League, at Greenwich.
fn problems_of(day: i32, noon: i32) -> [Problem; 7]
    requires not_early { neg_ℤ (pos 25567) ≤ℤ day }
    requires not_late { day ≤ℤ pos 47846 }
    requires not_negative { pos 0 ≤ℤ noon }
    requires below_a_day { noon ≤ℤ pos 1439 }
    ensures { AreInLimits result }
{
    problems(Method::Mwl, Asr::Standard, day, 0, noon, 0, 90)
}

fn judged<J: Judge>(rt: &impl Abort, judge: &J, problem: u32, cell: Cell) -> Verdict {
    assert!(rt; problem < judge.problems());
    assert!(rt; within(&cell, &judge.root()));
    judge.judge(Task { problem, cell })
}

const NOTHING: (i128, i128, i128) = (0, 0, 0);

// What the verdict is, with its point.
fn told(verdict: Verdict) -> (&'static str, (i128, i128, i128)) {
    match verdict {
        Verdict::Outside => ("outside", NOTHING),
        Verdict::Proved => ("proved", NOTHING),
        Verdict::Refuted(p) => ("refuted", (p.a, p.b, p.d)),
        Verdict::Split => ("split", NOTHING),
        Verdict::Open(p) => ("open", (p.a, p.b, p.d)),
    }
}

/// The sky of a district at Greenwich, on this day and with this reference noon.
fn sky_of(alloc: Global, rings: &[&[(i64, i64)]], day: i32, noon: i32) -> Result<Sky, Fail>
    requires not_early { neg_ℤ (pos 25567) ≤ℤ day }
    requires not_late { day ≤ℤ pos 47846 }
    requires not_negative { pos 0 ≤ℤ noon }
    requires below_a_day { noon ≤ℤ pos 1439 }
{
    let district = district(alloc, rings)?;
    Ok(Sky::new(alloc, district, problems_of(day, noon))?)
}

/// The cell is judged so, wherever its point is.
fn expect_word<J: Judge>(rt: &impl Abort, judge: &J, problem: u32, cell: Cell, word: &str) {
    let (found, _) = told(judged(rt, judge, problem, cell));
    assert_eq!(rt; (problem, found), (problem, word));
}

/// The cell is judged so, with this point.
fn expect_told<J: Judge>(
    rt: &impl Abort,
    judge: &J,
    problem: u32,
    cell: Cell,
    wanted: (&str, (i128, i128, i128)),
) {
    let found = told(judged(rt, judge, problem, cell));
    let (x, y) = (cell.x, cell.y);
    assert_eq!(rt; (problem, x, y, found), (problem, x, y, wanted));
}

/// The judge's root is that over the one place.
fn expect_root<J: Judge>(rt: &impl Abort, judge: &J) {
    assert_eq!(rt; judge.root(), root_at(100_000, 0));
}

/// The smallest cell over the one place, at this rank.
fn cell_of_point(rank: u32) -> Cell {
    Cell {
        size: 4,
        first: rank,
        last: rank,
        ..root_at(100_000, 0)
    }
}

/// The ranks of 04:45, 05:59, 12:03, 15:29, 18:07, 19:17 and 19:18.
const RANKS: [(u32, u32); 7] = [
    (0, 285),
    (1, 361),
    (2, 363),
    (3, 209),
    (4, 367),
    (5, 283),
    (6, 438),
];

#[test]
fn one_place_is_judged_as_its_table_says(rt: HostRuntime) -> Result<(), Fail> {
    let sky = sky_of(rt.alloc(), POINT, DAY, 720)?;
    expect_root(&rt, &sky);
    assert_eq!(rt; sky.problems(), 7);
    assert_eq!(rt; sky.district().positions(), 4);
    for (problem, rank) in &RANKS {
        expect_word(&rt, &sky, *problem, root_at(100_000, 0), "split");
        holds_from(&rt, &sky, *problem, *rank);
    }
    Ok(())
}

// At this rank the place's own cell is proved, and at the one before it is refuted.
fn holds_from<J: Judge>(rt: &impl Abort, judge: &J, problem: u32, rank: u32) {
    assert!(rt; 1 <= rank);
    let place = cell_of_point(rank);
    let before = cell_of_point(rank - 1);
    expect_told(rt, judge, problem, place, ("proved", NOTHING));
    expect_told(rt, judge, problem, before, ("refuted", (12_800_000, 0, 1)));
}

// A problem, a cell by its corner, size and ranks, and the verdict with its point.
type Case = (
    u32,
    (i64, i64, u8),
    (u32, u32),
    &'static str,
    (i128, i128, i128),
);

// As a slow reference program answers for the square with a hole.
const CASES: &[Case] = &[
    // The root and large boxes that tile it.
    (0, (0, 0, 29), (0, 720), "split", NOTHING),
    (
        2,
        (268_435_456, 268_435_456, 28),
        (0, 99),
        "refuted",
        (
            262_144_000_000_000_000,
            137_438_953_472_000_000,
            512_000_000,
        ),
    ),
    (2, (0, 134_217_728, 27), (700, 720), "proved", NOTHING),
    (
        0,
        (251_658_240, 251_658_240, 24),
        (0, 720),
        "outside",
        NOTHING,
    ),
    // One beyond the district's greatest longitude.
    (0, (520_093_696, 0, 24), (0, 720), "outside", NOTHING),
    // Large boxes that don't.
    (
        0,
        (251_658_241, 251_658_240, 24),
        (0, 5),
        "outside",
        NOTHING,
    ),
    (
        0,
        (251_658_241, 16_777_213, 24),
        (0, 5),
        "refuted",
        (251_658_241, 16_777_213, 1),
    ),
    // Small boxes in one strip, and across two.
    (
        0,
        (503_316_480, 511_705_080, 10),
        (700, 720),
        "proved",
        NOTHING,
    ),
    (
        0,
        (127_999_995, 256_000_000, 4),
        (0, 0),
        "refuted",
        (32_768_000_000_000_000, 65_536_000_000_000_000, 256_000_000),
    ),
    (
        0,
        (0, 8_388_600, 4),
        (0, 0),
        "refuted",
        (0, 4_294_963_200_000_000, 512_000_000),
    ),
    (0, (0, 8_388_600, 4), (720, 720), "proved", NOTHING),
    // For each problem smallest cells beside each other where its value is zero.
    (
        0,
        (501_053_488, 48, 4),
        (277, 277),
        "refuted",
        (501_053_488, 48, 1),
    ),
    (
        0,
        (501_053_504, 48, 4),
        (277, 277),
        "open",
        (501_053_504, 48, 1),
    ),
    (0, (501_053_520, 48, 4), (277, 277), "proved", NOTHING),
    (1, (18_014_368, 48, 4), (353, 353), "proved", NOTHING),
    (
        1,
        (18_014_384, 48, 4),
        (353, 353),
        "open",
        (18_014_384, 48, 1),
    ),
    (
        1,
        (18_014_400, 48, 4),
        (353, 353),
        "refuted",
        (18_014_400, 48, 1),
    ),
    (
        2,
        (489_575_088, 48, 4),
        (356, 356),
        "refuted",
        (489_575_088, 48, 1),
    ),
    (
        2,
        (489_575_104, 48, 4),
        (356, 356),
        "open",
        (489_575_104, 48, 1),
    ),
    (2, (489_575_120, 48, 4), (356, 356), "proved", NOTHING),
    (
        3,
        (508_347_616, 48, 4),
        (201, 201),
        "refuted",
        (508_347_616, 48, 1),
    ),
    (
        3,
        (508_347_632, 48, 4),
        (201, 201),
        "open",
        (508_347_632, 48, 1),
    ),
    (3, (508_347_680, 48, 4), (201, 201), "proved", NOTHING),
    (
        4,
        (481_250_144, 48, 4),
        (360, 360),
        "refuted",
        (481_250_144, 48, 1),
    ),
    (
        4,
        (481_250_160, 48, 4),
        (360, 360),
        "open",
        (481_250_160, 48, 1),
    ),
    (4, (481_250_176, 48, 4), (360, 360), "proved", NOTHING),
    (5, (16_910_368, 48, 4), (275, 275), "proved", NOTHING),
    (
        5,
        (16_910_384, 48, 4),
        (275, 275),
        "open",
        (16_910_384, 48, 1),
    ),
    (
        5,
        (16_910_400, 48, 4),
        (275, 275),
        "refuted",
        (16_910_400, 48, 1),
    ),
    (
        6,
        (496_768_304, 48, 4),
        (430, 430),
        "refuted",
        (496_768_304, 48, 1),
    ),
    (
        6,
        (496_768_336, 48, 4),
        (430, 430),
        "open",
        (496_768_336, 48, 1),
    ),
    (6, (496_768_352, 48, 4), (430, 430), "proved", NOTHING),
];

#[test]
fn cells_are_judged_as_by_the_reference(rt: HostRuntime) -> Result<(), Fail> {
    let sky = sky_of(rt.alloc(), SQUARE, DAY, 712)?;
    for case in CASES {
        let (problem, (x, y, size), (first, last), word, point) = *case;
        let cell = Cell {
            x,
            y,
            size,
            first,
            last,
        };
        expect_told(&rt, &sky, problem, cell, (word, point));
    }
    Ok(())
}

#[test]
fn a_sky_turns_to_another_day(rt: HostRuntime) -> Result<(), Fail> {
    let mut sky = sky_of(rt.alloc(), POINT, DAY, 720)?;
    let noon = cell_of_point(363);
    expect_root(&rt, &sky);
    expect_word(&rt, &sky, 2, noon, "proved");
    // Half a year later the sun passes the meridian a minute later.
    sky.turn_to(problems_of(DAY + 180, 720));
    expect_word(&rt, &sky, 2, noon, "refuted");
    assert_eq!(rt; sky.problem(2).base, 180 * 1440 - 720);
    expect_root(&rt, &sky);
    Ok(())
}

// Two weeks on, Isha is at 19:23 by the sun of the observatory and at 19:22 by that of Meeus: ranks 443 and 442.
#[test]
fn the_sky_of_meeus_judges_otherwise(rt: HostRuntime) -> Result<(), Fail> {
    let sky = sky_of(rt.alloc(), POINT, DAY + 14, 720)?;
    holds_from(&rt, &sky, 6, 443);
    holds_from(&rt, &sky.under(SunChoice::Meeus), 6, 442);
    let place = district(rt.alloc(), POINT)?;
    let meeus = MeeusSky::new(rt.alloc(), place, problems_of(DAY + 14, 720))?;
    assert_eq!(rt; meeus.district().positions(), 4);
    holds_from(&rt, &meeus, 6, 442);
    Ok(())
}

/// The sky of Meeus over the one place, with the root that is given.
fn meeus_sky_in(rt: &(impl Abort + AllocGlobal)) -> Result<MeeusSky, Fail> {
    let place = district(rt.alloc(), POINT)?;
    assert!(rt; place.west() == 100_000);
    assert!(rt; place.east() == 100_000);
    assert!(rt; place.south() == 0);
    assert!(rt; place.north() == 0);
    let root = root_at(100_000, 0);
    let problems = problems_of(DAY, 720);
    Ok(MeeusSky::new_in(rt.alloc(), place, problems, root)?)
}

#[test]
fn the_sky_of_meeus_turns_to_another_day(rt: HostRuntime) -> Result<(), Fail> {
    let mut sky = meeus_sky_in(&rt)?;
    expect_root(&rt, &sky);
    holds_from(&rt, &sky, 6, 438);
    sky.turn_to(problems_of(DAY + 14, 720));
    assert_eq!(rt; sky.problem(6).base, 14 * 1440 - 720);
    holds_from(&rt, &sky, 6, 442);
    Ok(())
}

#[test]
fn sunrise_and_sunset_are_judged_as_the_first_of_a_sky(rt: HostRuntime) -> Result<(), Fail> {
    let mut sky = sky_of(rt.alloc(), POINT, DAY, 720)?;
    sky.turn_to(repeated(&night_problems(DAY, 0, 720, 0)));
    assert!(rt; 2 <= sky.problems());
    let few = Few::new(&sky, 2);
    assert_eq!(rt; few.problems(), 2);
    assert_eq!(rt; few.root(), sky.root());
    // The ranks of 06:00 and 18:07.
    holds_from(&rt, &few, 0, 360);
    holds_from(&rt, &few, 1, 367);
    Ok(())
}

// The verdict of two judges as one, without its point.
fn expect_of_two<J: Judge>(rt: &impl Abort, judges: &[J; 2], problem: u32, cell: Cell, word: &str) {
    assert!(rt; judges[0].problems() == 7 && judges[1].problems() == 7);
    assert!(rt; judges[0].root() == judges[1].root());
    expect_word(rt, &SetSky::new(judges), problem, cell, word);
}

#[test]
fn each_problem_of_a_set_is_judged_by_its_own_sky(rt: HostRuntime) -> Result<(), Fail> {
    let skies = [
        sky_of(rt.alloc(), POINT, DAY, 720)?,
        sky_of(rt.alloc(), POINT, DAY + 180, 720)?,
    ];
    expect_of_two(&rt, &skies, 2, cell_of_point(363), "proved");
    expect_of_two(&rt, &skies, 9, cell_of_point(363), "refuted");
    Ok(())
}

// A square of a thousandth of a degree whose least longitude is this.
fn square(alloc: Global, west: i64) -> Result<Vec<Vec<(i64, i64)>>, AllocError>
    requires low { pos 0 ≤ℤ west }
    requires high { west ≤ℤ pos 2000000 }
{
    let east = west + 1_000;
    let ring = [
        (west, 0),
        (east, 0),
        (east, 1_000),
        (west, 1_000),
        (west, 0),
    ];
    Ok(vec![in alloc; ring.to_vec(alloc)?]?)
}

// So many of these squares beside each other on the equator, as far apart.
fn squares(alloc: Global, count: u32) -> Result<District, RegionFault>
    requires { count ≤ 1000 }
{
    let mut polygons = Vec::new(alloc);
    for i in 0..count {
        polygons.push(square(alloc, i64::from(i) * 2_000)?)?;
    }
    District::new(alloc, polygons)
}

// The smallest cell of this corner, at the last rank.
fn last_cell(x: i64) -> Cell {
    Cell {
        x,
        y: 64_000,
        size: 4,
        first: 720,
        last: 720,
    }
}

#[test]
fn each_of_a_hundred_polygons_is_judged(rt: HostRuntime) -> Result<(), Fail> {
    let place = squares(rt.alloc(), 100)?;
    let sky = Sky::new(rt.alloc(), place, problems_of(DAY, 720))?;
    assert_eq!(rt; sky.district().polygon_count(), 100);
    for i in 0..100 {
        let x = i64::from(i) * 256_000 + 64_000;
        expect_told(&rt, &sky, 0, last_cell(x), ("proved", NOTHING));
        expect_told(&rt, &sky, 0, last_cell(x + 128_000), ("outside", NOTHING));
    }
    Ok(())
}
