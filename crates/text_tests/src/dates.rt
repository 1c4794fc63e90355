// Worked rows of zones and lines.
ghost use Rattle.std.specs.Prelude.{pos, ◌≡◌, ◌≤ℤ◌};
ghost use Rattle.year_table.specs.Entries.{IsInFrame};

use cell_split::{Cell, Entry};
use method_table::{Asr, Method, Problem, problems};
use no_memory::NoMemory;
use std::alloc::Global;
use std::process::Abort;
use std::test::Fail;
use year_table::{
    SunChoice, Zone, date_text, day_line, day_offset, end_line, entry_text, night_line, open_line,
    read_rule, sun_word, table_head,
};

// rule, day since 1970-01-01, offset in minutes
const OFFSETS: [(&str, i32, Option<i32>); 82] = [
    ("CET-1CEST,M3.5.0,M10.5.0/3", 20176, Some(60)),
    ("CET-1CEST,M3.5.0,M10.5.0/3", 20177, Some(120)),
    ("CET-1CEST,M3.5.0,M10.5.0/3", 20386, Some(120)),
    ("CET-1CEST,M3.5.0,M10.5.0/3", 20387, Some(60)),
    ("CET-1CEST,M3.5.0,M10.5.0/3", 10957, Some(60)),
    ("EST5EDT,M3.2.0,M11.1.0", 20155, Some(-300)),
    ("EST5EDT,M3.2.0,M11.1.0", 20156, Some(-240)),
    ("EST5EDT,M3.2.0,M11.1.0", 20393, Some(-240)),
    ("EST5EDT,M3.2.0,M11.1.0", 20394, Some(-300)),
    ("AEST-10AEDT,M10.1.0,M4.1.0/3", 20183, Some(660)),
    ("AEST-10AEDT,M10.1.0,M4.1.0/3", 20184, Some(600)),
    ("AEST-10AEDT,M10.1.0,M4.1.0/3", 20365, Some(600)),
    ("AEST-10AEDT,M10.1.0,M4.1.0/3", 20366, Some(660)),
    ("AEST-10AEDT,M10.1.0,M4.1.0/3", -7124, Some(600)),
    ("NZST-12NZDT,M9.5.0,M4.1.0/3", 20183, Some(780)),
    ("NZST-12NZDT,M9.5.0,M4.1.0/3", 20184, Some(720)),
    ("NZST-12NZDT,M9.5.0,M4.1.0/3", 20358, Some(720)),
    ("NZST-12NZDT,M9.5.0,M4.1.0/3", 20359, Some(780)),
    ("<+03>-3", 20260, Some(180)),
    ("<-03>3", 20260, Some(-180)),
    ("<+0330>-3:30", 3287, Some(210)),
    ("<+0545>-5:45", 47846, Some(345)),
    ("IST-5:30", -25567, Some(330)),
    ("LMT-0:00:30", 20089, None),
    ("LMT-0:30:30", 20089, None),
    ("UTC0", 20089, Some(0)),
    ("HST12", 20089, Some(-720)),
    ("AAA12:01", 20089, None),
    ("LIN-14", 20089, Some(840)),
    ("AAA-14:01", 20089, None),
    ("AAA24", 20089, None),
    ("IST-2IDT,M3.4.4/26,M10.5.0", 20174, Some(120)),
    ("IST-2IDT,M3.4.4/26,M10.5.0", 20175, Some(180)),
    ("IST-2IDT,M3.4.4/26,M10.5.0", 20387, Some(120)),
    ("EET-2EEST,M3.5.0/0,M10.5.0/0", 20177, Some(180)),
    ("EET-2EEST,M3.5.0/0,M10.5.0/0", 20387, Some(120)),
    ("<-02>2<-01>,M3.5.0/-1,M10.5.0/0", 20176, Some(-120)),
    ("<-02>2<-01>,M3.5.0/-1,M10.5.0/0", 20177, Some(-60)),
    ("<-02>2<-01>,M3.5.0/-1,M10.5.0/0", 20386, Some(-60)),
    ("<-02>2<-01>,M3.5.0/-1,M10.5.0/0", 20387, Some(-120)),
    ("XXX3YYY,J60,J300", 19782, Some(-180)),
    ("XXX3YYY,J60,J300", 19783, Some(-120)),
    ("XXX3YYY,J60,J300", 19416, Some(-180)),
    ("XXX3YYY,J60,J300", 19417, Some(-120)),
    ("XXX3YYY,J60,J300", 20022, Some(-120)),
    ("XXX3YYY,J60,J300", 20023, Some(-180)),
    ("XXX3YYY,59,299", 19781, Some(-180)),
    ("XXX3YYY,59,299", 19782, Some(-120)),
    ("XXX3YYY,59,299", 19417, Some(-120)),
    ("XXX3YYY,59,299", 19416, Some(-180)),
    ("XXX3YYY,59,299", 20022, Some(-180)),
    ("XXX3YYY,0/0,J365/23", 19723, Some(-120)),
    ("XXX3YYY,0/0,J365/23", 20087, Some(-120)),
    ("XXX3YYY,0/0,J365/23", 20088, Some(-120)),
    ("XXX3YYY,0/0,365/23", 19722, Some(-120)),
    ("XXX3YYY,0/0,365/23", 20088, Some(-120)),
    ("GAP-1PAG,M3.5.0/11:30,M10.5.0/13", 20176, Some(60)),
    ("GAP-1PAG,M3.5.0/11:30,M10.5.0/13", 20177, Some(60)),
    ("GAP-1PAG,M3.5.0/11:30,M10.5.0/13", 20178, Some(120)),
    ("GAP-1PAG,M3.5.0/11:30,M10.5.0/13", 20386, Some(120)),
    ("GAP-1PAG,M3.5.0/11:30,M10.5.0/13", 20387, Some(120)),
    ("GAP-1PAG,M3.5.0/11:30,M10.5.0/13", 20388, Some(60)),
    ("FLD-1DLF,M3.5.0/11:30,M10.5.0/12:30", 20387, Some(120)),
    ("FLD-1DLF,M3.5.0/11:30,M10.5.0/12:30", 20177, Some(60)),
    ("IST-1GMT0,M10.5.0,M3.5.0/1", 20176, Some(0)),
    ("IST-1GMT0,M10.5.0,M3.5.0/1", 20177, Some(60)),
    ("IST-1GMT0,M10.5.0,M3.5.0/1", 20386, Some(60)),
    ("IST-1GMT0,M10.5.0,M3.5.0/1", 20387, Some(0)),
    ("NEG-1GEN0,M10.5.0/12:30,M3.5.0/11:30", 20177, Some(0)),
    ("NEG-1GEN0,M10.5.0/12:30,M3.5.0/11:30", 20387, Some(60)),
    ("NEG-1GEN0,M10.5.0/12:30,M3.5.0/11:30", 20423, Some(0)),
    ("AAA-1BBB-1,M3.5.0,M10.5.0", 20240, Some(60)),
    ("AAA-1BBB-2:00:30,M3.5.0,M10.5.0", 20240, None),
    ("AAA-1BBB-2:00:30,M3.5.0,M10.5.0", 20089, Some(60)),
    ("AAA-1BBB-2,M3.5.0/167,M10.5.0/-167", 20183, Some(60)),
    ("AAA-1BBB-2,M3.5.0/167,M10.5.0/-167", 20184, Some(120)),
    ("AAA-1BBB-2,M3.5.0/167,M10.5.0/-167", 20379, Some(120)),
    ("AAA-1BBB-2,M3.5.0/167,M10.5.0/-167", 20380, Some(60)),
    ("AAA0BBB,M1.1.1,M12.5.6", 20093, Some(0)),
    ("AAA0BBB,M1.1.1,M12.5.6", 20094, Some(60)),
    ("AAA0BBB,M1.1.1,M12.5.6", 20448, Some(60)),
    ("AAA0BBB,M1.1.1,M12.5.6", 20449, Some(0)),
];

// the offset of a rule on a day of the table
fn offset_of(rt: &impl Abort, alloc: Global, text: &str, day: i32) -> Result<Option<i32>, Fail> {
    assert!(rt; -25_567 <= day && day <= 47_846);
    let rule = read_rule(alloc, text)?;
    assert_eq!(rt; rule.rule_text(), text);
    Ok(day_offset(&Zone::Rule { rule }, day)?)
}

// a rule, a day and what was found of them are these
fn expect_offset(
    rt: &impl Abort,
    found: (&str, i32, Option<i32>),
    wanted: (&str, i32, Option<i32>),
) {
    assert_eq!(rt; found, wanted);
}

#[test]
fn rules_give_the_offset_at_noon(rt: HostRuntime) -> Result<(), Fail> {
    for (text, day, offset) in &OFFSETS {
        let found = offset_of(&rt, rt.alloc(), text, *day)?;
        expect_offset(&rt, (text, *day, found), (text, *day, *offset));
    }
    Ok(())
}

const NO_RULES: [&str; 13] = [
    "",
    "CET",
    "CET-1CEST",
    "CET-25",
    "AB0",
    "ABCDEFGHIJKLMNOP0",
    "CET-1CEST,M13.5.0,M10.5.0",
    "CET-1CEST,M3.5.0,M10.5.0/168",
    "CET-1CEST,J0,J365",
    "CET-1 ",
    "<A\"B>0",
    "Europe/Berlin",
    "CET-1CEST,M3.5.0/002:00:00,M10.5.0/0000000000000000000000000000000000000",
];

#[test]
fn other_texts_are_no_rules(rt: HostRuntime) {
    for text in &NO_RULES {
        assert!(rt; read_rule(rt.alloc(), text).is_err(), "{text}");
    }
}

// offsets in minutes, where they are in the range
const FIXED: [(i32, Option<i32>); 4] = [
    (840, Some(840)),
    (841, None),
    (-720, Some(-720)),
    (-721, None),
];

#[test]
fn fixed_zones_have_a_range(rt: HostRuntime) {
    for (minutes, offset) in &FIXED {
        let zone = Zone::Fixed { minutes: *minutes };
        assert_eq!(rt; day_offset(&zone, 0), Ok(*offset));
    }
}

/// A call wrote this text.
fn expect_text(rt: &impl Abort, got: Result<Vec<u8>, NoMemory>, want: &str) -> Result<(), Fail> {
    let got = got?;
    assert_eq!(rt; got.as_slice(), want.as_bytes());
    Ok(())
}

#[test]
fn dates_are_gregorian(rt: HostRuntime) -> Result<(), Fail> {
    let alloc = rt.alloc();
    expect_text(&rt, date_text(alloc, -25_567), "1900-01-01")?;
    expect_text(&rt, date_text(alloc, 11_016), "2000-02-29")?;
    expect_text(&rt, date_text(alloc, 47_541), "2100-03-01")?;
    expect_text(&rt, date_text(alloc, 47_846), "2100-12-31")
}

const HEAD_OF_ONE_DAY: &str = "prayer timetable 1
from 2000-01-01 days 1 method mwl asr standard zone 0 positions 4
date         fajr  f.end  dhuhr    asr   magh  m.end   isha
";

const HEAD_WITH_EVERYTHING: &str = "prayer timetable 1
from 1970-01-01 days 366 method makkah asr hanafi zone rule positions 4096 height 9000 sun meeus
date         fajr  f.end  dhuhr    asr   magh  m.end   isha
";

fn head_of_one_day(alloc: Global) -> Result<Vec<u8>, NoMemory> {
    table_head(
        alloc,
        10_957,
        1,
        Method::Mwl,
        Asr::Standard,
        &Zone::Fixed { minutes: 0 },
        4,
        0,
        SunChoice::Usno,
    )
}

fn line_of_one_day(alloc: Global) -> Result<Vec<u8>, NoMemory> {
    let rows = problems(Method::Mwl, Asr::Standard, 10_957, 0, 720, 0, 90);
    let entries = [
        Entry::Minute { rank: 285 },
        Entry::Minute { rank: 361 },
        Entry::Minute { rank: 363 },
        Entry::Minute { rank: 209 },
        Entry::Minute { rank: 367 },
        Entry::Minute { rank: 283 },
        Entry::Minute { rank: 438 },
    ];
    day_line(alloc, 10_957, &rows, &entries)
}

#[test]
fn a_table_of_one_day(rt: HostRuntime) -> Result<(), Fail> {
    let alloc = rt.alloc();
    let line = "2000-01-01  04:45  05:59  12:03  15:29  18:07  19:17  19:18\n";
    expect_text(&rt, head_of_one_day(alloc), HEAD_OF_ONE_DAY)?;
    expect_text(&rt, line_of_one_day(alloc), line)?;
    expect_text(&rt, end_line(alloc, 1, 0), "end days 1 open 0\n")
}

fn head_with_everything(alloc: Global, zone: &Zone) -> Result<Vec<u8>, NoMemory> {
    table_head(
        alloc,
        0,
        366,
        Method::Makkah,
        Asr::Hanafi,
        zone,
        4096,
        9000,
        SunChoice::Meeus,
    )
}

#[test]
fn a_head_with_everything(rt: HostRuntime) -> Result<(), Fail> {
    let rule = read_rule(rt.alloc(), "UTC0")?;
    let head = head_with_everything(rt.alloc(), &Zone::Rule { rule });
    assert_eq!(rt; sun_word(SunChoice::Usno), "usno");
    expect_text(&rt, head, HEAD_WITH_EVERYTHING)
}

/// Fajr and Isha of the first day of 1970, by the method of Makkah and this reference noon.
fn first_and_last(noon: i32) -> (Problem, Problem)
    requires not_negative { pos 0 ≤ℤ noon }
    requires below_a_day { noon ≤ℤ pos 1439 }
{
    let [fajr, _, _, _, _, _, isha] = problems(Method::Makkah, Asr::Standard, 0, 0, noon, 0, 120);
    (fajr, isha)
}

fn expect_entry(
    rt: &(impl Abort + AllocGlobal),
    problem: &Problem,
    entry: &Entry,
    want: &str,
) -> Result<(), Fail>
    requires { IsInFrame entry.now }
{
    expect_text(rt, entry_text(rt.alloc(), problem, entry), want)
}

#[test]
fn entries_have_marks(rt: HostRuntime) -> Result<(), Fail> {
    let (fajr, isha) = first_and_last(22);
    expect_entry(&rt, &fajr, &Entry::Minute { rank: 1 }, "-12:23")?;
    expect_entry(&rt, &fajr, &Entry::Whole, " **:**")?;
    expect_entry(&rt, &fajr, &Entry::Never, " --:--")?;
    expect_entry(&rt, &isha, &Entry::Minute { rank: 720 }, " 14:22")?;
    let (_, late) = first_and_last(1439);
    expect_entry(&rt, &late, &Entry::Minute { rank: 0 }, "+01:59")
}

// The smallest cell at this corner and rank.
fn smallest(x: i64, y: i64, rank: u32) -> Cell
    ensures { result ≡ record { x = x; y = y; size = 4; first = rank; last = rank } }
{
    Cell {
        x,
        y,
        size: 4,
        first: rank,
        last: rank,
    }
}

#[test]
fn an_open_entry_has_a_line(rt: HostRuntime) -> Result<(), Fail> {
    let alloc = rt.alloc();
    let [fajr, _, _, _, _, _, _] = problems(Method::Mwl, Asr::Standard, 10_957, 0, 720, 0, 90);
    let entry = Entry::Open {
        safe: 101,
        from: 100,
        cell: smallest(12_800_000, 0, 100),
    };
    let line = "open fajr safe  01:41 from  01:40 cell 12800000 0 rank 100\n";
    expect_entry(&rt, &fajr, &entry, " ??:??")?;
    expect_text(&rt, open_line(alloc, &fajr, &entry), line)?;
    let last = Entry::Open {
        safe: 721,
        from: 0,
        cell: smallest(-16, -32, 720),
    };
    let line = "open fajr safe  --:-- from  00:00 cell -16 -32 rank 720\n";
    expect_text(&rt, open_line(alloc, &fajr, &last), line)
}

#[test]
fn a_night_has_a_line(rt: HostRuntime) -> Result<(), Fail> {
    let alloc = rt.alloc();
    let both = "night fajr  01:20 isha +01:20\n";
    expect_text(&rt, night_line(alloc, Some(80), Some(1520)), both)?;
    let fajr = "night fajr -12:00 isha  --:--\n";
    expect_text(&rt, night_line(alloc, Some(-720), None), fajr)
}
