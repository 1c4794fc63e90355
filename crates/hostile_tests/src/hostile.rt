// The command `check`: hostile coverings of one place and one day, and nights.
use run_samples::{ORDER_B, TABLE_B, answer_to, expect, expect_covered, expect_texts, text_of};
use std::process::Abort;
use std::sync::Wait;
use std::test::Fail;
use std::thread::Threads;
use timetable::Status;

/// The head of the table of one place and one day.
pub(crate) const HEAD: &str = "prayer timetable 1
from 2000-01-01 days 1 method mwl asr standard zone 0 positions 4
date         fajr  f.end  dhuhr    asr   magh  m.end   isha
";

const FAJR: &str =
    r#"{"column":"fajr","day":"2000-01-01","point":["12800000","0","1"],"r":284,"refuted":[12800000,0,22,284,284],"tree":"spssspsspspxxxssssspspxxxxxxsssssspkxxxkxxxkxxxxxxkkk"}"#;

/// What stands in a line of a covering in place of the line on Fajr, and the line on err.
const LINES: [(&str, &str); 4] = [
    (
        r#"{"column":"isha","day":"2000-01-01","point":["12800000","0","1"],"r":284,"refuted":[12800000,0,22,284,284],"tree":"spssspsspspxxxssssspspxxxxxxsssssspkxxxkxxxkxxxxxxkkk"}"#,
        "cover refused line 2 fault 2\n",
    ),
    (
        r#"{"column":"fajr","day":"2000-01-01","point":["12800000","0","1"],"r":720,"refuted":[12800000,0,4,720,720],"tree":"k"}"#,
        "cover refused line 2 fault 7\n",
    ),
    (
        r#"{"column":"fajr","day":"2000-01-01","point":["12800000","0","01"],"r":720,"refuted":[12800000,0,4,720,720],"tree":"k"}"#,
        "cover refused line 2 fault 1\n",
    ),
    (
        r#"{"column":"fajr","day":"2000-01-01"}"#,
        "cover refused line 2 fault 1\n",
    ),
];

/// A covering is refused with this line after this text.
fn expect_refusal<R: Threads + Wait + Sync + Abort + AllocGlobal>(
    rt: &R,
    covering: &str,
    shown: &str,
    refusal: &str,
) -> Result<(), Fail> {
    let input = covering.as_bytes();
    expect(rt, "check", input, Status::CoverRefused, shown, refusal)
}

/// The covering of one place and one day, its letters one by one.
fn covering_b<R: Threads + Wait + Sync + AllocGlobal>(rt: &R) -> Result<String, Fail> {
    let covering = answer_to(rt, "cover --form 1", ORDER_B.as_bytes())?;
    Ok(String::from_str(rt.alloc(), text_of(&covering.out))?)
}

#[test]
fn a_covering_with_a_bad_line_shows_what_stands_before_it(rt: HostRuntime) -> Result<(), Fail> {
    let covering = covering_b(&rt)?;
    for (line, refusal) in &LINES {
        let changed = covering.replace(rt.alloc(), FAJR, line)?;
        expect_refusal(&rt, changed.as_str(), HEAD, refusal)?;
    }
    Ok(())
}

#[test]
fn a_million_letters_are_refused_at_the_second(rt: HostRuntime) -> Result<(), Fail> {
    let letters = "s".repeat(rt.alloc(), 1_000_000)?;
    let own = "spssspsspspxxxssssspspxxxxxxsssssspkxxxkxxxkxxxxxxkkk";
    let long = covering_b(&rt)?.replace(rt.alloc(), own, letters.as_str())?;
    let refusal = "cover refused line 2 fault 6 at 1\n";
    expect_refusal(&rt, long.as_str(), HEAD, refusal)
}

#[test]
fn a_line_too_many_is_refused_behind_the_table(rt: HostRuntime) -> Result<(), Fail> {
    let mut covering = covering_b(&rt)?;
    covering.push_str("{}\n")?;
    let shown = TABLE_B.replace(rt.alloc(), "end days 1 open 0\n", "")?;
    let refusal = "cover refused line 9 fault 1\n";
    expect_refusal(&rt, covering.as_str(), shown.as_str(), refusal)
}

#[test]
fn a_covering_has_an_order_and_lines(rt: HostRuntime) -> Result<(), Fail> {
    expect_refusal(&rt, "", "", "cover refused line 1 order 1 json 1 at 0\n")?;
    let order = answer_to(&rt, "order", ORDER_B.as_bytes())?;
    let refusal = "cover refused line 2 fault 1\n";
    expect_refusal(&rt, text_of(&order.out), HEAD, refusal)
}

const TABLE_OF_A_NIGHT: &str = "prayer timetable 1
from 2000-01-01 days 1 method mwl asr standard zone 0 positions 4
date         fajr  f.end  dhuhr    asr   magh  m.end   isha
2000-01-01  04:45  05:59  12:03  15:29  18:07  19:17  19:18
night fajr  04:45 isha  19:18
end days 1 open 0
";

/// The covering that the words write of an order with nights has ten lines and shows the table.
fn expect_ten_lines<R: Threads + Wait + Sync + Abort + AllocGlobal>(
    rt: &R,
    line: &str,
    order: &[u8],
) -> Result<(), Fail> {
    let covering = answer_to(rt, line, order)?;
    let lines = covering.out.bytes().iter().filter(|b| **b == b'\n').count();
    assert_eq!(rt; (line, lines), (line, 10));
    expect_covered(rt, line, order, TABLE_OF_A_NIGHT)
}

#[test]
fn a_covering_with_nights_has_nine_lines_a_day(rt: HostRuntime) -> Result<(), Fail> {
    let order = ORDER_B.replace(rt.alloc(), r#""zone":0"#, r#""zone":0,"night":"seventh""#)?;
    let lines = ["plain", "table --workers 2"];
    expect_texts(&rt, &lines, order.as_bytes(), TABLE_OF_A_NIGHT)?;
    expect_ten_lines(&rt, "cover", order.as_bytes())?;
    expect_ten_lines(&rt, "cover --form 1", order.as_bytes())
}
