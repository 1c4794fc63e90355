// The commands `cover`, `check` and `demo`.
use crate::hostile::HEAD;
use run_samples::{
    ORDER_B, TABLE_B, TEN_DAYS, TWO_PARTS, answer_to, expect, expect_covered, expect_text,
    expect_usage, order_over, text_of,
};
use std::alloc::{AllocError, Global};
use std::process::Abort;
use std::sync::Wait;
use std::test::Fail;
use std::thread::Threads;
use timetable::Status;

/// The covering of one place and one day, its letters one by one.
const COVERING_B: [&str; 8] = [
    r#"{"version":1,"from":"2000-01-01","days":1,"method":"mwl","asr":"standard","zone":0,"district":[[[[100000,0],[100000,0],[100000,0],[100000,0]]]]}"#,
    r#"{"column":"fajr","day":"2000-01-01","point":["12800000","0","1"],"r":284,"refuted":[12800000,0,22,284,284],"tree":"spssspsspspxxxssssspspxxxxxxsssssspkxxxkxxxkxxxxxxkkk"}"#,
    r#"{"column":"fajr_end","day":"2000-01-01","point":["12800000","0","1"],"r":360,"refuted":[12800000,0,25,360,360],"tree":"sspspspspsspxxxsssspspxxxxxxsssspspxxxxxxsssssspxxxxxxxxxkxxxxxxxxxxxxk"}"#,
    r#"{"column":"dhuhr","day":"2000-01-01","point":["12800000","0","1"],"r":362,"refuted":[12800000,0,24,362,362],"tree":"sspspspspspsspsssspkxxxkxxxxxxk"}"#,
    r#"{"column":"asr","day":"2000-01-01","point":["12800000","0","1"],"r":208,"refuted":[12800000,0,22,208,208],"tree":"ssppsspssppsssspssppxxxxxxsssssspspxxxxxxssssspxxxkxxxkxxxxxxkxxxkk"}"#,
    r#"{"column":"maghrib","day":"2000-01-01","point":["12800000","0","1"],"r":366,"refuted":[12800000,0,23,366,366],"tree":"sspspspspspsssspsssspkxxxkxxxxxxkxxxk"}"#,
    r#"{"column":"maghrib_end","day":"2000-01-01","point":["12800000","0","1"],"r":282,"refuted":[12800000,0,27,281,282],"tree":"ssppssspssspxxxsspspxxxxxxsssssspxxxsspspxxxxxxxxxsssssspspxxxxxxssssspxxxxxxxxxxxxxxxxxxkxxxxxxkkk"}"#,
    r#"{"column":"isha","day":"2000-01-01","point":["12800000","0","1"],"r":437,"refuted":[12800000,0,21,437,437],"tree":"sspspssssspsspspxxxxxxxxxkkkk"}"#,
];

/// What stands in the second line before its letters.
const FAJR: &str =
    r#"{"column":"fajr","day":"2000-01-01","point":["12800000","0","1"],"r":284,"refuted":[12800000,0,22,284,284],"#;

/// The second line's last member, and what is answered: nothing where the line is good.
const LETTERS: [(&str, &str); 12] = [
    (
        r#""tree":"spssspsspspxxxssssspspxxxxxxsssssspkxxxkxxxkxxxxxxkkk""#,
        "",
    ),
    (
        r#""tree":"sxssspsspspxxxssssspspxxxxxxsssssspkxxxkxxxkxxxxxxkkk""#,
        "fault 6 at 1",
    ),
    (
        r#""tree":"spssspsspspxxxssssspspxxxxxxsssssspkxxxkxxxkxxxxxxkk""#,
        "fault 4",
    ),
    (
        r#""tree":"spssspsspspxxxssssspspxxxxxxsssssspkxxxkxxxkxxxxxxkkkp""#,
        "fault 5",
    ),
    (
        r#""tree":"qpssspsspspxxxssssspspxxxxxxsssssspkxxxkxxxkxxxxxxkkk""#,
        "fault 3 at 0",
    ),
    (r#""runs":"sp3sp2spsp3x5spsp6x6spk3xk3xk6x3k""#, ""),
    (
        r#""runs":"1sp3sp2spsp3x5spsp6x6spk3xk3xk6x3k","tree":"q""#,
        "",
    ),
    (r#""runs":"sp3sp2spsp3x5spsp6x6spk3xk3xk6x4k""#, "fault 5"),
    (r#""runs":"sp3sp2spsp3x5spsp6x6spk3xk3xk6x3""#, "fault 4"),
    (
        r#""runs":"sp3sp2spsp3x5spsp6x6spk3xk3xk6x03k""#,
        "fault 3 at 31",
    ),
    (r#""runs":"1234567890s""#, "fault 3 at 9"),
    (r#""r":284"#, "fault 1"),
];

/// A line behind the text, where there is one.
fn push_line(text: &mut String, line: &str) -> Result<(), AllocError> {
    if line.is_empty() {
        return Ok(());
    }
    text.push_str(line)?;
    text.push_str("\n")
}

/// The covering with another line of this number, from 1, or without it.
fn covering_with(alloc: Global, number: usize, line: &str) -> Result<String, AllocError> {
    let mut text = String::new(alloc);
    for (i, own) in COVERING_B.iter().enumerate() {
        push_line(&mut text, if i + 1 == number { line } else { own })?;
    }
    Ok(text)
}

const WRONG_LINES: [&str; 5] = [
    "cover --form 3",
    "cover --form",
    "cover --runs",
    "check now",
    "demo --number 4294967296",
];

#[test]
fn an_order_gets_its_covering(rt: HostRuntime) -> Result<(), Fail> {
    let covering = covering_with(rt.alloc(), 0, "")?;
    let line = "cover --form 1 --workers 3";
    expect_text(&rt, line, ORDER_B.as_bytes(), covering.as_str())?;
    expect_usage(&rt, &WRONG_LINES)
}

/// Coverings of both forms show the table.
fn expect_both_covered<R: Threads + Wait + Sync + Abort + AllocGlobal>(
    rt: &R,
    order: &[u8],
    table: &str,
) -> Result<(), Fail> {
    expect_covered(rt, "cover", order, table)?;
    expect_covered(rt, "cover --form 1", order, table)
}

#[test]
fn a_covering_shows_its_table(rt: HostRuntime) -> Result<(), Fail> {
    let order = order_over(rt.alloc(), TEN_DAYS, TWO_PARTS)?;
    let plain = answer_to(&rt, "plain", order.as_bytes())?;
    expect_both_covered(&rt, order.as_bytes(), text_of(&plain.out))
}

/// The covering with another line of this number, which is refused with this fault: nothing but the table's head is shown.
fn expect_fault<R: Threads + Wait + Sync + Abort + AllocGlobal>(
    rt: &R,
    number: usize,
    line: &str,
    fault: &str,
) -> Result<(), Fail> {
    let covering = covering_with(rt.alloc(), number, line)?;
    let refusal = format!(in rt.alloc(); "cover refused line {number} {fault}\n")?;
    let shown = if number == 1 { "" } else { HEAD };
    expect(
        rt,
        "check",
        covering.as_bytes(),
        Status::CoverRefused,
        shown,
        refusal.as_str(),
    )
}

/// The covering with another line on Fajr shows the whole table.
fn expect_good<R: Threads + Wait + Sync + Abort + AllocGlobal>(
    rt: &R,
    line: &str,
) -> Result<(), Fail> {
    let covering = covering_with(rt.alloc(), 2, line)?;
    expect_text(rt, "check", covering.as_bytes(), TABLE_B)
}

/// Another line on Fajr, which shows the whole table, or is refused with this fault.
fn expect_letters<R: Threads + Wait + Sync + Abort + AllocGlobal>(
    rt: &R,
    letters: &str,
    fault: &str,
) -> Result<(), Fail> {
    let line = format!(in rt.alloc(); "{FAJR}{letters}}}")?;
    if fault.is_empty() {
        expect_good(rt, line.as_str())
    } else {
        expect_fault(rt, 2, line.as_str(), fault)
    }
}

#[test]
fn changed_letters_are_refused_at_their_place(rt: HostRuntime) -> Result<(), Fail> {
    for (letters, fault) in &LETTERS {
        expect_letters(&rt, letters, fault)?;
    }
    Ok(())
}

#[test]
fn a_changed_line_is_refused_at_its_place(rt: HostRuntime) -> Result<(), Fail> {
    let point = COVERING_B[1].replace(rt.alloc(), "\"1\"]", "\"2\"]")?;
    expect_fault(&rt, 2, point.as_str(), "fault 7")?;
    expect_fault(&rt, 3, COVERING_B[1], "fault 2")?;
    expect_fault(&rt, 8, "", "fault 1")?;
    expect_fault(&rt, 1, "{}", "order 2 missing version")
}

/// The words of `demo`, and the summary that they get.
const DEMOS: [(&str, &str); 5] = [
    (
        "demo",
        "demo 1 positions 65 days 30 minutes 210 whole 0 never 0 open 0 sum 182588\n",
    ),
    (
        "demo --workers 1 --number 1",
        "demo 1 positions 65 days 30 minutes 210 whole 0 never 0 open 0 sum 182588\n",
    ),
    (
        "demo --number 0",
        "demo 0 positions 65 days 30 minutes 210 whole 0 never 0 open 0 sum 174962\n",
    ),
    (
        "demo --number 77",
        "demo 77 positions 65 days 30 minutes 210 whole 0 never 0 open 0 sum 166949\n",
    ),
    (
        "demo --number 4294967295",
        "demo 4294967295 positions 65 days 30 minutes 210 whole 0 never 0 open 0 sum 168975\n",
    ),
];

#[test]
fn a_made_order_is_summed_up(rt: HostRuntime) -> Result<(), Fail> {
    for (line, summary) in &DEMOS {
        expect_text(&rt, line, b"", summary)?;
    }
    Ok(())
}
