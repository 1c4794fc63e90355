// The command `plain`: the table of an order, its entries, its sources and sinks.
use no_memory::NoMemory;
use run_samples::{
    Answer, FAULT, FIRST_DAYS, ORDER_B, TABLE_B, expect_front, expect_plain, expect_told,
    order_over, plain_answer_into, plain_answer_to, plain_slow_answer_to,
};
use std::alloc::{AllocError, Global};
use std::process::Abort;
use std::test::Fail;
use timetable::Status;

const TABLE_OF_PARTS: &str = "prayer timetable 1
from 2025-03-01 days 1 method egypt asr hanafi zone 180 positions 14 height 277
date         fajr  f.end  dhuhr    asr   magh  m.end   isha
2025-03-01  05:25  06:39  12:37  16:51  18:32  19:37  19:41
end days 1 open 0
";

/// A square with a square hole, and a triangle beside it.
const PARTS: &str =
    r#"{"type":"FeatureCollection","features":[{"type":"Feature","properties":{"parts":2},"geometry":{"type":"MultiPolygon","coordinates":[[[[39,21],[39.4,21],[39.4,21.4],[39,21.4],[39,21]],[[39.1,21.1],[39.3,21.1],[39.3,21.3],[39.1,21.3],[39.1,21.1]]],[[[39.5,21,600],[39.6,21.1,590.5],[39.5,21.2],[39.5,21,600]]]]}}]}"#;

/// An order for one place and one day.
fn order_at(
    alloc: Global,
    from: &str,
    method: &str,
    zone: &str,
    place: &str,
) -> Result<String, AllocError> {
    let members = format!(in alloc;
        "\"from\":\"{from}\",\"days\":1,\"method\":\"{method}\",\"asr\":\"standard\",\"zone\":{zone}"
    )?;
    let district = format!(in alloc;
        "{{\"type\":\"Polygon\",\"coordinates\":[[[{place}],[{place}],[{place}],[{place}]]]}}"
    )?;
    order_over(alloc, members.as_str(), district.as_str())
}

/// The last line of a table's head.
const HEAD: &str = "date         fajr  f.end  dhuhr    asr   magh  m.end   isha\n";

/// What a run of `plain` answered, without the table's head.
fn told_rows(answer: &Answer) -> (Status, &str, &str) {
    let (status, table, err) = answer.told();
    match table.split_once(HEAD) {
        Some((_, rows)) => (status, rows, err),
        None => (status, table, err),
    }
}

fn expect_told_rows(rt: &impl Abort, answer: &Answer, wanted: (Status, &str, &str)) {
    assert_eq!(rt; told_rows(answer), wanted);
}

/// The status of the order's table and all that stands in it behind its head.
fn expect_rows(
    rt: &(impl Abort + AllocGlobal),
    order: &str,
    status: Status,
    rows: &str,
) -> Result<(), Fail> {
    let answer = plain_answer_to(rt.alloc(), "plain", order.as_bytes())?;
    expect_told_rows(rt, &answer, (status, rows, ""));
    Ok(())
}

/// The entries of the order's one day.
fn expect_entries(
    rt: &(impl Abort + AllocGlobal),
    order: &str,
    day: &str,
    entries: &str,
) -> Result<(), Fail> {
    let rows = format!(in rt.alloc(); "{day}{entries}\nend days 1 open 0\n")?;
    expect_rows(rt, order, Status::Done, rows.as_str())
}

#[test]
fn an_order_gets_its_table(rt: HostRuntime) -> Result<(), Fail> {
    expect_plain(
        rt.alloc(),
        "plain",
        ORDER_B.as_bytes(),
        Status::Done,
        TABLE_B,
        "",
    )?;
    let members =
        r#""from":"2025-03-01","days":1,"method":"egypt","asr":"hanafi","zone":180,"height":277"#;
    let order = order_over(rt.alloc(), members, PARTS)?;
    expect_plain(
        rt.alloc(),
        "plain",
        order.as_bytes(),
        Status::Done,
        TABLE_OF_PARTS,
        "",
    )?;
    expect_plain(
        rt.alloc(),
        "plain",
        b"{}",
        Status::OrderRefused,
        "",
        "order refused 2 missing from\n",
    )
}

/// A day, the method, the zone and the place of an order, and the day's entries.
const ENTRIES: [(&str, &str, &str, &str, &str); 6] = [
    (
        "2000-01-01",
        "makkah",
        "0",
        "0.1,0",
        "  04:43  05:59  12:03  15:29  18:07  19:36  19:37",
    ),
    (
        "2000-01-01",
        "makkah",
        r#"0,"late_isha":[["2000-01-01","2000-01-30"]]"#,
        "0.1,0",
        "  04:43  05:59  12:03  15:29  18:07  20:06  20:07",
    ),
    (
        "2000-01-01",
        "mwl",
        "-720",
        "0.1,0",
        " -16:45 -17:59  00:03  03:29  06:07  07:17  07:18",
    ),
    (
        "2025-05-15",
        "karachi",
        "120",
        "5,52",
        "  02:35  05:45  13:37  17:50  21:28 +00:44 +00:45",
    ),
    (
        "2025-06-21",
        "mwl",
        "180",
        "30,60",
        "  **:**  03:35  13:02  17:44  22:28  **:**  --:--",
    ),
    (
        "2025-12-21",
        "jafari",
        "660",
        "170.5,-65",
        "  **:**  00:34  11:36  16:32  --:--  **:**  --:--",
    ),
];

#[test]
fn entries_have_marks_and_stand_for_whole_and_never(rt: HostRuntime) -> Result<(), Fail> {
    for (from, method, zone, place, entries) in &ENTRIES {
        let order = order_at(rt.alloc(), from, method, zone, place)?;
        expect_entries(&rt, order.as_str(), from, entries)?;
    }
    Ok(())
}

#[test]
fn an_undecided_entry_is_printed_with_its_cell(rt: HostRuntime) -> Result<(), Fail> {
    let order = order_at(rt.alloc(), "2000-01-01", "mwl", "0", "0.325958,0")?;
    let rows = "2000-01-01  04:44  05:58  ??:??  15:28  18:06  19:16  19:17
open dhuhr safe  12:03 from  12:02 cell 41722624 0 rank 363
end days 1 open 1
";
    expect_rows(&rt, order.as_str(), Status::Open, rows)
}

/// The last day of winter time and the first of summer time, and their entries.
const DAYS_OF_A_RULE: [(&str, &str); 2] = [
    (
        "2025-03-29",
        "  04:11  06:02  12:25  15:55  18:48  20:33  20:34",
    ),
    (
        "2025-03-30",
        "  05:08  07:00  13:25  16:56  19:49  21:35  21:36",
    ),
];

#[test]
fn a_rule_gives_the_offset_at_noon(rt: HostRuntime) -> Result<(), Fail> {
    for (from, entries) in &DAYS_OF_A_RULE {
        let zone = r#""CET-1CEST,M3.5.0,M10.5.0/3""#;
        let order = order_at(rt.alloc(), from, "mwl", zone, "10,50")?;
        expect_entries(&rt, order.as_str(), from, entries)?;
    }
    Ok(())
}

#[test]
fn bytes_come_and_go_one_by_one(rt: HostRuntime) -> Result<(), Fail> {
    let answer = plain_slow_answer_to(rt.alloc(), "plain", ORDER_B.as_bytes(), &[])?;
    expect_told("plain", &answer, (Status::Done, TABLE_B, ""))
}

fn expect_told_at(rt: &impl Abort, number: u32, answer: &Answer, wanted: (Status, &str, &str)) {
    assert_eq!(rt; (number, answer.told()), (number, wanted));
}

/// The source's call of this number fails.
fn expect_read_fault(rt: &(impl Abort + AllocGlobal), number: u32) -> Result<(), Fail> {
    let answer = plain_slow_answer_to(rt.alloc(), "plain", ORDER_B.as_bytes(), &[number])?;
    let wanted = (Status::ReadFault, "", "read fault\n");
    expect_told_at(rt, number, &answer, wanted);
    Ok(())
}

#[test]
fn each_failed_read_ends_the_run_with_nothing_written(rt: HostRuntime) -> Result<(), Fail> {
    for number in 1..ORDER_B.len() as u32 + 2 {
        expect_read_fault(&rt, number)?;
    }
    Ok(())
}

#[test]
fn a_full_sink_holds_the_first_bytes_of_the_table(rt: HostRuntime) -> Result<(), Fail> {
    for capacity in 0..TABLE_B.len() {
        expect_front(rt.alloc(), "plain", ORDER_B.as_bytes(), TABLE_B, capacity)?;
    }
    Ok(())
}

/// What `plain` answers to an order where the write in the third row fails.
fn first_days(alloc: Global, order: &[u8]) -> Result<Answer, NoMemory> {
    let failing = FIRST_DAYS.len() as u32 + 1;
    plain_answer_into(alloc, "plain", order, (2000, &[failing]), (200, &[]))
}

#[test]
fn a_failed_write_leaves_the_days_before_it(rt: HostRuntime) -> Result<(), Fail> {
    let days = ORDER_B.replace(rt.alloc(), r#""days":1"#, r#""days":3"#)?;
    let answer = first_days(rt.alloc(), days.as_bytes())?;
    let wanted = (Status::WriteFault, FIRST_DAYS, FAULT);
    expect_told("plain", &answer, wanted)
}
