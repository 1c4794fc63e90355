// Orders, right ones and wrong ones, with the first refusal of each.
use crate::order_faults::fault_text;
use order_reader::laws::{
    every_text_is_read_or_refused, order_readings_agree, orders_keep_the_rule,
};
use order_reader::read_order;
use order_text::laws::{line_readings_agree, lines_keep_the_rule};
use order_text::read_order_line;
use std::alloc::{AllocError, Global};
use std::process::Abort;
use std::test::Fail;
use year_table::Zone;

const ORDER: &str =
    r#"{"from":"2025-03-01","days":1,"method":"mwl","asr":"standard","zone":180,"district":{"type":"Polygon","coordinates":[[[39,21],[40,21],[40,22],[39,22],[39,21]]]}}"#;

const LINE: &str =
    r#"{"version":1,"from":"2025-03-01","days":1,"method":"mwl","asr":"standard","zone":180,"district":[[[[39000000,21000000],[40000000,21000000],[40000000,22000000],[39000000,21000000]]]]}"#;

fn answer(alloc: Global, text: &str) -> Result<String, AllocError> {
    match read_order(alloc, text.as_bytes()) {
        Ok(_) => String::from_str(alloc, "order"),
        Err(fault) => fault_text(alloc, fault),
    }
}

fn line_answer(alloc: Global, text: &str) -> Result<String, AllocError> {
    match read_order_line(alloc, text.as_bytes()) {
        Ok(_) => String::from_str(alloc, "order"),
        Err(fault) => fault_text(alloc, fault),
    }
}

/// A text has this answer.
fn expect(
    rt: &impl Abort,
    text: &str,
    got: Result<String, AllocError>,
    want: &str,
) -> Result<(), Fail> {
    let got = got?;
    assert_eq!(rt; got.as_str(), want, "at {text}");
    Ok(())
}

fn expect_answer(rt: &(impl Abort + AllocGlobal), text: &str, want: &str) -> Result<(), Fail> {
    expect(rt, text, answer(rt.alloc(), text), want)
}

/// The answer to the order in which a part is another one.
fn expect_changed(
    rt: &(impl Abort + AllocGlobal),
    old: &str,
    new: &str,
    want: &str,
) -> Result<(), Fail> {
    let text = ORDER.replace(rt.alloc(), old, new)?;
    expect_answer(rt, text.as_str(), want)
}

/// The answer to the line in which a part is another one.
fn expect_changed_line(
    rt: &(impl Abort + AllocGlobal),
    old: &str,
    new: &str,
    want: &str,
) -> Result<(), Fail> {
    let text = LINE.replace(rt.alloc(), old, new)?;
    expect(
        rt,
        text.as_str(),
        line_answer(rt.alloc(), text.as_str()),
        want,
    )
}

/// The answer to a letter 65 times.
fn expect_letters(rt: &(impl Abort + AllocGlobal), letter: &str, want: &str) -> Result<(), Fail> {
    let text = letter.repeat(rt.alloc(), 65)?;
    expect_answer(rt, text.as_str(), want)
}

/// Bytes that are no order, and what they are answered.
const OTHER_BYTES: [(&str, &str); 7] = [
    ("", "json 1 at 0"),
    (r#"{"from""#, "json 1 at 7"),
    ("[]", "kind order"),
    ("{}", "missing from"),
    (r#"{"from":"2025-03-01","from":"2025-03-01"}"#, "twice from"),
    (r#"{"from":7,"from":7}"#, "twice from"),
    (r#"{"days":0,"days":0}"#, "missing from"),
];

#[test]
fn other_bytes_are_no_order(rt: HostRuntime) -> Result<(), Fail> {
    for (text, want) in &OTHER_BYTES {
        expect_answer(&rt, text, want)?;
    }
    expect_letters(&rt, "[", "json 2 at 64")?;
    expect_letters(&rt, "1", "json 3 at 0")
}

/// What is replaced in the order and by what, and what it is answered.
const MEMBERS: [(&str, &str, &str); 22] = [
    ("", "", "order"),
    ("2025-03-01", "2025-02-30", "range from"),
    ("2025-03-01", "1 March", "kind from"),
    ("2025-03-01", "1899-12-31", "range from"),
    ("2025-03-01", "1900-01-01", "order"),
    ("2025-03-01", "1900-02-29", "range from"),
    ("2025-03-01", "2000-02-29", "order"),
    ("2025-03-01", "2100-12-31", "order"),
    (
        r#"2025-03-01","days":1"#,
        r#"2100-12-31","days":2"#,
        "range days",
    ),
    (r#""days":1"#, r#""days":0"#, "range days"),
    (r#""days":1"#, r#""days":366e0"#, "order"),
    (r#""days":1"#, r#""days":367"#, "range days"),
    (r#""days":1"#, r#""days":1.5"#, "range days"),
    (r#""days":1"#, r#""days":"1""#, "kind days"),
    ("mwl", "mecca", "range method"),
    (r#""mwl""#, "7", "kind method"),
    ("standard", "late", "range asr"),
    ("180", "841", "range zone"),
    ("180", "-720", "order"),
    ("180", "null", "kind zone"),
    ("180", r#""Europe/Berlin""#, "kind zone"),
    ("180", r#""LMT-0:00:30""#, "range zone"),
];

#[test]
fn members_have_kinds_and_ranges(rt: HostRuntime) -> Result<(), Fail> {
    for (old, new, want) in &MEMBERS {
        expect_changed(&rt, old, new, want)?;
    }
    Ok(())
}

/// The same with members that need not stand.
const FURTHER_MEMBERS: [(&str, &str, &str); 23] = [
    ("180", r#"180,"height":9000"#, "order"),
    ("180", r#"180,"height":9001"#, "range height"),
    ("180", r#"180,"height":"1""#, "kind height"),
    ("180", r#"180,"height":1,"height":1"#, "twice height"),
    (
        "180",
        r#"180,"late_isha":[["2025-03-01","2025-03-30"]]"#,
        "range late_isha",
    ),
    (
        r#"mwl""#,
        r#"makkah","late_isha":[["2025-03-01","2025-03-30"]]"#,
        "order",
    ),
    (
        r#"mwl""#,
        r#"makkah","late_isha":[["2025-03-30","2025-03-01"]]"#,
        "range late_isha",
    ),
    (
        r#"mwl""#,
        r#"makkah","late_isha":[["2025-02-30","2025-03-01"],["2025-03-01"]]"#,
        "kind late_isha",
    ),
    ("180", r#"180,"sun":"usno""#, "order"),
    ("180", r#"180,"sun":"moon""#, "range sun"),
    ("180", r#"180,"sun":1"#, "kind sun"),
    ("180", r#"180,"sun":"meeus""#, "order"),
    ("180", r#"180,"sun":"Meeus""#, "range sun"),
    ("180", r#"180,"sun":"usno","sun":"usno""#, "twice sun"),
    ("180", r#"180,"night":"half""#, "order"),
    ("180", r#"180,"night":"seventh","sun":"meeus""#, "order"),
    ("180", r#"180,"night":"angle""#, "order"),
    ("180", r#"180,"night":"third""#, "range night"),
    ("180", r#"180,"night":7"#, "kind night"),
    ("180", r#"180,"night":null"#, "kind night"),
    ("180", r#"180,"night":7,"night":7"#, "twice night"),
    ("180", r#"180,"night":7,"sun":7"#, "kind sun"),
    ("180", r#"180,"nights":1,"nights":2,"version":"7""#, "order"),
];

#[test]
fn further_members_may_stand(rt: HostRuntime) -> Result<(), Fail> {
    for (old, new, want) in &FURTHER_MEMBERS {
        expect_changed(&rt, old, new, want)?;
    }
    Ok(())
}

/// The same in the district.
const EXTENTS: [(&str, &str, &str); 7] = [
    (r#"{"type":"Polygon","#, r#"7,"rest":{"#, "kind district"),
    ("Polygon", "Point", "geometry"),
    (
        "[40,21],[40,22],[39,22]",
        "[43.194304,21],[40,22],[39,22]",
        "order",
    ),
    (
        "[40,21],[40,22],[39,22]",
        "[43.194305,21],[40,22],[39,22]",
        "region 4",
    ),
    (
        "[39,22],[39,21]",
        "[39,22],[39.000001,21]",
        "region 2 ring 0",
    ),
    ("[40,22],[39,22],[39,21]", "[39,21]", "region 1 ring 0"),
    ("[40,21]", "[40,65.5]", "region 5"),
];

#[test]
fn districts_have_forms_and_extents(rt: HostRuntime) -> Result<(), Fail> {
    for (old, new, want) in &EXTENTS {
        expect_changed(&rt, old, new, want)?;
    }
    Ok(())
}

/// What is replaced in the order by another district.
const DISTRICT: &str =
    r#"{"type":"Polygon","coordinates":[[[39,21],[40,21],[40,22],[39,22],[39,21]]]}"#;

/// The same in the line.
const LISTS: &str =
    "[[[[39000000,21000000],[40000000,21000000],[40000000,22000000],[39000000,21000000]]]]";

/// What is no district of an order.
const NO_DISTRICTS: [&str; 19] = [
    "{}",
    r#"{"type":"Point","coordinates":[1,2]}"#,
    r#"{"type":7,"coordinates":[]}"#,
    r#"{"type":"Polygon"}"#,
    r#"{"type":"Polygon","coordinates":{}}"#,
    r#"{"type":"Polygon","coordinates":[[[1]]]}"#,
    r#"{"type":"Polygon","coordinates":[[["1",2]]]}"#,
    r#"{"type":"Polygon","coordinates":[[1,2]]}"#,
    r#"{"type":"Polygon","type":"Polygon","coordinates":[]}"#,
    r#"{"type":"Polygon","coordinates":[],"coordinates":[]}"#,
    r#"{"type":"Polygon","coordinates":[],"features":0,"features":0}"#,
    r#"{"type":"MultiPolygon","coordinates":[[[[1,2]]],0]}"#,
    r#"{"type":"Feature","coordinates":[]}"#,
    r#"{"type":"Feature","geometry":{"type":"Feature","geometry":{"type":"Polygon","coordinates":[]}}}"#,
    r#"{"type":"Feature","geometry":{"type":"Polygon","coordinates":[]},"geometry":0}"#,
    r#"{"type":"Feature","geometry":null}"#,
    r#"{"type":"FeatureCollection","features":[]}"#,
    r#"{"type":"FeatureCollection","features":[{"type":"Polygon","coordinates":[]}]}"#,
    r#"{"type":"FeatureCollection","features":[{"type":"Feature","geometry":{"type":"Polygon","coordinates":[]}},{"type":"Feature","geometry":{"type":"Polygon","coordinates":[]}}]}"#,
];

/// What is no district of a line.
const NO_LISTS: [&str; 5] = [
    "[[[[1,2,3]]]]",
    "[[[[1.5,2]]]]",
    "[[[[1,1e16]]]]",
    "[[[1]]]",
    "[{}]",
];

#[test]
fn other_forms_are_no_district(rt: HostRuntime) -> Result<(), Fail> {
    for district in &NO_DISTRICTS {
        expect_changed(&rt, DISTRICT, district, "geometry")?;
    }
    for district in &NO_LISTS {
        expect_changed_line(&rt, LISTS, district, "geometry")?;
    }
    Ok(())
}

const FULL_ORDER: &str =
    r#"{"from":"2025-03-29","days":2,"method":"makkah","asr":"hanafi","zone":"CET-1CEST,M3.5.0,M10.5.0/3","height":277,"late_isha":[["2025-03-01","2025-03-29"]],"district":{"type":"Polygon","coordinates":[[[39,21],[40,21],[40,22],[39,21]]]}}"#;

fn expect_minutes(rt: &impl Abort, found: i32, want: i32) {
    assert_eq!(rt; found, want);
}

fn expect_count(rt: &impl Abort, found: u32, want: u32) {
    assert_eq!(rt; found, want);
}

#[test]
fn an_order_has_what_it_says(rt: HostRuntime) -> Result<(), Fail> {
    let order = match read_order(rt.alloc(), FULL_ORDER.as_bytes()) {
        Ok(order) => order,
        Err(_) => return Err(Fail::from("refused")),
    };
    assert_eq!(rt; order.from_day, 20_176);
    expect_count(&rt, order.height, 277);
    assert!(rt; matches!(order.zone, Zone::Rule { .. }));
    assert_eq!(rt; order.days, 2);
    expect_minutes(&rt, order.offsets.at(0), 60);
    expect_minutes(&rt, order.offsets.at(1), 120);
    expect_minutes(&rt, order.interval(20_176), 120);
    expect_minutes(&rt, order.interval(20_177), 90);
    expect_count(&rt, order.district.positions(), 4);
    Ok(())
}

/// What is replaced in the line and by what, and what it is answered.
const VERSIONS: [(&str, &str, &str); 18] = [
    ("", "", "order"),
    (r#""version":1"#, r#""version":2"#, "missing height"),
    (
        r#""version":1"#,
        r#""version":2,"height":0"#,
        "missing late_isha",
    ),
    (
        r#""version":1"#,
        r#""late_isha":[],"height":0,"version":2"#,
        "order",
    ),
    (
        r#""version":1"#,
        r#""version":1,"height":"x","sun":1,"sun":2"#,
        "order",
    ),
    (r#""version":1"#, r#""version":0"#, "range version"),
    (r#""version":1"#, r#""version":5"#, "range version"),
    (
        r#""version":1"#,
        r#""version":3,"height":0,"late_isha":[]"#,
        "missing sun",
    ),
    (
        r#""version":1"#,
        r#""version":3,"height":0,"late_isha":[],"sun":"usno","night":7"#,
        "order",
    ),
    (
        r#""version":1"#,
        r#""version":4,"height":0,"late_isha":[],"sun":"usno""#,
        "missing night",
    ),
    (
        r#""version":1"#,
        r#""version":4,"night":"angle","sun":"meeus","late_isha":[],"height":0"#,
        "order",
    ),
    (
        r#""version":1"#,
        r#""version":4,"night":"third","sun":"meeus","late_isha":[],"height":0"#,
        "range night",
    ),
    (r#""version":1"#, r#""version":"1""#, "kind version"),
    (
        r#""version":1"#,
        r#""version":1,"version":1"#,
        "twice version",
    ),
    (r#""version":1"#, r#""v":1"#, "missing version"),
    ("[[[[39", r#"{"district":1},"rest":[[[[39"#, "kind district"),
    ("[39000000,21000000]", "[39000000,21000000,0]", "geometry"),
    ("[40000000,22000000],", "", "region 1 ring 0"),
];

#[test]
fn a_line_has_a_version(rt: HostRuntime) -> Result<(), Fail> {
    for (old, new, want) in &VERSIONS {
        expect_changed_line(&rt, old, new, want)?;
    }
    Ok(())
}

#[test]
fn the_laws_are_called(_rt: HostRuntime) {
    order_readings_agree();
    line_readings_agree();
    every_text_is_read_or_refused();
    orders_keep_the_rule();
    lines_keep_the_rule();
}
