// The command `order`: the canonical line of an order, and the first refusal of what is none.
use run_samples::{
    FAULT, ORDER_A, ORDER_B, expect_plain, expect_told, order_over, plain_answer_into,
    plain_slow_answer_to,
};
use std::alloc::{AllocError, Global};
use std::process::Abort;
use std::test::Fail;
use timetable::Status;

const LINE_A: &str =
    r#"{"version":1,"from":"2025-03-01","days":1,"method":"mwl","asr":"standard","zone":180,"district":[[[[39000000,21000000],[40000000,21000000],[40000000,22000000],[39000000,22000000],[39000000,21000000]]]]}"#;

const FEATURE: &str =
    r#"{"type":"Feature","id":7,"properties":null,"geometry":{"type":"Polygon","coordinates":[[[39,21],[40,21],[40,22],[39,22],[39,21]]]}}"#;

const MEMBERS: &str = r#""from":"2025-03-01","days":1,"method":"mwl","asr":"standard","zone":180"#;

/// The input is refused with this detail, and nothing is written.
fn expect_refusal(rt: &(impl Abort + AllocGlobal), input: &[u8], detail: &str) -> Result<(), Fail> {
    let line = format!(in rt.alloc(); "order refused {detail}\n")?;
    expect_plain(
        rt.alloc(),
        "order",
        input,
        Status::OrderRefused,
        "",
        line.as_str(),
    )
}

/// The order is answered by this line.
fn expect_line(rt: &(impl Abort + AllocGlobal), order: &str, line: &str) -> Result<(), Fail> {
    let line = format!(in rt.alloc(); "{line}\n")?;
    expect_plain(
        rt.alloc(),
        "order",
        order.as_bytes(),
        Status::Done,
        line.as_str(),
        "",
    )
}

/// The first order with a change is answered by its line with another.
fn expect_changed(
    rt: &(impl Abort + AllocGlobal),
    (old, new): (&str, &str),
    (line_old, line_new): (&str, &str),
) -> Result<(), Fail> {
    let order = ORDER_A.replace(rt.alloc(), old, new)?;
    let line = LINE_A.replace(rt.alloc(), line_old, line_new)?;
    expect_line(rt, order.as_str(), line.as_str())
}

/// What is replaced in the first order and by what, and the same in its line.
const CHANGES: [(&str, &str, &str, &str); 7] = [
    (r#""days":1"#, r#""days": 1e0, "x": [null]"#, "", ""),
    (r#""mwl""#, r#""\u006dw\u006c""#, "", ""),
    (
        r#""zone":180"#,
        r#""zone":-0"#,
        r#""zone":180"#,
        r#""zone":0"#,
    ),
    (
        r#""zone":180"#,
        r#""zone":"CET-1CEST,M3.5.0,M10.5.0/3""#,
        r#""zone":180"#,
        r#""zone":"CET-1CEST,M3.5.0,M10.5.0/3""#,
    ),
    (
        r#""zone":180"#,
        r#""zone":180,"height":0,"late_isha":[],"sun":"usno""#,
        "",
        "",
    ),
    (
        r#""zone":180"#,
        r#""height":100,"zone":180"#,
        r#"1,"from":"2025-03-01","days":1,"method":"mwl","asr":"standard","zone":180"#,
        r#"2,"from":"2025-03-01","days":1,"method":"mwl","asr":"standard","zone":180,"height":100,"late_isha":[]"#,
    ),
    (
        r#""mwl""#,
        r#""makkah","late_isha":[["2025-03-01","2025-03-30"],["2024-03-11","2024-03-11"]]"#,
        r#"1,"from":"2025-03-01","days":1,"method":"mwl","asr":"standard","zone":180"#,
        r#"2,"from":"2025-03-01","days":1,"method":"makkah","asr":"standard","zone":180,"height":0,"late_isha":[["2025-03-01","2025-03-30"],["2024-03-11","2024-03-11"]]"#,
    ),
];

#[test]
fn an_order_gets_its_canonical_line(rt: HostRuntime) -> Result<(), Fail> {
    expect_line(&rt, ORDER_A, LINE_A)?;
    for (old, new, line_old, line_new) in &CHANGES {
        expect_changed(&rt, (old, new), (line_old, line_new))?;
    }
    Ok(())
}

/// An order for the place whose longitude is written so.
fn order_at(alloc: Global, x: &str) -> Result<String, AllocError> {
    let district = format!(in alloc;
        "{{\"coordinates\":[[[{x},0],[{x},0],[{x},0],[{x},0]]],\"type\":\"Polygon\"}}"
    )?;
    order_over(alloc, MEMBERS, district.as_str())
}

/// The line of the order for the place of this longitude in microdegrees.
fn line_at(alloc: Global, x: &str) -> Result<String, AllocError> {
    format!(in alloc;
        "{{\"version\":1,{MEMBERS},\"district\":[[[[{x},0],[{x},0],[{x},0],[{x},0]]]]}}"
    )
}

/// The longitude in degrees is rounded to these microdegrees.
fn expect_rounded(rt: &(impl Abort + AllocGlobal), degrees: &str, micro: &str) -> Result<(), Fail> {
    let order = order_at(rt.alloc(), degrees)?;
    let line = line_at(rt.alloc(), micro)?;
    expect_line(rt, order.as_str(), line.as_str())
}

/// Longitudes in degrees, and rounded to microdegrees.
const ROUNDED: [(&str, &str); 5] = [
    ("46.712345678901234", "46712346"),
    ("1.25e1", "12500000"),
    ("-0.0000005", "-1"),
    ("0.0000004999", "0"),
    ("-360", "-360000000"),
];

#[test]
fn coordinates_are_rounded_to_microdegrees(rt: HostRuntime) -> Result<(), Fail> {
    for (degrees, micro) in &ROUNDED {
        expect_rounded(&rt, degrees, micro)?;
    }
    Ok(())
}

/// Bytes that are no order, and the detail with which they are refused.
const OTHER_BYTES: [(&[u8], &str); 15] = [
    (b"", "1 json 1 at 0"),
    (br#"{"from""#, "1 json 1 at 7"),
    (b"{\"a\":1,}", "1 json 1 at 7"),
    (b"\"\\ud800\"", "1 json 1 at 7"),
    (b"\"\\udc00\"", "1 json 1 at 4"),
    (b"01", "1 json 1 at 1"),
    (b"-", "1 json 1 at 1"),
    (b"nul", "1 json 1 at 3"),
    (b"\xef\xbb", "1 json 1 at 2"),
    (b"\xef\xbb\"", "1 json 1 at 2"),
    (b"\"\xff", "1 json 1 at 1"),
    (b"\"\xe0\x80", "1 json 1 at 2"),
    (b"\xef\xbb\xbf[]", "4 kind order"),
    (b"{}", "2 missing from"),
    (
        br#"{"from":"2025-03-01","from":"2025-03-01"}"#,
        "3 twice from",
    ),
];

/// So many letters are refused with this detail.
fn expect_letters(
    rt: &(impl Abort + AllocGlobal),
    letter: u8,
    count: usize,
    detail: &str,
) -> Result<(), Fail> {
    let bytes = vec![in rt.alloc(); letter; count]?;
    expect_refusal(rt, bytes.as_slice(), detail)
}

#[test]
fn other_bytes_are_refused_at_their_place(rt: HostRuntime) -> Result<(), Fail> {
    for (input, detail) in &OTHER_BYTES {
        expect_refusal(&rt, input, detail)?;
    }
    expect_letters(&rt, b'[', 65, "1 json 2 at 64")?;
    expect_letters(&rt, b'1', 65, "1 json 3 at 0")
}

/// The first order with a change is refused with this detail.
fn expect_wrong(
    rt: &(impl Abort + AllocGlobal),
    old: &str,
    new: &str,
    detail: &str,
) -> Result<(), Fail> {
    let order = ORDER_A.replace(rt.alloc(), old, new)?;
    expect_refusal(rt, order.as_bytes(), detail)
}

/// What is replaced in the first order and by what, and the detail with which it is refused.
const WRONG_MEMBERS: [(&str, &str, &str); 16] = [
    (r#""mwl""#, r#""mecca""#, "5 range method"),
    (r#""days":1"#, r#""days":0"#, "5 range days"),
    (r#""days":1"#, r#""days":1,"days":1"#, "3 twice days"),
    (r#""2025-03-01""#, r#""2025-02-30""#, "5 range from"),
    (r#""2025-03-01""#, r#""1 March""#, "4 kind from"),
    (r#""standard""#, r#""shafii""#, "5 range asr"),
    (r#""zone":180,"#, "", "2 missing zone"),
    (r#""zone":180"#, r#""zone":841"#, "5 range zone"),
    (r#""zone":180"#, r#""zone":"Europe/Berlin""#, "4 kind zone"),
    (r#""zone":180"#, r#""zone":"LMT-0:00:30""#, "5 range zone"),
    (
        r#""zone":180"#,
        r#""zone":180,"height":9001"#,
        "5 range height",
    ),
    (
        r#""zone":180"#,
        r#""zone":180,"height":"1""#,
        "4 kind height",
    ),
    (
        r#""zone":180"#,
        r#""zone":180,"late_isha":[["2025-03-01","2025-03-30"]]"#,
        "5 range late_isha",
    ),
    (r#""zone":180"#, r#""zone":180,"sun":"moon""#, "5 range sun"),
    (
        r#""zone":180"#,
        r#""zone":180,"night":"third""#,
        "5 range night",
    ),
    (r#""district":"#, r#""region":"#, "2 missing district"),
];

#[test]
fn members_are_refused_by_kind_and_range(rt: HostRuntime) -> Result<(), Fail> {
    for (old, new, detail) in &WRONG_MEMBERS {
        expect_wrong(&rt, old, new, detail)?;
    }
    Ok(())
}

/// The same in its district.
const WRONG_DISTRICTS: [(&str, &str, &str); 12] = [
    ("Polygon", "Point", "6 geometry"),
    ("Polygon", "MultiPolygon", "6 geometry"),
    (
        r#""type":"Polygon","#,
        r#""type":"Polygon","type":"Polygon","#,
        "6 geometry",
    ),
    ("[40,21]", "[40]", "6 geometry"),
    ("[40,21]", r#"[40,"21"]"#, "6 geometry"),
    ("[40,21]", "[40,65.5]", "7 region 5"),
    ("[40,21]", "[43.194305,21]", "7 region 4"),
    (
        "[39,22],[39,21]]",
        "[39,22],[39.000001,21]]",
        "7 region 2 ring 0",
    ),
    (
        "[39,21]]]",
        "[39,21]],[[39,21],[39,22],[40,22],[40,21]]]",
        "7 region 2 ring 1",
    ),
    ("[40,22],[39,22],[39,21]]", "[39,21]]", "7 region 1 ring 0"),
    ("[39,21]]]", "[39,21]],[]]", "7 region 1 ring 1"),
    (
        "[[[39,21],[40,21],[40,22],[39,22],[39,21]]]",
        "[]",
        "7 region 6",
    ),
];

#[test]
fn districts_are_refused_by_form_and_extent(rt: HostRuntime) -> Result<(), Fail> {
    for (old, new, detail) in &WRONG_DISTRICTS {
        expect_wrong(&rt, old, new, detail)?;
    }
    expect_changed(
        &rt,
        ("[40,21]", "[43.194304,21]"),
        ("[40000000,21000000]", "[43194304,21000000]"),
    )
}

/// An order for the collection of these features.
fn order_of_features(alloc: Global, features: &str) -> Result<String, AllocError> {
    let district = format!(in alloc;
        "{{\"type\":\"FeatureCollection\",\"features\":[{features}]}}"
    )?;
    order_over(alloc, MEMBERS, district.as_str())
}

/// An order for the collection of two features.
fn order_of_two(alloc: Global) -> Result<String, AllocError> {
    let features = format!(in alloc; "{FEATURE},{FEATURE}")?;
    order_of_features(alloc, features.as_str())
}

/// The collection of one feature is that feature.
fn expect_one(rt: &(impl Abort + AllocGlobal)) -> Result<(), Fail> {
    let one = order_of_features(rt.alloc(), FEATURE)?;
    expect_line(rt, one.as_str(), LINE_A)
}

#[test]
fn a_collection_holds_one_feature(rt: HostRuntime) -> Result<(), Fail> {
    let alone = order_over(rt.alloc(), MEMBERS, FEATURE)?;
    expect_line(&rt, alone.as_str(), LINE_A)?;
    expect_one(&rt)?;
    let two = order_of_two(rt.alloc())?;
    expect_refusal(&rt, two.as_bytes(), "6 geometry")
}

#[test]
fn an_order_has_at_most_16_777_216_bytes(rt: HostRuntime) -> Result<(), Fail> {
    expect_letters(&rt, b'x', 16_777_216, "1 json 1 at 0")?;
    expect_letters(&rt, b'x', 16_777_217, "8 long")
}

/// A ring of this many positions and its first one, in microdegrees, each number with these letters behind it.
fn ring_of(alloc: Global, count: u32, behind: &str) -> Result<String, AllocError> {
    let mut ring = String::from_str(alloc, "[")?;
    for i in 0..count {
        let x = 39_000_000 + i as u64 * 500;
        let y = 21_000_000 + i as u64 % 2 * 1_000;
        ring.push_str(format!(in alloc; "[{x}{behind},{y}{behind}],")?.as_str())?;
    }
    ring.push_str(format!(in alloc; "[39000000{behind},21000000{behind}]]")?.as_str())?;
    Ok(ring)
}

/// An order whose border has this many positions and its first one again.
fn order_of_positions(alloc: Global, count: u32) -> Result<String, AllocError> {
    let ring = ring_of(alloc, count, "e-6")?;
    let district = format!(in alloc; "{{\"type\":\"Polygon\",\"coordinates\":[{ring}]}}")?;
    order_over(alloc, MEMBERS, district.as_str())
}

/// Its line.
fn line_of_positions(alloc: Global, count: u32) -> Result<String, AllocError> {
    let ring = ring_of(alloc, count, "")?;
    format!(in alloc; "{{\"version\":1,{MEMBERS},\"district\":[[{ring}]]}}")
}

#[test]
fn a_border_has_at_most_4096_positions(rt: HostRuntime) -> Result<(), Fail> {
    let (order, line) = (
        order_of_positions(rt.alloc(), 4_095)?,
        line_of_positions(rt.alloc(), 4_095)?,
    );
    expect_line(&rt, order.as_str(), line.as_str())?;
    let order = order_of_positions(rt.alloc(), 4_096)?;
    expect_refusal(&rt, order.as_bytes(), "7 region 3")
}

#[test]
fn a_failed_read_ends_the_run(rt: HostRuntime) -> Result<(), Fail> {
    let answer = plain_slow_answer_to(rt.alloc(), "order", ORDER_B.as_bytes(), &[2])?;
    let wanted = (Status::ReadFault, "", "read fault\n");
    expect_told("order", &answer, wanted)
}

/// A write of the line fails: the room of the sink, its call that fails, and what it holds at the end.
fn expect_fault(
    rt: &(impl Abort + AllocGlobal),
    capacity: usize,
    failing: u32,
    written: &str,
) -> Result<(), Fail> {
    let answer = plain_answer_into(
        rt.alloc(),
        "order",
        ORDER_B.as_bytes(),
        (capacity, &[failing]),
        (200, &[]),
    )?;
    expect_told("order", &answer, (Status::WriteFault, written, FAULT))
}

/// The room of a sink, its call that fails, and what it holds at the end.
const FAULTS: [(usize, u32, &str); 3] = [(200, 1, ""), (200, 3, "{\""), (2, 9, "{\"")];

#[test]
fn a_failed_write_is_no_want_of_memory(rt: HostRuntime) -> Result<(), Fail> {
    for (capacity, failing, written) in &FAULTS {
        expect_fault(&rt, *capacity, *failing, written)?;
    }
    Ok(())
}
