// Orders with their canonical lines.
use order_reader::read_order;
use order_text::{order_line, read_order_line};
use std::alloc::{AllocError, Global};
use std::process::Abort;
use std::test::Fail;

fn text_of(alloc: Global, line: &[u8]) -> Result<String, AllocError> {
    match std::str::from_utf8(line) {
        Ok(text) => String::from_str(alloc, text),
        Err(_) => String::from_str(alloc, "no text"),
    }
}

fn line_of(alloc: Global, text: &str) -> Result<String, AllocError> {
    match read_order(alloc, text.as_bytes()) {
        Ok(order) => match order_line(alloc, &order) {
            Ok(line) => text_of(alloc, line.as_slice()),
            Err(_) => String::from_str(alloc, "no memory"),
        },
        Err(_) => String::from_str(alloc, "refused"),
    }
}

// The canonical line of the order of a canonical line.
fn line_again(alloc: Global, line: &str) -> Result<String, AllocError> {
    match read_order_line(alloc, line.as_bytes()) {
        Ok(order) => match order_line(alloc, &order) {
            Ok(line) => text_of(alloc, line.as_slice()),
            Err(_) => String::from_str(alloc, "no memory"),
        },
        Err(_) => String::from_str(alloc, "refused"),
    }
}

// Each order with its canonical line.
const LINES: [(&str, &str); 7] = [
    (
        r#"{"from":"2025-03-01","days":1,"method":"mwl","asr":"standard","zone":180,"district":{"type":"Polygon","coordinates":[[[39,21],[40,21],[40,22],[39,22],[39,21]]]}}"#,
        r#"{"version":1,"from":"2025-03-01","days":1,"method":"mwl","asr":"standard","zone":180,"district":[[[[39000000,21000000],[40000000,21000000],[40000000,22000000],[39000000,22000000],[39000000,21000000]]]]}
"#,
    ),
    (
        r#"{"from":"2025-03-01","days":1,"method":"mwl","asr":"standard","zone":-1.80e2,"height":100,"district":{"type":"Polygon","coordinates":[[[39,21],[40,21],[40,22],[39,21]]]}}"#,
        r#"{"version":2,"from":"2025-03-01","days":1,"method":"mwl","asr":"standard","zone":-180,"height":100,"late_isha":[],"district":[[[[39000000,21000000],[40000000,21000000],[40000000,22000000],[39000000,21000000]]]]}
"#,
    ),
    (
        r#"{"late_isha":[["2025-03-01","2025-03-30"],["2100-12-31","2100-12-31"]],"zone":"CET-1CEST,M3.5.0,M10.5.0/3","method":"makkah","asr":"hanafi","days":366,"from":"1900-01-01","district":{"type":"Polygon","coordinates":[[[0,0],[-1,0],[0,-0.5],[0,0]]]}}"#,
        r#"{"version":2,"from":"1900-01-01","days":366,"method":"makkah","asr":"hanafi","zone":"CET-1CEST,M3.5.0,M10.5.0/3","height":0,"late_isha":[["2025-03-01","2025-03-30"],["2100-12-31","2100-12-31"]],"district":[[[[0,0],[-1000000,0],[0,-500000],[0,0]]]]}
"#,
    ),
    (
        r#"{"from":"2000-02-29","days":1,"method":"jafari","asr":"standard","zone":0,"height":0,"late_isha":[],"sun":"usno","district":{"type":"MultiPolygon","coordinates":[[[[0,0],[1,0],[0,1],[0,0]],[[1,1],[1,1],[1,1],[1,1]]],[[[2,2],[2,2],[2,2],[2,2]]]]}}"#,
        r#"{"version":1,"from":"2000-02-29","days":1,"method":"jafari","asr":"standard","zone":0,"district":[[[[0,0],[1000000,0],[0,1000000],[0,0]],[[1000000,1000000],[1000000,1000000],[1000000,1000000],[1000000,1000000]]],[[[2000000,2000000],[2000000,2000000],[2000000,2000000],[2000000,2000000]]]]}
"#,
    ),
    (
        r#"{"from":"2025-03-01","days":1,"method":"mwl","asr":"standard","zone":180,"sun":"meeus","district":{"type":"Polygon","coordinates":[[[39,21],[40,21],[40,22],[39,21]]]}}"#,
        r#"{"version":3,"from":"2025-03-01","days":1,"method":"mwl","asr":"standard","zone":180,"height":0,"late_isha":[],"sun":"meeus","district":[[[[39000000,21000000],[40000000,21000000],[40000000,22000000],[39000000,21000000]]]]}
"#,
    ),
    (
        r#"{"from":"2025-03-01","days":1,"method":"mwl","asr":"standard","zone":180,"night":"seventh","district":{"type":"Polygon","coordinates":[[[39,21],[40,21],[40,22],[39,21]]]}}"#,
        r#"{"version":4,"from":"2025-03-01","days":1,"method":"mwl","asr":"standard","zone":180,"height":0,"late_isha":[],"sun":"usno","night":"seventh","district":[[[[39000000,21000000],[40000000,21000000],[40000000,22000000],[39000000,21000000]]]]}
"#,
    ),
    (
        r#"{"from":"2025-03-01","days":1,"method":"makkah","asr":"standard","zone":180,"night":"angle","sun":"meeus","height":9000,"late_isha":[["2025-03-01","2025-03-01"]],"district":{"type":"Polygon","coordinates":[[[39,21],[40,21],[40,22],[39,21]]]}}"#,
        r#"{"version":4,"from":"2025-03-01","days":1,"method":"makkah","asr":"standard","zone":180,"height":9000,"late_isha":[["2025-03-01","2025-03-01"]],"sun":"meeus","night":"angle","district":[[[[39000000,21000000],[40000000,21000000],[40000000,22000000],[39000000,21000000]]]]}
"#,
    ),
];

/// A call made this line.
fn expect_line(rt: &impl Abort, got: Result<String, AllocError>, line: &str) -> Result<(), Fail> {
    let got = got?;
    assert_eq!(rt; got.as_str(), line);
    Ok(())
}

#[test]
fn an_order_has_one_line(rt: HostRuntime) -> Result<(), Fail> {
    for (text, line) in &LINES {
        expect_line(&rt, line_of(rt.alloc(), text), line)?;
    }
    Ok(())
}

#[test]
fn a_line_is_read_again_without_its_end(rt: HostRuntime) -> Result<(), Fail> {
    for (_, line) in &LINES {
        expect_line(&rt, line_again(rt.alloc(), line.trim_end()), line)?;
    }
    Ok(())
}
