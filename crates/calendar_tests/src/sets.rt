// The command `set`: its text whatever the number of workers, and what it refuses.
use run_samples::{ORDER_B, expect, expect_texts};
use std::test::Fail;
use timetable::Status;

/// One place twice, one day.
const SET_B: &str =
    r#"{"from":"2000-01-01","days":1,"method":"mwl","asr":"standard","zone":0,"district":{"type":"FeatureCollection","features":[{"type":"Feature","geometry":{"type":"Polygon","coordinates":[[[0.1,0],[0.1,0],[0.1,0],[0.1,0]]]}},{"type":"Feature","geometry":{"type":"Polygon","coordinates":[[[0.1,0],[0.1,0],[0.1,0],[0.1,0]]]}}]}}"#;

const TABLE_OF_SET_B: &str = "prayer set 1
from 2000-01-01 days 1 method mwl asr standard zone 0 positions 8
districts 2
date         fajr  f.end  dhuhr    asr   magh  m.end   isha
district 0
2000-01-01  04:45  05:59  12:03  15:29  18:07  19:17  19:18
district 1
2000-01-01  04:45  05:59  12:03  15:29  18:07  19:17  19:18
whole
2000-01-01  04:45  05:59  12:03  15:29  18:07  19:17  19:18
end days 1 districts 2 open 0
";

#[test]
fn districts_that_are_the_same_have_the_same_lines(rt: HostRuntime) -> Result<(), Fail> {
    let lines = ["set", "set --workers 1", "set --workers=16"];
    expect_texts(&rt, &lines, SET_B.as_bytes(), TABLE_OF_SET_B)
}

const NO_FEATURE: &str =
    r#"{"from":"2000-01-01","days":1,"method":"mwl","asr":"standard","zone":0,"district":{"type":"FeatureCollection","features":[]}}"#;

/// What is no collection of districts, or one of none.
const NO_SETS: [&str; 2] = [ORDER_B, NO_FEATURE];

#[test]
fn other_districts_are_refused(rt: HostRuntime) -> Result<(), Fail> {
    let refusal = "order refused 6 geometry\n";
    for order in &NO_SETS {
        expect(
            &rt,
            "set",
            order.as_bytes(),
            Status::OrderRefused,
            "",
            refusal,
        )?;
    }
    Ok(())
}
