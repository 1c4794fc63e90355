// Orders with the sun of Meeus, or with a rule for nights.
use run_samples::{ORDER_A, ORDER_B, expect_plain};
use std::alloc::{AllocError, Global};
use std::test::Fail;
use timetable::Status;

/// An order with the member `more` before its district.
fn with_member(alloc: Global, order: &str, more: &str) -> Result<String, AllocError> {
    let members = format!(in alloc; "{more},\"district\"")?;
    order.replace(alloc, "\"district\"", members.as_str())
}

const LINE_OF_MEEUS: &str =
    r#"{"version":3,"from":"2025-03-01","days":1,"method":"mwl","asr":"standard","zone":180,"height":0,"late_isha":[],"sun":"meeus","district":[[[[39000000,21000000],[40000000,21000000],[40000000,22000000],[39000000,22000000],[39000000,21000000]]]]}
"#;

const LINE_OF_NIGHTS: &str =
    r#"{"version":4,"from":"2025-03-01","days":1,"method":"mwl","asr":"standard","zone":180,"height":0,"late_isha":[],"sun":"usno","night":"angle","district":[[[[39000000,21000000],[40000000,21000000],[40000000,22000000],[39000000,22000000],[39000000,21000000]]]]}
"#;

/// What an order is asked for beside its other members, and its canonical line or its refusal.
const LINES: [(&str, Status, &str, &str); 5] = [
    (r#""sun":"meeus""#, Status::Done, LINE_OF_MEEUS, ""),
    (r#""night":"angle""#, Status::Done, LINE_OF_NIGHTS, ""),
    (
        r#""sun":"moon""#,
        Status::OrderRefused,
        "",
        "order refused 5 range sun\n",
    ),
    (
        r#""night":"third""#,
        Status::OrderRefused,
        "",
        "order refused 5 range night\n",
    ),
    (
        r#""night":7,"sun":null"#,
        Status::OrderRefused,
        "",
        "order refused 4 kind sun\n",
    ),
];

#[test]
fn suns_and_rules_stand_in_the_line(rt: HostRuntime) -> Result<(), Fail> {
    for (more, status, line, refusal) in &LINES {
        let order = with_member(rt.alloc(), ORDER_A, more)?;
        expect_plain(
            rt.alloc(),
            "order",
            order.as_bytes(),
            *status,
            line,
            refusal,
        )?;
    }
    Ok(())
}

const TABLE_OF_MEEUS: &str = "prayer timetable 1
from 2025-03-01 days 1 method mwl asr standard zone 180 positions 5 sun meeus
date         fajr  f.end  dhuhr    asr   magh  m.end   isha
2025-03-01  05:31  06:40  12:37  15:58  18:29  19:33  19:39
end days 1 open 0
";

const TABLE_OF_A_NIGHT: &str = "prayer timetable 1
from 2000-01-01 days 1 method mwl asr standard zone 0 positions 4
date         fajr  f.end  dhuhr    asr   magh  m.end   isha
2000-01-01  04:45  05:59  12:03  15:29  18:07  19:17  19:18
night fajr  04:45 isha  19:18
end days 1 open 0
";

/// A place at 60 degrees north in June.
const NORTH: &str =
    r#"{"from":"2025-06-21","days":1,"method":"mwl","asr":"standard","zone":180,"district":{"type":"Polygon","coordinates":[[[30,60],[30,60],[30,60],[30,60]]]}}"#;

const TABLE_OF_A_LIGHT_NIGHT: &str = "prayer timetable 1
from 2025-06-21 days 1 method mwl asr standard zone 180 positions 4 sun meeus
date         fajr  f.end  dhuhr    asr   magh  m.end   isha
2025-06-21  **:**  03:35  13:02  17:44  22:28  **:**  --:--
night fajr  02:04 isha  23:56
end days 1 open 0
";

/// An order, what it is asked for beside its other members, and its table.
const TABLES: [(&str, &str, &str); 3] = [
    (ORDER_A, r#""sun":"meeus""#, TABLE_OF_MEEUS),
    (ORDER_B, r#""night":"seventh""#, TABLE_OF_A_NIGHT),
    (
        NORTH,
        r#""sun":"meeus","night":"angle""#,
        TABLE_OF_A_LIGHT_NIGHT,
    ),
];

#[test]
fn suns_and_rules_have_their_tables(rt: HostRuntime) -> Result<(), Fail> {
    for (order, more, table) in &TABLES {
        let order = with_member(rt.alloc(), order, more)?;
        expect_plain(
            rt.alloc(),
            "plain",
            order.as_bytes(),
            Status::Done,
            table,
            "",
        )?;
    }
    Ok(())
}
