// Orders and a table.
use std::alloc::{AllocError, Global};

/// A square of one degree, one day.
pub const ORDER_A: &str =
    r#"{"from":"2025-03-01","days":1,"method":"mwl","asr":"standard","zone":180,"district":{"type":"Polygon","coordinates":[[[39,21],[40,21],[40,22],[39,22],[39,21]]]}}"#;

/// One place, one day.
pub const ORDER_B: &str =
    r#"{"from":"2000-01-01","days":1,"method":"mwl","asr":"standard","zone":0,"district":{"type":"Polygon","coordinates":[[[0.1,0],[0.1,0],[0.1,0],[0.1,0]]]}}"#;

/// The table of one place and one day.
pub const TABLE_B: &str = "prayer timetable 1
from 2000-01-01 days 1 method mwl asr standard zone 0 positions 4
date         fajr  f.end  dhuhr    asr   magh  m.end   isha
2000-01-01  04:45  05:59  12:03  15:29  18:07  19:17  19:18
end days 1 open 0
";

/// What is written of the table of the same place and three days before a write fails in its third row.
pub const FIRST_DAYS: &str = "prayer timetable 1
from 2000-01-01 days 3 method mwl asr standard zone 0 positions 4
date         fajr  f.end  dhuhr    asr   magh  m.end   isha
2000-01-01  04:45  05:59  12:03  15:29  18:07  19:17  19:18
2000-01-02  04:45  05:59  12:04  15:29  18:08  19:17  19:18
2000-01-0";

/// The members of an order for ten days over the month's end.
pub const TEN_DAYS: &str =
    r#""from":"2025-02-22","days":10,"method":"makkah","asr":"hanafi","zone":180,"late_isha":[["2025-02-25","2025-03-26"]]"#;

/// Two polygons, one with a hole.
pub const TWO_PARTS: &str =
    r#"{"type":"MultiPolygon","coordinates":[[[[39,21],[39.4,21],[39.4,21.4],[39,21.4],[39,21]],[[39.1,21.1],[39.3,21.1],[39.3,21.3],[39.1,21.3],[39.1,21.1]]],[[[39.5,21],[39.6,21.1],[39.5,21.2],[39.5,21]]]]}"#;

/// The line on the error stream for words that are none.
pub const USAGE: &str =
    "usage: timetable table [--workers W] | cover [--workers W] [--form F] | demo [--number M] [--workers W] | plain | check | order | sun MINUTE LON LAT WHAT [meeus] | set [--workers W] | ical [--workers W] | agenda\n";

/// The order whose members but its district are these.
pub fn order_over(alloc: Global, members: &str, district: &str) -> Result<String, AllocError> {
    format!(in alloc; "{{{members},\"district\":{district}}}")
}
