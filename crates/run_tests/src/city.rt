// A city of 300 positions, its tables under both suns, and the order that a number makes.
use demo_summary::demo_order;
use no_memory::NoMemory;
use order_text::order_line;
use run_samples::{expect_covered, expect_texts, order_over};
use std::alloc::{AllocError, Global};
use std::process::Abort;
use std::sync::Wait;
use std::test::Fail;
use std::thread::Threads;

const MEMBERS: &str = r#""from":"2025-02-22","days":7,"method":"mwl","asr":"standard","zone":180"#;

const TABLE: &str = "prayer timetable 1
from 2025-02-22 days 7 method mwl asr standard zone 180 positions 300
date         fajr  f.end  dhuhr    asr   magh  m.end   isha
2025-02-22  05:34  06:46  12:36  15:55  18:24  19:31  19:34
2025-02-23  05:33  06:45  12:36  15:55  18:24  19:32  19:34
2025-02-24  05:33  06:44  12:35  15:56  18:25  19:32  19:35
2025-02-25  05:32  06:43  12:35  15:56  18:25  19:32  19:35
2025-02-26  05:31  06:43  12:35  15:56  18:25  19:33  19:35
2025-02-27  05:30  06:42  12:35  15:56  18:26  19:33  19:36
2025-02-28  05:30  06:41  12:35  15:56  18:26  19:33  19:36
end days 7 open 0
";

const TABLE_OF_MEEUS: &str = "prayer timetable 1
from 2025-02-22 days 7 method mwl asr standard zone 180 positions 300 sun meeus
date         fajr  f.end  dhuhr    asr   magh  m.end   isha
2025-02-22  05:34  06:46  12:36  15:55  18:24  19:31  19:34
2025-02-23  05:33  06:45  12:36  15:55  18:24  19:32  19:34
2025-02-24  05:33  06:44  12:35  15:56  18:25  19:32  19:34
2025-02-25  05:32  06:43  12:35  15:56  18:25  19:32  19:35
2025-02-26  05:31  06:43  12:35  15:56  18:25  19:33  19:35
2025-02-27  05:30  06:42  12:35  15:56  18:26  19:33  19:36
2025-02-28  05:30  06:41  12:35  15:56  18:26  19:33  19:36
end days 7 open 0
";

/// A position in microdegrees, with an altitude, behind a ring's others.
fn push_position(alloc: Global, ring: &mut String, x: u64, y: u64) -> Result<(), AllocError> {
    let position = format!(in alloc; "[{x}e-6,{y}e-6,277],")?;
    ring.push_str(position.as_str())
}

/// A ring with teeth along both sides: this many positions to the east, as many back, and the first again.
fn comb(
    alloc: Global,
    west: u32,
    south: u32,
    height: u32,
    count: u32,
) -> Result<String, AllocError> {
    let mut ring = String::from_str(alloc, "[")?;
    for i in 0..count {
        let x = west as u64 + i as u64 * 3_000;
        let y = south as u64 + height as u64 + i as u64 * 7919 % 9000;
        push_position(alloc, &mut ring, x, y)?;
    }
    for i in 0..count {
        let x = west as u64 + count as u64 * 3_000 - i as u64 * 3_000;
        let y = south as u64 + i as u64 * 7919 % 9000;
        push_position(alloc, &mut ring, x, y)?;
    }
    let y = south as u64 + height as u64;
    let last = format!(in alloc; "[{west}e-6,{y}e-6]]")?;
    ring.push_str(last.as_str())?;
    Ok(ring)
}

/// An order for two parts of a city, each with a hole, 40 km from end to end.
fn city(alloc: Global, members: &str) -> Result<String, AllocError> {
    let west = comb(alloc, 39_540_000, 21_250_000, 250_000, 80)?;
    let west_hole = comb(alloc, 39_590_000, 21_350_000, 80_000, 20)?;
    let east = comb(alloc, 39_800_000, 21_230_000, 300_000, 40)?;
    let east_hole = comb(alloc, 39_820_000, 21_300_000, 100_000, 8)?;
    let district = format!(in alloc;
        "{{\"type\":\"FeatureCollection\",\"features\":[{{\"type\":\"Feature\",\"properties\":{{\"name\":\"city\"}},\"geometry\":{{\"type\":\"MultiPolygon\",\"coordinates\":[[{west},{west_hole}],[{east},{east_hole}]]}}}}]}}"
    )?;
    order_over(alloc, members, district.as_str())
}

const LINES: [&str; 4] = [
    "plain",
    "table --workers 1",
    "table --workers 2",
    "table --workers 16",
];

/// The city's table by any number of workers, and by its covering.
fn expect_city<R: Threads + Wait + Sync + Abort + AllocGlobal>(
    rt: &R,
    members: &str,
    table: &str,
) -> Result<(), Fail> {
    let order = city(rt.alloc(), members)?;
    expect_texts(rt, &LINES, order.as_bytes(), table)?;
    expect_covered(rt, "cover", order.as_bytes(), table)
}

#[test]
fn a_city_gets_its_table_by_any_number_of_workers(rt: HostRuntime) -> Result<(), Fail> {
    expect_city(&rt, MEMBERS, TABLE)
}

#[test]
fn a_city_gets_its_table_under_the_sun_of_meeus(rt: HostRuntime) -> Result<(), Fail> {
    let members = format!(in rt.alloc(); "{MEMBERS},\"sun\":\"meeus\"")?;
    expect_city(&rt, members.as_str(), TABLE_OF_MEEUS)
}

/// The line of the order that the number 1 makes.
fn line_of_demo(alloc: Global) -> Result<Vec<u8>, NoMemory> {
    let order = demo_order(alloc, 1)?;
    order_line(alloc, &order)
}

#[test]
fn a_number_makes_its_order(rt: HostRuntime) -> Result<(), Fail> {
    let line = line_of_demo(rt.alloc())?;
    let beginning =
        r#"{"version":1,"from":"2025-01-27","days":30,"method":"tehran","asr":"hanafi","zone":60,"district":[[[[8106032,-33106032],[8096160,-33084140],"#;
    assert!(rt; line.starts_with(beginning.as_bytes()));
    Ok(())
}
