// Worked rows of the table.
use method_table::{
    Asr, Column, Kind, Method, Problem, Side, asr_word, column_word, horizon, method_of,
    method_word, minute_of, noon_of, problems,
};
use std::process::Abort;

/// A height in metres, and both ends of its horizon.
const HORIZONS: [(u32, (i64, i64)); 4] = [
    (0, (119_952_000_000, 119_952_000_000)),
    (100, (169_920_000_000, 169_920_000_000)),
    (2, (127_018_542_328, 127_018_542_329)),
    (9000, (593_990_070_369, 593_990_070_370)),
];

fn expect_horizon(rt: &impl Abort, height: u32, wanted: (i64, i64)) {
    assert!(rt; height <= 9000);
    assert_eq!(rt; horizon(height), wanted);
}

#[test]
fn horizon_falls_with_the_height(rt: HostRuntime) {
    for (height, wanted) in &HORIZONS {
        expect_horizon(&rt, *height, *wanted);
    }
}

#[test]
fn noon_is_rounded_to_the_nearest_minute(rt: HostRuntime) {
    assert_eq!(rt; noon_of(39_000_000, 40_000_000, 180), 742);
    assert_eq!(rt; noon_of(0, 249_999, 0), 720);
    assert_eq!(rt; noon_of(0, 250_000, 0), 719);
    assert_eq!(rt; noon_of(-360_000_000, -360_000_000, 840), 120);
}

fn expect_fajr(rt: &impl Abort, fajr: &Problem) {
    assert!(rt; fajr.column == Column::Fajr && fajr.side == Side::Start && fajr.shift == 0);
    assert!(rt; fajr.first == 22 && fajr.last == 742 && fajr.base == 13_234_140);
    let low = 2_592_000_000_000;
    expect_kind(rt, fajr, Kind::Above { low, high: low });
    expect_minute(rt, fajr, 23);
}

fn expect_kind(rt: &impl Abort, problem: &Problem, wanted: Kind) {
    assert_eq!(rt; problem.kind, wanted);
}

/// The minute of the problem's rank 1.
fn expect_minute(rt: &impl Abort, problem: &Problem, wanted: i32) {
    assert_eq!(rt; minute_of(problem, 1), wanted);
}

fn expect_shift(rt: &impl Abort, problem: &Problem, wanted: i32) {
    assert_eq!(rt; problem.shift, wanted);
}

#[test]
fn a_day_of_mwl(rt: HostRuntime) {
    let [fajr, _, dhuhr, asr, _, end, isha] = problems(
        Method::Mwl,
        Asr::Standard,
        20_148,
        180,
        742,
        0,
        90,
    );
    expect_fajr(&rt, &fajr);
    expect_minute(&rt, &end, 1461);
    assert_eq!(rt; dhuhr.first, 382);
    expect_kind(&rt, &asr, Kind::Shadow { factor: 1 });
    expect_shift(&rt, &isha, 0);
}

#[test]
fn makkah_waits_after_maghrib(rt: HostRuntime) {
    let [_, _, _, _, maghrib, end, isha] = problems(Method::Makkah, Asr::Hanafi, 0, 0, 0, 100, 120);
    expect_shift(&rt, &end, 120);
    expect_kind(&rt, &isha, maghrib.kind);
}

fn expect_word(rt: &impl Abort, found: &str, wanted: &str) {
    assert_eq!(rt; found, wanted);
}

#[test]
fn words_name_their_methods(rt: HostRuntime) {
    assert!(rt; method_of("karachi") == Some(Method::Karachi));
    assert!(rt; method_of("mecca").is_none());
    expect_word(&rt, method_word(Method::Isna), "isna");
    expect_word(&rt, asr_word(Asr::Hanafi), "hanafi");
    expect_word(&rt, column_word(Column::MaghribEnd), "maghrib_end");
}
