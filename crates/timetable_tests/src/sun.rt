// The command `sun`: its words, its line and its sinks.
use no_memory::NoMemory;
use run_samples::{
    Answer, FAULT, USAGE, expect_front, expect_plain, expect_told, plain_answer_into,
    run_plain_line, source,
};
use std::alloc::Global;
use std::test::Fail;
use timetable::Status;

const LINE: &str = "minute 0 lon 0.000000 lat 0.000000 angle 0.000000 above\n";

const WRONG_WORDS: [&str; 36] = [
    "",
    "tabel",
    "Order",
    "order order",
    "plain --",
    "sun",
    "sun 0 0 0",
    "sun 0 0 0 0 0",
    "sun -0 0 0 0",
    "sun +1 0 0 0",
    "sun 01 0 0 0",
    "sun 00 0 0 0",
    "sun - 0 0 0",
    "sun 1.0 0 0 0",
    "sun 53200001 0 0 0",
    "sun -53200001 0 0 0",
    "sun 99999999999999999999 0 0 0",
    "sun 0 - 0 0",
    "sun 0 . 0 0",
    "sun 0 1. 0 0",
    "sun 0 .5 0 0",
    "sun 0 +1 0 0",
    "sun 0 --1 0 0",
    "sun 0 1e1 0 0",
    "sun 0 1,5 0 0",
    "sun 0 0001 0 0",
    "sun 0 0.0000001 0 0",
    "sun 0 360.000001 0 0",
    "sun 0 -360.000001 0 0",
    "sun 0 0 65.000001 0",
    "sun 0 0 -65.000001 0",
    "sun 0 0 0 -1",
    "sun 0 0 0 30.000001",
    "sun 0 0 0 -meridian",
    "sun 0 0 0 asr",
    "sun 0 0 0 asr3",
];

#[test]
fn wrong_words_get_the_usage_line(rt: HostRuntime) -> Result<(), Fail> {
    for words in &WRONG_WORDS {
        expect_plain(rt.alloc(), words, b"", Status::Usage, "", USAGE)?;
    }
    Ok(())
}

/// Words, and the line that they get.
const RIGHT_WORDS: [(&str, &str); 14] = [
    ("sun 0 0 0 0", LINE),
    (
        "sun 720 0 0 18",
        "minute 720 lon 0.000000 lat 0.000000 angle 18.000000 below\n",
    ),
    (
        "sun -52560000 0 0 0",
        "minute -52560000 lon 0.000000 lat 0.000000 angle 0.000000 above\n",
    ),
    (
        "sun 53200000 360 65 30",
        "minute 53200000 lon 360.000000 lat 65.000000 angle 30.000000 below\n",
    ),
    (
        "sun -53200000 -360 -65 0",
        "minute -53200000 lon -360.000000 lat -65.000000 angle 0.000000 below\n",
    ),
    (
        "sun 1 -0 007.5 00.000001",
        "minute 1 lon 0.000000 lat 7.500000 angle 0.000001 above\n",
    ),
    (
        "sun 208 -0.1 65.0 29.999999",
        "minute 208 lon -0.100000 lat 65.000000 angle 29.999999 above\n",
    ),
    (
        "sun 0 0 0 meridian",
        "minute 0 lon 0.000000 lat 0.000000 meridian before\n",
    ),
    (
        "sun 0 1 0 meridian",
        "minute 0 lon 1.000000 lat 0.000000 meridian after\n",
    ),
    (
        "sun 208 0.1 0 asr1",
        "minute 208 lon 0.100000 lat 0.000000 asr 1 before\n",
    ),
    (
        "sun 209 0.1 0 asr1",
        "minute 209 lon 0.100000 lat 0.000000 asr 1 after\n",
    ),
    (
        "sun 270 0.1 0 asr2",
        "minute 270 lon 0.100000 lat 0.000000 asr 2 after\n",
    ),
    (
        "sun 0 0 0 0 meeus",
        "minute 0 lon 0.000000 lat 0.000000 angle 0.000000 meeus above\n",
    ),
    (
        "sun 0 0 0 meridian meeus",
        "minute 0 lon 0.000000 lat 0.000000 meridian meeus before\n",
    ),
];

#[test]
fn right_words_get_a_line(rt: HostRuntime) -> Result<(), Fail> {
    for (words, line) in &RIGHT_WORDS {
        expect_plain(rt.alloc(), words, b"", Status::Done, line, "")?;
    }
    Ok(())
}

/// What the words answer into the streams of an earlier run.
fn again(alloc: Global, line: &str, answer: Answer) -> Result<Answer, NoMemory> {
    let mut source = source(alloc, b"")?;
    run_plain_line(alloc, line, &mut source, answer.out, answer.err)
}

#[test]
fn a_failed_write_is_no_later_fault(rt: HostRuntime) -> Result<(), Fail> {
    let line = "sun 0 0 0 0";
    let first = plain_answer_into(rt.alloc(), line, b"", (200, &[1]), (200, &[]))?;
    expect_told("first", &first, (Status::WriteFault, "", FAULT))?;
    let second = again(rt.alloc(), line, first)?;
    expect_told("second", &second, (Status::Done, LINE, FAULT))
}

#[test]
fn a_failing_error_stream_is_passed_over(rt: HostRuntime) -> Result<(), Fail> {
    let answer = plain_answer_into(rt.alloc(), "sun", b"", (0, &[]), (200, &[1]))?;
    expect_told("sun", &answer, (Status::Usage, "", ""))
}

#[test]
fn a_full_sink_holds_the_first_bytes(rt: HostRuntime) -> Result<(), Fail> {
    for capacity in 0..LINE.len() {
        expect_front(rt.alloc(), "sun 0 0 0 0", b"", LINE, capacity)?;
    }
    Ok(())
}
