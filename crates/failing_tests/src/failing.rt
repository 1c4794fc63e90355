// Reads, writes and reports that fail, through each command that has an input.
use no_memory::NoMemory;
use run_samples::{
    Answer, FIRST_DAYS, ORDER_B, TABLE_B, answer_into, answer_to, expect, expect_told, run_line,
    sink, slow_answer_to, source, text_of,
};
use source_sink::MemSink;
use std::process::Abort;
use std::sync::Wait;
use std::test::Fail;
use std::thread::Threads;
use timetable::Status;

const READERS: [&str; 6] = [
    "table --workers 2",
    "cover",
    "ical",
    "plain",
    "order",
    "check",
];

/// Those that read an order.
const ORDER_READERS: [&str; 5] = ["table --workers 2", "cover", "ical", "plain", "order"];

/// A run over a stream with this number answered this.
fn expect_told_at(
    rt: &impl Abort,
    (line, number): (&str, usize),
    answer: &Answer,
    wanted: (Status, &str, &str),
) {
    assert_eq!(rt; (line, number, answer.told()), (line, number, wanted));
}

/// The source's call of this number fails: nothing is written.
fn expect_read_fault<R: Threads + Wait + Sync + Abort + AllocGlobal>(
    rt: &R,
    line: &str,
    number: u32,
) -> Result<(), Fail> {
    let answer = slow_answer_to(rt, line, ORDER_B.as_bytes(), &[number])?;
    let wanted = (Status::ReadFault, "", "read fault\n");
    expect_told_at(rt, (line, number as usize), &answer, wanted);
    Ok(())
}

/// Each call of a source of one byte a call fails in turn.
fn expect_read_faults<R: Threads + Wait + Sync + Abort + AllocGlobal>(
    rt: &R,
    line: &str,
) -> Result<(), Fail> {
    for number in 1..ORDER_B.len() as u32 + 2 {
        expect_read_fault(rt, line, number)?;
    }
    Ok(())
}

/// A sink with room for so many bytes holds as many of the text.
fn expect_front<R: Threads + Wait + Sync + Abort + AllocGlobal>(
    rt: &R,
    line: &str,
    input: &[u8],
    text: &str,
    capacity: usize,
) -> Result<(), Fail> {
    let answer = answer_into(rt, line, input, (capacity, &[]), (100, &[]))?;
    let front = text.get(..capacity).unwrap_or(text);
    let wanted = (Status::WriteFault, front, "write fault\n");
    expect_told_at(rt, (line, capacity), &answer, wanted);
    Ok(())
}

/// Sinks with less room than the text: each room below 250 bytes, some above.
fn expect_fronts<R: Threads + Wait + Sync + Abort + AllocGlobal>(
    rt: &R,
    line: &str,
    input: &[u8],
    text: &str,
) -> Result<(), Fail> {
    for capacity in 0..text.len() {
        if capacity < 250 || capacity % 67 == 0 {
            expect_front(rt, line, input, text, capacity)?;
        }
    }
    Ok(())
}

/// A sink of less room than the text holds the text's first bytes.
fn expect_write_faults<R: Threads + Wait + Sync + Abort + AllocGlobal>(
    rt: &R,
    line: &str,
    input: &[u8],
) -> Result<(), Fail> {
    let whole = answer_to(rt, line, input)?;
    expect_told(line, &whole, (Status::Done, text_of(&whole.out), ""))?;
    expect_fronts(rt, line, input, text_of(&whole.out))
}

#[test]
fn each_failed_read_ends_each_command(rt: HostRuntime) -> Result<(), Fail> {
    for line in &READERS {
        expect_read_faults(&rt, line)?;
    }
    Ok(())
}

#[test]
fn a_full_sink_holds_the_first_bytes_of_each_text(rt: HostRuntime) -> Result<(), Fail> {
    let covering = answer_to(&rt, "cover", ORDER_B.as_bytes())?;
    expect_write_faults(&rt, "check", covering.out.bytes())?;
    for line in &ORDER_READERS {
        expect_write_faults(&rt, line, ORDER_B.as_bytes())?;
    }
    Ok(())
}

/// Bytes that come one by one get the same answer as all at once.
fn expect_same<R: Threads + Wait + Sync + Abort + AllocGlobal>(
    rt: &R,
    line: &str,
) -> Result<(), Fail> {
    let whole = answer_to(rt, line, ORDER_B.as_bytes())?;
    let slow = slow_answer_to(rt, line, ORDER_B.as_bytes(), &[])?;
    expect_told(line, &slow, whole.told())
}

#[test]
fn bytes_that_come_one_by_one_are_the_same_order(rt: HostRuntime) -> Result<(), Fail> {
    for line in &READERS {
        expect_same(&rt, line)?;
    }
    Ok(())
}

#[test]
fn a_part_of_an_order_is_refused(rt: HostRuntime) -> Result<(), Fail> {
    let part = ORDER_B.as_bytes();
    let part = &part[..part.len() - 1];
    let refusal = "order refused 1 json 1 at 150\n";
    for line in &ORDER_READERS {
        expect(&rt, line, part, Status::OrderRefused, "", refusal)?;
    }
    let refusal = "cover refused line 1 order 1 json 1 at 150\n";
    expect(&rt, "check", part, Status::CoverRefused, "", refusal)
}

/// A write fails in the third of three days.
fn expect_first_days<R: Threads + Wait + Sync + Abort + AllocGlobal>(
    rt: &R,
    line: &str,
    order: &[u8],
) -> Result<(), Fail> {
    let failing = FIRST_DAYS.len() as u32 + 1;
    let answer = answer_into(rt, line, order, (2000, &[failing]), (200, &[]))?;
    let wanted = (Status::WriteFault, FIRST_DAYS, "write fault\n");
    expect_told(line, &answer, wanted)
}

#[test]
fn a_failed_write_leaves_the_days_before_it(rt: HostRuntime) -> Result<(), Fail> {
    let days = ORDER_B.replace(rt.alloc(), r#""days":1"#, r#""days":3"#)?;
    expect_first_days(&rt, "table --workers 1", days.as_bytes())?;
    expect_first_days(&rt, "table --workers 3", days.as_bytes())?;
    expect_first_days(&rt, "plain", days.as_bytes())
}

/// The answer of `table` over a sink that may have failed before.
fn table_into<R: Threads + Wait + Sync + AllocGlobal>(
    rt: &R,
    out: MemSink,
) -> Result<Answer, NoMemory> {
    let mut order = source(rt.alloc(), ORDER_B.as_bytes())?;
    let err = sink(rt.alloc(), 200, &[])?;
    run_line(rt, "table", &mut order, out, err)
}

#[test]
fn a_sink_that_failed_once_is_used_again(rt: HostRuntime) -> Result<(), Fail> {
    let first = table_into(&rt, sink(rt.alloc(), 2000, &[1])?)?;
    let wanted = (Status::WriteFault, "", "write fault\n");
    expect_told("first", &first, wanted)?;
    let second = table_into(&rt, first.out)?;
    expect_told("second", &second, (Status::Done, TABLE_B, ""))
}

/// The first call of the error stream fails: the status is the same, and nothing is reported.
fn expect_status<R: Threads + Wait + Sync + Abort + AllocGlobal>(
    rt: &R,
    line: &str,
    input: &str,
    status: Status,
) -> Result<(), Fail> {
    let answer = answer_into(rt, line, input.as_bytes(), (0, &[]), (200, &[1]))?;
    expect_told(line, &answer, (status, "", ""))
}

#[test]
fn a_report_that_fails_changes_no_status(rt: HostRuntime) -> Result<(), Fail> {
    expect_status(&rt, "table 4", ORDER_B, Status::Usage)?;
    expect_status(&rt, "table", "{}", Status::OrderRefused)?;
    expect_status(&rt, "cover", "[", Status::OrderRefused)?;
    expect_status(&rt, "check", ORDER_B, Status::CoverRefused)?;
    expect_status(&rt, "table", ORDER_B, Status::WriteFault)
}
