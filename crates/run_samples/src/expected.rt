// What runs are expected to answer: a test fails with what each of these says.
use crate::answers::{Answer, answer_to, plain_answer_into, plain_answer_to};
use crate::orders::{ORDER_B, USAGE};
use std::alloc::Global;
use std::sync::Wait;
use std::test::Fail;
use std::thread::Threads;
use timetable::Status;

/// The line of a fault in a write.
pub const FAULT: &str = "write fault\n";

/// A run, by its words or another name, answered this.
pub fn expect_told(run: &str, answer: &Answer, wanted: (Status, &str, &str)) -> Result<(), Fail> {
    let told = answer.told();
    if told == wanted {
        Ok(())
    } else {
        Err(Fail::new(format_args!("{run}: {told:?} in place of {wanted:?}")))
    }
}

/// The status of the words over the input, and all that they write.
pub fn expect<R: Threads + Wait + Sync + AllocGlobal>(
    rt: &R,
    line: &str,
    input: &[u8],
    status: Status,
    out: &str,
    err: &str,
) -> Result<(), Fail> {
    expect_told(line, &answer_to(rt, line, input)?, (status, out, err))
}

/// The words get the text.
pub fn expect_text<R: Threads + Wait + Sync + AllocGlobal>(
    rt: &R,
    line: &str,
    input: &[u8],
    text: &str,
) -> Result<(), Fail> {
    expect(rt, line, input, Status::Done, text, "")
}

/// Each of these lines of words gets the text.
pub fn expect_texts<R: Threads + Wait + Sync + AllocGlobal>(
    rt: &R,
    lines: &[&str],
    input: &[u8],
    text: &str,
) -> Result<(), Fail> {
    for line in lines {
        expect_text(rt, line, input, text)?;
    }
    Ok(())
}

/// Each of these lines of words is refused.
pub fn expect_usage<R: Threads + Wait + Sync + AllocGlobal>(
    rt: &R,
    lines: &[&str],
) -> Result<(), Fail> {
    for line in lines {
        expect(rt, line, ORDER_B.as_bytes(), Status::Usage, "", USAGE)?;
    }
    Ok(())
}

/// The covering that the words write of an order shows the table.
pub fn expect_covered<R: Threads + Wait + Sync + AllocGlobal>(
    rt: &R,
    line: &str,
    order: &[u8],
    table: &str,
) -> Result<(), Fail> {
    let covering = answer_to(rt, line, order)?;
    expect_text(rt, "check", covering.out.bytes(), table)
}

/// The status of the words over the input on this thread alone, and all that they write.
pub fn expect_plain(
    alloc: Global,
    line: &str,
    input: &[u8],
    status: Status,
    out: &str,
    err: &str,
) -> Result<(), Fail> {
    expect_told(
        line,
        &plain_answer_to(alloc, line, input)?,
        (status, out, err),
    )
}

/// A sink with room for so many bytes holds as many of the text, and a write failed.
pub fn expect_front(
    alloc: Global,
    line: &str,
    input: &[u8],
    text: &str,
    capacity: usize,
) -> Result<(), Fail> {
    let answer = plain_answer_into(alloc, line, input, (capacity, &[]), (200, &[]))?;
    let front = text.get(..capacity).unwrap_or(text);
    expect_told(line, &answer, (Status::WriteFault, front, FAULT))
}
