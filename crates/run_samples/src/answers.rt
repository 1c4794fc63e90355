// Runs of the words of a line, and what they answer.
use crate::streams::{sink, slow_source, source};
use no_memory::NoMemory;
use source_sink::{MemSink, Source};
use std::alloc::Global;
use std::str;
use std::sync::Wait;
use std::thread::Threads;
use steal_pool::{Gate, OpenGate};
use timetable::{Status, run, run_plain};

/// What a run answered.
#[derive(Drop)]
pub struct Answer {
    pub status: Status,
    pub out: MemSink,
    pub err: MemSink,
}

/// The text that a sink holds.
pub fn text_of(sink: &MemSink) -> &str {
    str::from_utf8(sink.bytes()).unwrap_or("not UTF-8")
}

impl Answer {
    /// The status, and the text that each stream holds.
    pub fn told(&self) -> (Status, &str, &str) {
        (self.status, text_of(&self.out), text_of(&self.err))
    }
}

/// The words of a line.
fn words_of(alloc: Global, line: &str) -> Result<Vec<String>, NoMemory> {
    let mut words = Vec::new(alloc);
    for word in line.split_whitespace() {
        words.push(String::from_str(alloc, word)?)?;
    }
    Ok(words)
}

/// Runs the words of a line, whose workers pass the gate.
fn run_through<R: Threads + Wait + Sync + AllocGlobal, S: Source, G: Gate + Sync>(
    rt: &R,
    line: &str,
    source: &mut S,
    (mut out, mut err): (MemSink, MemSink),
    gate: &G,
) -> Result<Answer, NoMemory> {
    let words = words_of(rt.alloc(), line)?;
    let status = run(rt, rt.alloc(), &words, source, &mut out, &mut err, gate);
    Ok(Answer { status, out, err })
}

/// Runs the words of a line.
pub fn run_line<R: Threads + Wait + Sync + AllocGlobal, S: Source>(
    rt: &R,
    line: &str,
    source: &mut S,
    out: MemSink,
    err: MemSink,
) -> Result<Answer, NoMemory> {
    run_through(rt, line, source, (out, err), &OpenGate)
}

/// Runs the words of a line on one thread.
pub fn run_plain_line<S: Source>(
    alloc: Global,
    line: &str,
    source: &mut S,
    mut out: MemSink,
    mut err: MemSink,
) -> Result<Answer, NoMemory> {
    let words = words_of(alloc, line)?;
    let status = run_plain(alloc, &words, source, &mut out, &mut err);
    Ok(Answer { status, out, err })
}

/// Two sinks: the room of each, and the numbers of its calls that fail.
fn sinks(
    alloc: Global,
    (out, out_fails): (usize, &[u32]),
    (err, err_fails): (usize, &[u32]),
) -> Result<(MemSink, MemSink), NoMemory> {
    Ok((sink(alloc, out, out_fails)?, sink(alloc, err, err_fails)?))
}

/// Sinks with room for every text of a test.
fn wide_sinks(alloc: Global) -> Result<(MemSink, MemSink), NoMemory> {
    sinks(alloc, (100_000, &[]), (300, &[]))
}

/// What the words of a line answer to an input, where each worker passes the gate.
pub fn answer_through<R: Threads + Wait + Sync + AllocGlobal, G: Gate + Sync>(
    rt: &R,
    line: &str,
    input: &[u8],
    gate: &G,
) -> Result<Answer, NoMemory> {
    let mut source = source(rt.alloc(), input)?;
    run_through(rt, line, &mut source, wide_sinks(rt.alloc())?, gate)
}

/// What the words of a line answer to an input.
pub fn answer_to<R: Threads + Wait + Sync + AllocGlobal>(
    rt: &R,
    line: &str,
    input: &[u8],
) -> Result<Answer, NoMemory> {
    answer_through(rt, line, input, &OpenGate)
}

/// What the words of a line answer to an input, into streams with so much room whose calls with these numbers fail.
pub fn answer_into<R: Threads + Wait + Sync + AllocGlobal>(
    rt: &R,
    line: &str,
    input: &[u8],
    out: (usize, &[u32]),
    err: (usize, &[u32]),
) -> Result<Answer, NoMemory> {
    let mut source = source(rt.alloc(), input)?;
    let sinks = sinks(rt.alloc(), out, err)?;
    run_through(rt, line, &mut source, sinks, &OpenGate)
}

/// What the words of a line answer to an input of one byte a call, whose calls with these numbers fail.
pub fn slow_answer_to<R: Threads + Wait + Sync + AllocGlobal>(
    rt: &R,
    line: &str,
    input: &[u8],
    failing: &[u32],
) -> Result<Answer, NoMemory> {
    let mut source = slow_source(rt.alloc(), input, failing)?;
    run_through(rt, line, &mut source, wide_sinks(rt.alloc())?, &OpenGate)
}

/// What the words of a line answer to an input on one thread.
pub fn plain_answer_to(alloc: Global, line: &str, input: &[u8]) -> Result<Answer, NoMemory> {
    let mut source = source(alloc, input)?;
    let (out, err) = wide_sinks(alloc)?;
    run_plain_line(alloc, line, &mut source, out, err)
}

/// The same into streams with so much room whose calls with these numbers fail.
pub fn plain_answer_into(
    alloc: Global,
    line: &str,
    input: &[u8],
    out: (usize, &[u32]),
    err: (usize, &[u32]),
) -> Result<Answer, NoMemory> {
    let mut source = source(alloc, input)?;
    let (out, err) = sinks(alloc, out, err)?;
    run_plain_line(alloc, line, &mut source, out, err)
}

/// What the words of a line answer on one thread to an input of one byte a call, whose calls with these numbers fail.
pub fn plain_slow_answer_to(
    alloc: Global,
    line: &str,
    input: &[u8],
    failing: &[u32],
) -> Result<Answer, NoMemory> {
    let mut source = slow_source(alloc, input, failing)?;
    let (out, err) = wide_sinks(alloc)?;
    run_plain_line(alloc, line, &mut source, out, err)
}
