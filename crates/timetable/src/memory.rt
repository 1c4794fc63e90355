// The top call over memory, where each law says what came of a run.
ghost use Rattle.std.specs.Prelude.{Some, map, string_bytes};
ghost use Rattle.outcome.specs.Streams.{stream, streams};
ghost use Rattle.source_sink.specs.Sure.{told_of};
ghost use Rattle.timetable.specs.Memory.{KeepsTheLaws};
ghost use Rattle.command_words.specs.Words.{command_of, without_workers};

use crate::top_calls::run_plain;
use outcome::Status;
use source_sink::{SureSink, SureSource};
use std::alloc::Global;

/// Runs the words over bytes in memory and into sinks in memory, which count no fault.
pub fn run_in_memory(
    alloc: Global,
    words: &[String],
    source: &mut SureSource,
    out: &mut SureSink,
    err: &mut SureSink,
) -> Status
    ensures { KeepsTheLaws (without_workers (command_of (map string_bytes words.now))) source.old result
        (streams (stream (Some source.old) 0) (stream (told_of out.old) 0) (stream (told_of err.old) 0))
        (streams (stream (Some source.new) 0) (stream (told_of out.new) 0) (stream (told_of err.new) 0)) }
{
    run_plain(alloc, words, source, out, err)
}
