// The answer to the words and the input.
ghost use Rattle.std.specs.Prelude.{map, string_bytes};
ghost use Rattle.outcome.specs.Endings.{IsRefusedBy};
ghost use Rattle.outcome.specs.Streams.{stream};
ghost use Rattle.border_answer.specs.Answer.{usage_line};
ghost use Rattle.border_answer.specs.Ended.{Answers};

use crate::verdict::{are_sound, write_verdict};
use border_input::request_from;
use outcome::{Ending, Status, ending_of};
use source_sink::{Sink, Source};
use std::alloc::Global;

#[tactic(auto, unfolding(crate::specs::Answer::usage_line))]
fn usage(alloc: Global) -> Ending
    ensures { IsRefusedBy Status.Usage usage_line result }
{
    Ending::with_line(
        alloc,
        Status::Usage,
        "usage: timetable-border < an object with an order and a border\n",
    )
}

/// Reads an order and a border, and writes the verdict on them; it takes no words.
pub(crate) fn answer<S: Source, K: Sink>(
    alloc: Global,
    words: &[String],
    source: &mut S,
    out: &mut K,
) -> Ending
    ensures { Answers (map string_bytes words.now) result
        (stream (S.left source.old) (S.faults source.old)) (stream (S.left source.new) (S.faults source.new))
        (stream (K.held out.old) (K.faults out.old)) (stream (K.held out.new) (K.faults out.new)) }
{
    if !words.is_empty() {
        return usage(alloc);
    }
    match request_from(alloc, source) {
        Ok(request) => {
            are_sound(&request);
            ending_of(write_verdict(alloc, &request, out))
        }
        Err(ending) => ending,
    }
}
