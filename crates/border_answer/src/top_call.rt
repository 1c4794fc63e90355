// The top call.
ghost use Rattle.std.specs.Prelude.{map, string_bytes};
ghost use Rattle.outcome.specs.Streams.{stream, streams};
ghost use Rattle.border_answer.specs.Ended.{Ended};
ghost use Rattle.border_answer.specs.Headline.{Headline};

use crate::answers::answer;
use outcome::Status;
use source_sink::{Sink, Source};
use std::alloc::Global;

/// Reads an object with an order and a real border from the source, and writes to `out` whether the order's district
/// holds the border. `Done` is answered where it holds, `Open` where that is not shown, and for each status from `Usage`
/// on one line goes to `err`; an order or a border that is refused is answered by `OrderRefused`.
pub fn run<S: Source, K: Sink, E: Sink>(
    alloc: Global,
    words: &[String],
    source: &mut S,
    out: &mut K,
    err: &mut E,
) -> Status
    // Where it says that the border holds, every rational place of the border is one of the order's district, and each
    // entry of its table is safe there.
    ensures headline { Headline result
        (streams (stream (S.left source.old) (S.faults source.old)) (stream (K.held out.old) (K.faults out.old))
        (stream (E.held err.old) (E.faults err.old)))
        (streams (stream (S.left source.new) (S.faults source.new)) (stream (K.held out.new) (K.faults out.new))
        (stream (E.held err.new) (E.faults err.new))) }

    // There is an input, spelled by what the source had left, to which the run answered as stated.
    ensures ended { Ended (map string_bytes words.now) result
        (streams (stream (S.left source.old) (S.faults source.old)) (stream (K.held out.old) (K.faults out.old))
        (stream (E.held err.old) (E.faults err.old)))
        (streams (stream (S.left source.new) (S.faults source.new)) (stream (K.held out.new) (K.faults out.new))
        (stream (E.held err.new) (E.faults err.new))) }
{
    let ending = answer(alloc, words, source, out);
    ending.report(err)
}
