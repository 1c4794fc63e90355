// The commands that one thread answers.
ghost use Rattle.std.specs.Prelude.{map, string_bytes};
ghost use Rattle.command_input.specs.Answers.{Answers};
ghost use Rattle.command_words.specs.Words.{IsCommand, command_of, without_workers};
ghost use Rattle.command_input.specs.Taken.{covered_of};
ghost use Rattle.outcome.specs.Endings.{EndsBy};
ghost use Rattle.outcome.specs.Streams.{Stream, stream};
ghost use Rattle.shown_table.specs.Shown.{shown_answer};
ghost use Rattle.timetable.specs.Answer.{answer_to, wanted_by};

use crate::orders::write_line;
use agenda_list::write_agenda;
use command_input::{Covering, calendar_from, covering_from, order_from};
use command_words::{Command, command_in, wrong_words};
use order_table::write_table;
use outcome::{Ending, Status, ending_of};
use shown_table::write_shown;
use source_sink::{Sink, Source};
use std::alloc::Global;
use sun_verdict::write_verdict;

/// Shows the table of a covering that was read.
fn show<K: Sink>(alloc: Global, covering: Covering, out: &mut K) -> Ending
    ensures { (source source' : Stream) → EndsBy (shown_answer (covered_of covering).order (covered_of covering).lines) result source source'
        (stream (K.held out.old) (K.faults out.old)) (stream (K.held out.new) (K.faults out.new)) }
{
    let Covering {
        order,
        text,
        from,
        ..
    } = covering;
    write_shown(alloc, order, &text[from..], out)
}

/// Answers a command on one thread; one that needs more is none here.
pub(crate) fn answer<S: Source, K: Sink>(
    alloc: Global,
    command: Command,
    source: &mut S,
    out: &mut K,
) -> Ending
    requires { IsCommand command }
    ensures { Answers (wanted_by (without_workers command)) (answer_to (without_workers command)) result
        (stream (S.left source.old) (S.faults source.old)) (stream (S.left source.new) (S.faults source.new))
        (stream (K.held out.old) (K.faults out.old)) (stream (K.held out.new) (K.faults out.new)) }
{
    match command {
        Command::Unknown
        | Command::Table { .. }
        | Command::Cover { .. }
        | Command::Demo { .. }
        | Command::Ical { .. }
        | Command::Set { .. } => wrong_words(alloc),
        Command::Sun(request) => ending_of(write_verdict(alloc, &request, out)),
        Command::Order => match order_from(alloc, source) {
            Ok(order) => ending_of(write_line(alloc, &order, out)),
            Err(ending) => ending,
        },
        Command::Plain => match order_from(alloc, source) {
            Ok(order) => ending_of(write_table(alloc, order, out)),
            Err(ending) => ending,
        },
        Command::Check => match covering_from(alloc, source) {
            Ok(covering) => show(alloc, covering, out),
            Err(ending) => ending,
        },
        Command::Agenda => match calendar_from(alloc, source) {
            Ok(events) => ending_of(write_agenda(alloc, &events, out)),
            Err(ending) => ending,
        },
    }
}

/// Answers words on one thread.
pub(crate) fn answer_words<S: Source, K: Sink>(
    alloc: Global,
    words: &[String],
    source: &mut S,
    out: &mut K,
) -> Ending
    ensures { Answers (wanted_by (without_workers (command_of (map string_bytes words.now)))) (answer_to (without_workers (command_of (map string_bytes words.now)))) result
        (stream (S.left source.old) (S.faults source.old)) (stream (S.left source.new) (S.faults source.new))
        (stream (K.held out.old) (K.faults out.old)) (stream (K.held out.new) (K.faults out.new)) }
{
    match command_in(alloc, words) {
        Ok(command) => answer(alloc, command, source, out),
        Err(_) => Ending::Plain(Status::NoMemory),
    }
}
