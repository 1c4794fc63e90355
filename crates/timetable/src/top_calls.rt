// The top calls.
ghost use Rattle.std.specs.Prelude.{◌≡◌, map, string_bytes};
ghost use Rattle.command_input.specs.Answers.{Answers};
ghost use Rattle.command_words.specs.Words.{IsCommand, command_of, without_workers};
ghost use Rattle.outcome.specs.Streams.{stream, streams};
ghost use Rattle.sun_verdict.specs.Truth.{IsTrueOfSky};
ghost use Rattle.timetable.specs.Answer.{answer_to, wanted_by};
ghost use Rattle.timetable.specs.Ended.{Ended};
ghost use Rattle.timetable.specs.Headline.{Checked, Headline, Published, Together};

use crate::one_thread;
use command_input::{order_from, set_from};
use command_words::{Command, command_in};
use demo_summary::write_summary;
use order_calendar::write_calendar;
use order_covering::write_covering;
use outcome::{Ending, Status, ending_of};
use set_table::write_set;
use source_sink::{Sink, Source};
use std::alloc::Global;
use std::sync::Wait;
use std::thread::Threads;
use steal_pool::Gate;
use sun_verdict::Request;
use worker_table::write_table;

/// Answers a command, by several workers where it asks for them.
fn answer<R: Threads + Wait + Sync, S: Source, K: Sink, G: Gate + Sync>(
    rt: &R,
    alloc: Global,
    command: Command,
    source: &mut S,
    out: &mut K,
    gate: &G,
) -> Ending
    requires { IsCommand command }
    ensures { Answers (wanted_by command) (answer_to command) result
        (stream (S.left source.old) (S.faults source.old)) (stream (S.left source.new) (S.faults source.new))
        (stream (K.held out.old) (K.faults out.old)) (stream (K.held out.new) (K.faults out.new)) }
{
    match command {
        Command::Table { workers } => match order_from(alloc, source) {
            Ok(order) => ending_of(write_table(rt, alloc, order, workers, gate, out)),
            Err(ending) => ending,
        },
        Command::Cover { workers, form } => match order_from(alloc, source) {
            Ok(order) => ending_of(write_covering(rt, alloc, order, workers, form, gate, out)),
            Err(ending) => ending,
        },
        Command::Ical { workers } => match order_from(alloc, source) {
            Ok(order) => ending_of(write_calendar(rt, alloc, order, workers, gate, out)),
            Err(ending) => ending,
        },
        Command::Set { workers } => match set_from(alloc, source) {
            Ok(set) => ending_of(write_set(rt, alloc, set, workers, gate, out)),
            Err(ending) => ending,
        },
        Command::Demo { number, workers } => {
            ending_of(write_summary(rt, alloc, number, workers, gate, out))
        }
        Command::Unknown
        | Command::Sun(_)
        | Command::Order
        | Command::Plain
        | Command::Check
        | Command::Agenda => one_thread::answer(alloc, command, source, out),
    }
}

/// Answers words, by several workers where they ask for them.
fn answer_words<R: Threads + Wait + Sync, S: Source, K: Sink, G: Gate + Sync>(
    rt: &R,
    alloc: Global,
    words: &[String],
    source: &mut S,
    out: &mut K,
    gate: &G,
) -> Ending
    ensures { Answers (wanted_by (command_of (map string_bytes words.now))) (answer_to (command_of (map string_bytes words.now))) result
        (stream (S.left source.old) (S.faults source.old)) (stream (S.left source.new) (S.faults source.new))
        (stream (K.held out.old) (K.faults out.old)) (stream (K.held out.new) (K.faults out.new)) }
{
    match command_in(alloc, words) {
        Ok(command) => answer(rt, alloc, command, source, out, gate),
        Err(_) => Ending::Plain(Status::NoMemory),
    }
}

/// Runs the words of a command line, without the program's name; `table`, `cover`, `demo`, `ical` and `set` are searched by
/// several workers at the same time.
///
/// The text goes to `out`, and for each status from `Usage` on one line goes to `err`. Each worker calls the gate before each
/// cell that it judges. The call may wait for its workers.
pub fn run<R: Threads + Wait + Sync, S: Source, K: Sink, E: Sink, G: Gate + Sync>(
    rt: &R,
    alloc: Global,
    words: &[String],
    source: &mut S,
    out: &mut K,
    err: &mut E,
    gate: &G,
) -> Status
    // Where it prints a table, each of its entries is right at every rational place of the district.
    ensures headline { Headline (command_of (map string_bytes words.now)) result
        (streams (stream (S.left source.old) (S.faults source.old)) (stream (K.held out.old) (K.faults out.old))
        (stream (E.held err.old) (E.faults err.old)))
        (streams (stream (S.left source.new) (S.faults source.new)) (stream (K.held out.new) (K.faults out.new))
        (stream (E.held err.new) (E.faults err.new))) }

    // Where it writes a calendar, that is read as exactly the minutes of a table each of whose entries is right.
    ensures published { Published (command_of (map string_bytes words.now)) result
        (streams (stream (S.left source.old) (S.faults source.old)) (stream (K.held out.old) (K.faults out.old))
        (stream (E.held err.old) (E.faults err.old)))
        (streams (stream (S.left source.new) (S.faults source.new)) (stream (K.held out.new) (K.faults out.new))
        (stream (E.held err.new) (E.faults err.new))) }

    // Where it prints the table of a set, each of its entries is right for its district, or for all of them.
    ensures together { Together (command_of (map string_bytes words.now)) result
        (streams (stream (S.left source.old) (S.faults source.old)) (stream (K.held out.old) (K.faults out.old))
        (stream (E.held err.old) (E.faults err.old)))
        (streams (stream (S.left source.new) (S.faults source.new)) (stream (K.held out.new) (K.faults out.new))
        (stream (E.held err.new) (E.faults err.new))) }

    // Where it shows the table of a covering, each of its entries is right, whoever made the covering.
    ensures checked { Checked (command_of (map string_bytes words.now)) result
        (streams (stream (S.left source.old) (S.faults source.old)) (stream (K.held out.old) (K.faults out.old))
        (stream (E.held err.old) (E.faults err.old)))
        (streams (stream (S.left source.new) (S.faults source.new)) (stream (K.held out.new) (K.faults out.new))
        (stream (E.held err.new) (E.faults err.new))) }

    // There is an input, spelled by what the source had left, to which the run answered as stated.
    ensures ended { Ended (command_of (map string_bytes words.now)) result
        (streams (stream (S.left source.old) (S.faults source.old)) (stream (K.held out.old) (K.faults out.old))
        (stream (E.held err.old) (E.faults err.old)))
        (streams (stream (S.left source.new) (S.faults source.new)) (stream (K.held out.new) (K.faults out.new))
        (stream (E.held err.new) (E.faults err.new))) }

    // A verdict of `sun` is true of the sky at that place and minute.
    ensures truth { (r : Request) → command_of (map string_bytes words.now) ≡ Command.Sun r → IsTrueOfSky r }
{
    let ending = answer_words(rt, alloc, words, source, out, gate);
    ending.report(err)
}

/// Runs the words of a command line, without the program's name, on one thread.
///
/// It takes the commands that need no second thread, and answers the others as words that are none. It never waits.
pub fn run_plain<S: Source, K: Sink, E: Sink>(
    alloc: Global,
    words: &[String],
    source: &mut S,
    out: &mut K,
    err: &mut E,
) -> Status
    ensures headline { Headline (without_workers (command_of (map string_bytes words.now))) result
        (streams (stream (S.left source.old) (S.faults source.old)) (stream (K.held out.old) (K.faults out.old))
        (stream (E.held err.old) (E.faults err.old)))
        (streams (stream (S.left source.new) (S.faults source.new)) (stream (K.held out.new) (K.faults out.new))
        (stream (E.held err.new) (E.faults err.new))) }
    ensures checked { Checked (without_workers (command_of (map string_bytes words.now))) result
        (streams (stream (S.left source.old) (S.faults source.old)) (stream (K.held out.old) (K.faults out.old))
        (stream (E.held err.old) (E.faults err.old)))
        (streams (stream (S.left source.new) (S.faults source.new)) (stream (K.held out.new) (K.faults out.new))
        (stream (E.held err.new) (E.faults err.new))) }
    ensures ended { Ended (without_workers (command_of (map string_bytes words.now))) result
        (streams (stream (S.left source.old) (S.faults source.old)) (stream (K.held out.old) (K.faults out.old))
        (stream (E.held err.old) (E.faults err.old)))
        (streams (stream (S.left source.new) (S.faults source.new)) (stream (K.held out.new) (K.faults out.new))
        (stream (E.held err.new) (E.faults err.new))) }
    ensures truth { (r : Request) → command_of (map string_bytes words.now) ≡ Command.Sun r → IsTrueOfSky r }
{
    let ending = one_thread::answer_words(alloc, words, source, out);
    ending.report(err)
}
