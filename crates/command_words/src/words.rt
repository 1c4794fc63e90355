// Which command the words ask for.
ghost use Rattle.std.specs.Prelude.{◌≡◌, ◌≤◌, IfOk, IfSome, map, option_map, string_bytes};
ghost use Rattle.clap.specs.Matches.{found_of};
ghost use Rattle.clap.specs.Walk.{first_of, rows_of};
ghost use Rattle.command_words.specs.Words.{IsCommand, alone, command_of, cover_command, cover_of, demo_command, demo_of, form_in, ical_command, order_number_in, set_command, sun_command, table_command, workers_in};

use crate::command::Command;
use crate::number::number;
use crate::options::{
    cover_options, demo_options, ical_options, read_options, set_options, table_options,
};
use clap::ArgMatches;
use no_memory::NoMemory;
use order_covering::Form;
use std::alloc::Global;
use sun_verdict::read_request;

/// The command, where no further word stands behind it.
fn alone(rest: &[String], command: Command) -> Command
    requires { IsCommand command }
    ensures value { result ≡ alone (map string_bytes rest.now) command }
    ensures range { IsCommand result }
{
    if rest.is_empty() {
        command
    } else {
        Command::Unknown
    }
}

/// `sun`, where the words behind it are a request.
#[tactic(auto, unfolding(crate::specs::Words::sun_command))]
fn sun(rest: &[String]) -> Command
    ensures value { result ≡ sun_command (map string_bytes rest.now) }
    ensures range { IsCommand result }
{
    match read_request(rest) {
        Some(request) => Command::Sun(request),
        None => Command::Unknown,
    }
}

/// The text of an option.
fn text<'a>(matches: &ArgMatches<'a>, option: &str) -> Option<&'a str>
    ensures { option_map (λ s. s.now) result ≡ first_of option.now (rows_of (found_of matches.now)) }
{
    matches.get_str(option)
}

/// How many workers search, from 1 to 16: 4 where the option isn't given.
#[tactic(auto, unfolding(crate::specs::Words::workers_in))]
fn workers(alloc: Global, text: Option<&str>) -> Result<Option<u32>, NoMemory>
    ensures value { IfOk result (λ n. n ≡ workers_in (option_map (λ s. s.now) text.entry)) }
    ensures some { IfOk result (λ found. IfSome found (λ n. 1 ≤ n)) }
    ensures few { IfOk result (λ found. IfSome found (λ n. n ≤ 16)) }
{
    let Some(text) = text else {
        return Ok(Some(4));
    };
    match number(alloc, text)? {
        Some(workers) if (1..=16).contains(&workers) => Ok(Some(workers)),
        _ => Ok(None),
    }
}

/// `table`, with its option.
#[tactic(auto, unfolding(crate::specs::Words::table_command))]
fn table(alloc: Global, rest: &[String]) -> Result<Command, NoMemory>
    ensures value { IfOk result (λ c. c ≡ table_command (map string_bytes rest.now)) }
    ensures range { IfOk result IsCommand }
{
    let Some(matches) = read_options(table_options(alloc)?, rest)? else {
        return Ok(Command::Unknown);
    };
    match workers(alloc, text(&matches, "workers"))? {
        Some(workers) => Ok(Command::Table { workers }),
        None => Ok(Command::Unknown),
    }
}

/// The form of a covering: the second where the option isn't given.
#[tactic(auto, unfolding(crate::specs::Words::form_in))]
fn form(text: Option<&str>) -> Option<Form>
    ensures { result ≡ form_in (option_map (λ s. s.now) text.entry) }
{
    match text {
        None | Some("2") => Some(Form::Runs),
        Some("1") => Some(Form::Letters),
        Some(_) => None,
    }
}

/// `cover`, where both its options are in their spelling and their range.
fn cover_of(workers: Option<u32>, form: Option<Form>) -> Command
    requires some { IfSome workers (λ n. 1 ≤ n) }
    requires few { IfSome workers (λ n. n ≤ 16) }
    ensures value { result ≡ cover_of workers form }
    ensures range { IsCommand result }
{
    match (workers, form) {
        (Some(workers), Some(form)) => Command::Cover { workers, form },
        _ => Command::Unknown,
    }
}

/// `cover`, with its options.
#[tactic(auto, unfolding(crate::specs::Words::cover_command))]
fn cover(alloc: Global, rest: &[String]) -> Result<Command, NoMemory>
    ensures value { IfOk result (λ c. c ≡ cover_command (map string_bytes rest.now)) }
    ensures range { IfOk result IsCommand }
{
    let Some(matches) = read_options(cover_options(alloc)?, rest)? else {
        return Ok(Command::Unknown);
    };
    let workers = workers(alloc, text(&matches, "workers"))?;
    let form = form(text(&matches, "form"));
    Ok(cover_of(workers, form))
}

/// The number of the order that is made: 1 where the option isn't given.
#[tactic(auto, unfolding(crate::specs::Words::order_number_in))]
fn order_number(alloc: Global, text: Option<&str>) -> Result<Option<u32>, NoMemory>
    ensures { IfOk result (λ n. n ≡ order_number_in (option_map (λ s. s.now) text.entry)) }
{
    match text {
        Some(text) => number(alloc, text),
        None => Ok(Some(1)),
    }
}

/// `demo`, where both its options are in their spelling and their range.
fn demo_of(number: Option<u32>, workers: Option<u32>) -> Command
    requires some { IfSome workers (λ n. 1 ≤ n) }
    requires few { IfSome workers (λ n. n ≤ 16) }
    ensures value { result ≡ demo_of number workers }
    ensures range { IsCommand result }
{
    match (number, workers) {
        (Some(number), Some(workers)) => Command::Demo { number, workers },
        _ => Command::Unknown,
    }
}

/// `demo`, with its options.
#[tactic(auto, unfolding(crate::specs::Words::demo_command))]
fn demo(alloc: Global, rest: &[String]) -> Result<Command, NoMemory>
    ensures value { IfOk result (λ c. c ≡ demo_command (map string_bytes rest.now)) }
    ensures range { IfOk result IsCommand }
{
    let Some(matches) = read_options(demo_options(alloc)?, rest)? else {
        return Ok(Command::Unknown);
    };
    let number = order_number(alloc, text(&matches, "number"))?;
    let workers = workers(alloc, text(&matches, "workers"))?;
    Ok(demo_of(number, workers))
}

/// `ical`, with its option.
#[tactic(auto, unfolding(crate::specs::Words::ical_command))]
fn ical(alloc: Global, rest: &[String]) -> Result<Command, NoMemory>
    ensures value { IfOk result (λ c. c ≡ ical_command (map string_bytes rest.now)) }
    ensures range { IfOk result IsCommand }
{
    let Some(matches) = read_options(ical_options(alloc)?, rest)? else {
        return Ok(Command::Unknown);
    };
    match workers(alloc, text(&matches, "workers"))? {
        Some(workers) => Ok(Command::Ical { workers }),
        None => Ok(Command::Unknown),
    }
}

/// `set`, with its option.
#[tactic(auto, unfolding(crate::specs::Words::set_command))]
fn set(alloc: Global, rest: &[String]) -> Result<Command, NoMemory>
    ensures value { IfOk result (λ c. c ≡ set_command (map string_bytes rest.now)) }
    ensures range { IfOk result IsCommand }
{
    let Some(matches) = read_options(set_options(alloc)?, rest)? else {
        return Ok(Command::Unknown);
    };
    match workers(alloc, text(&matches, "workers"))? {
        Some(workers) => Ok(Command::Set { workers }),
        None => Ok(Command::Unknown),
    }
}

/// The command that the words ask for.
#[tactic(auto, unfolding(crate::specs::Words::command_of))]
pub fn command_in(alloc: Global, words: &[String]) -> Result<Command, NoMemory>
    ensures value { IfOk result (λ c. c ≡ command_of (map string_bytes words.now)) }
    ensures range { IfOk result IsCommand }
{
    let Some((name, rest)) = words.split_first() else {
        return Ok(Command::Unknown);
    };
    match name.as_str() {
        "sun" => Ok(sun(rest)),
        "order" => Ok(alone(rest, Command::Order)),
        "plain" => Ok(alone(rest, Command::Plain)),
        "table" => table(alloc, rest),
        "cover" => cover(alloc, rest),
        "check" => Ok(alone(rest, Command::Check)),
        "demo" => demo(alloc, rest),
        "ical" => ical(alloc, rest),
        "agenda" => Ok(alone(rest, Command::Agenda)),
        "set" => set(alloc, rest),
        _ => Ok(Command::Unknown),
    }
}
