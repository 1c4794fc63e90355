// The options of a command, as `clap` reads them.
ghost use Rattle.std.specs.Prelude.{◌≡◌, IfOk, false, true, map, string_bytes};
ghost use Rattle.clap.specs.Faults.{is_simple_and_free};
ghost use Rattle.clap.specs.Simple.{app_of, is_simple};
ghost use Rattle.clap.specs.Walk.{rule_of};
ghost use Rattle.command_words.specs.Options.{IsReadBy, cover_app, demo_app, ical_app, option_rule, plain_app, set_app, table_app};

use clap::error::ErrorKind;
use clap::{Arg, ArgAction, ArgMatches, Command};
use no_memory::NoMemory;
use std::alloc::{AllocError, Global};

/// A command of this name without an option, a positional word or help.
fn plain<'a>(alloc: Global, name: &'a str) -> Command<'a>
    ensures { app_of result ≡ plain_app name.entry.now }
{
    Command::new(alloc, name)
        .no_binary_name(true)
        .disable_help_flag(true)
}

/// The option `--name TEXT`.
fn option<'a>(alloc: Global, name: &'a str) -> Arg<'a>
    ensures rule { rule_of result ≡ option_rule name.entry.now }
    ensures local { result.global ≡ false }
{
    Arg::new(alloc, name).long(name).action(ArgAction::Set)
}

/// `table [--workers W]`.
pub(crate) fn table_options<'a>(alloc: Global) -> Result<Command<'a>, AllocError>
    ensures { IfOk result (λ c. app_of c ≡ table_app) }
{
    plain(alloc, "table").arg(option(alloc, "workers"))
}

/// `cover [--workers W] [--form F]`.
pub(crate) fn cover_options<'a>(alloc: Global) -> Result<Command<'a>, AllocError>
    ensures { IfOk result (λ c. app_of c ≡ cover_app) }
{
    plain(alloc, "cover")
        .arg(option(alloc, "workers"))?
        .arg(option(alloc, "form"))
}

/// `demo [--number M] [--workers W]`.
pub(crate) fn demo_options<'a>(alloc: Global) -> Result<Command<'a>, AllocError>
    ensures { IfOk result (λ c. app_of c ≡ demo_app) }
{
    plain(alloc, "demo")
        .arg(option(alloc, "number"))?
        .arg(option(alloc, "workers"))
}

/// `ical [--workers W]`.
pub(crate) fn ical_options<'a>(alloc: Global) -> Result<Command<'a>, AllocError>
    ensures { IfOk result (λ c. app_of c ≡ ical_app) }
{
    plain(alloc, "ical").arg(option(alloc, "workers"))
}

/// `set [--workers W]`.
pub(crate) fn set_options<'a>(alloc: Global) -> Result<Command<'a>, AllocError>
    ensures { IfOk result (λ c. app_of c ≡ set_app) }
{
    plain(alloc, "set").arg(option(alloc, "workers"))
}

/// The texts of a simple command's options; none where `clap` refuses the words.
pub(crate) fn read_options<'a>(
    command: Command<'a>,
    words: &'a [String],
) -> Result<Option<ArgMatches<'a>>, NoMemory>
    requires simple { is_simple (app_of command) ≡ true }
    requires free { is_simple_and_free (app_of command) ≡ true }
    ensures { IfOk result (IsReadBy (app_of command.entry) (map string_bytes words.now)) }
{
    match command.try_get_matches_from(words) {
        Ok(matches) => Ok(Some(matches)),
        Err(error) if error.kind() == ErrorKind::OutOfMemory => Err(NoMemory),
        Err(_) => Ok(None),
    }
}
