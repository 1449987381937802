//! The options of `crypt` and `forward`, as `clap` reads them.
ghost use Rattle.std.specs.Prelude.{◌≡◌, true, false, IfErr, IfOk, IsTrue, is_some, map, codes, string_bytes};
ghost use Rattle.clap.specs.Words.{IsParsedFrom, IsPlainArg, app_of, first_value, found_of, matches_of, rows_of, rule_of};
ghost use Rattle.clap.specs.Built.{TakesValue};
ghost use Rattle.clap.specs.declared.parser.matches.ArgMatches.{ArgMatches};
ghost use Rattle.command_words.specs.Options.{option_rule, options_view, scheduled_app, takes_words, values_of};
ghost use Rattle.command_words.specs.Gives.{GivesAs, Refuses};

use crate::refused::WordsRefused;
use clap::error::ErrorKind;
use clap::{Arg, ArgAction, ArgMatches, Command, Error};
use std::alloc::Global;

// The values, as they stand in the words.
#[derive(Clone, Copy)]
pub(crate) struct Options<'a> {
    pub(crate) vdev: &'a str,
    pub(crate) sessions: &'a str,
    pub(crate) burst: Option<&'a str>,
}

fn one_value<'a>(alloc: Global, name: &'a str, required: bool) -> Arg<'a>
    ensures rule { rule_of result ≡ option_rule name.entry.now required }
    ensures local { result.global ≡ false }
    ensures name { result.id ≡ name.entry }
    ensures plain { IsPlainArg result }
    ensures takes { required ≡ true → TakesValue result }
{
    Arg::new(alloc, name)
        .long(name)
        .action(ArgAction::Set)
        .required(required)
}

fn scheduled_command<'a>(
    alloc: Global,
    name: &'a str,
    has_burst: bool,
) -> Result<Command<'a>, Error>
    ensures app { IfOk result (λ c. app_of c ≡ scheduled_app name.entry.now has_burst) }
    ensures required { IfOk result (λ c. (m : ArgMatches) → IsParsedFrom c m
        → IsTrue (is_some (first_value (found_of m) (codes "vdev")))
        × IsTrue (is_some (first_value (found_of m) (codes "sessions")))) }
{
    let command = Command::new(alloc, name)
        .arg(one_value(alloc, "vdev", true))?
        .arg(one_value(alloc, "sessions", true))?;
    if !has_burst {
        return Ok(command);
    }
    let command = command.arg(one_value(alloc, "burst", false))?;
    Ok(command)
}

fn matches_in<'a>(
    alloc: Global,
    name: &'a str,
    has_burst: bool,
    words: &'a [String],
) -> Result<ArgMatches<'a>, WordsRefused>
    ensures taken { IfOk result (λ m. takes_words (scheduled_app name.entry.now has_burst) (map string_bytes words.entry.now) ≡ true) }
    ensures rows { IfOk result (λ m. rows_of (found_of m) ≡ matches_of (scheduled_app name.entry.now has_burst) (map string_bytes words.entry.now)) }
    ensures required { IfOk result (λ m. IsTrue (is_some (first_value (found_of m) (codes "vdev")))
        × IsTrue (is_some (first_value (found_of m) (codes "sessions")))) }
    ensures refused { IfErr result (λ refused. Refuses refused (values_of (scheduled_app name.entry.now has_burst) (map string_bytes words.entry.now))) }
{
    let Ok(command) = scheduled_command(alloc, name, has_burst) else {
        return Err(WordsRefused::OutOfMemory);
    };
    match command.try_get_matches_from(words) {
        Ok(matches) => Ok(matches),
        Err(error) => match error.kind() {
            ErrorKind::OutOfMemory => Err(WordsRefused::OutOfMemory),
            _ => Err(WordsRefused::Usage),
        },
    }
}

// The values in the words, of which the first is the command's name.
pub(crate) fn options_of<'a>(
    alloc: Global,
    name: &'a str,
    has_burst: bool,
    words: &'a [String],
) -> Result<Options<'a>, WordsRefused>
    ensures { GivesAs options_view result (values_of (scheduled_app name.entry.now has_burst) (map string_bytes words.entry.now)) }
{
    let matches = matches_in(alloc, name, has_burst, words)?;
    let (Some(vdev), Some(sessions)) = (matches.get_str("vdev"), matches.get_str("sessions")) else {
        unreachable!()
    };
    Ok(Options {
        vdev,
        sessions,
        burst: matches.get_str("burst"),
    })
}
