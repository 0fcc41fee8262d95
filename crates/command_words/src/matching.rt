// The words by `clap`: one positional for each word, and the options, all of which may come again.
ghost use Rattle.std.specs.Prelude.{◌≡◌, ◌≢◌, false, List, None, ℕ, IfOk, IsErrOf, IsSomeAnd, map, if◌then◌else◌};
ghost use Rattle.clap.specs.Matches.{found_of};
ghost use Rattle.clap.specs.Simple.{app_of};
ghost use Rattle.clap.specs.Values.{kind_of};
ghost use Rattle.clap.specs.Walk.{rows_of, rule_of};
ghost use Rattle.command_words.specs.Made.{flag_arg, form, names_words, valued_arg, words_arg};
ghost use Rattle.command_words.specs.Reading.{reading, row_values, texts, values};

use crate::CommandOption;
use crate::reading::any_short;
use crate::requests::Refused;
use clap::error::ErrorKind;
use clap::{Arg, ArgAction, ArgMatches, Command, Error};
use std::alloc::{AllocError, Global};

pub const WORDS: &str = "words";

fn positional<'a>(alloc: Global) -> Arg<'a>
    ensures rule { rule_of result ≡ words_arg }
    ensures local { result.global ≡ false }
{
    Arg::new(alloc, WORDS)
        .num_args(0..)
        .action(ArgAction::Append)
}

fn argument<'a>(alloc: Global, name: &'a str, has_value: bool) -> Arg<'a>
    ensures rule { rule_of result ≡ (if has_value then valued_arg name.now else flag_arg name.now) }
    ensures local { result.global ≡ false }
{
    let argument = Arg::new(alloc, name).long(name).action(ArgAction::Append);
    if has_value {
        argument
    } else {
        argument.num_args(0).default_missing_value("")
    }
}

fn command<'a>(
    alloc: Global,
    name: &'a str,
    options: &[CommandOption],
) -> Result<Command<'a>, AllocError>
    ensures { IfOk result (λ command. app_of command ≡ form name.now options.now) }
{
    let mut command = Command::new(alloc, name)
        .no_binary_name(true)
        .disable_help_flag(true)
        .arg(positional(alloc))?;
    for option in options {
        let name: &'a str = option.name();
        command = command.arg(argument(alloc, name, option.has_value()))?;
    }
    Ok(command)
}

fn refusal(error: &Error) -> Refused
    ensures { result ≡ Refused.Usage → kind_of error.now ≢ ErrorKind.OutOfMemory }
{
    match error.kind() {
        ErrorKind::OutOfMemory => Refused::Memory,
        _ => Refused::Usage,
    }
}

/// The words that follow a command's name.
pub fn matches<'a>(
    alloc: Global,
    name: &'a str,
    options: &[CommandOption],
    words: &'a [String],
) -> Result<ArgMatches<'a>, Refused>
    requires { names_words options.now ≡ false }
    ensures ok { IfOk result (λ m. IsSomeAnd (reading options.now (texts words.now) None)
        (λ uses. (id : List ℕ) → row_values id (rows_of (found_of m)) ≡ values id uses)) }
    ensures usage { IsErrOf result Refused.Usage → reading options.now (texts words.now) None ≡ None }
{
    if any_short(words) {
        return Err(Refused::Usage);
    }
    let command = command(alloc, name, options)?;
    match command.try_get_matches_from(words) {
        Ok(matches) => Ok(matches),
        Err(error) => Err(refusal(&error)),
    }
}

/// The values of a name, one for each use.
pub fn values_of<'a>(
    alloc: Global,
    matches: &ArgMatches<'a>,
    id: &str,
) -> Result<Vec<&'a str>, AllocError>
    ensures { IfOk result (λ vs. map (λ v. v.now) vs.items ≡ row_values id.now (rows_of (found_of matches.now))) }
{
    match matches.get_strs(id) {
        Some(values) => Vec::from_slice(alloc, values),
        None => Ok(Vec::new(alloc)),
    }
}
