//! The command as which clap reads the words.

ghost use Rattle.std.specs.Prelude.{◌≡◌, IfOk, false, true, map, string_bytes};
ghost use Rattle.std.specs.List.{list_all};
ghost use Rattle.clap.specs.Words.{app_of, rule_of};
ghost use Rattle.craig_words.specs.ClapCommand.{option_named, words_app, IsMatchOf, is_readable};

use crate::words::WordsFault;
use clap::error::ErrorKind;
use clap::{Arg, ArgAction, ArgMatches, Command};
use std::alloc::{AllocError, Global};

/// What clap matches in the words. No word may be `--`, behind which clap reads no more options, nor begin with one
/// minus sign alone, which clap reads as flags.
pub fn matched<'a>(alloc: Global, words: &'a [String]) -> Result<ArgMatches<'a>, WordsFault>
    requires { list_all is_readable (map (λ word. string_bytes word) words.now) ≡ true }
    ensures { IsMatchOf (map (λ word. string_bytes word) words.now) result }
{
    let command = command(alloc)?;
    match command.try_get_matches_from(words) {
        Ok(matches) => Ok(matches),
        Err(error) => match error.kind() {
            ErrorKind::OutOfMemory => Err(WordsFault::NoMemory(AllocError)),
            _ => Err(WordsFault::Refused),
        },
    }
}

/// A command with an option for each name, and without help.
fn command<'a>(alloc: Global) -> Result<Command<'a>, AllocError>
    ensures { IfOk result (λ command. app_of command ≡ words_app) }
{
    Command::new(alloc, "craig")
        .no_binary_name(true)
        .disable_help_flag(true)
        .arg(option(alloc, "system"))?
        .arg(option(alloc, "format"))?
        .arg(option(alloc, "limit"))?
        .arg(option(alloc, "gen"))
}

/// An option with the name, which takes one value.
fn option<'a>(alloc: Global, name: &'a str) -> Arg<'a>
    ensures rule { rule_of result ≡ option_named name.entry.now }
    ensures local { result.global ≡ false }
{
    Arg::new(alloc, name).long(name).action(ArgAction::Set)
}
