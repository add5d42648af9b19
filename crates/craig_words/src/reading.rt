//! The words as what they set.

ghost use Rattle.std.specs.Prelude.{◌≡◌, map, string_bytes};
ghost use Rattle.std.specs.List.{list_all};
ghost use Rattle.clap.specs.Words.{first_value, found_of};
ghost use Rattle.craig_words.specs.ClapCommand.{given_settings, is_readable};
ghost use Rattle.craig_words.specs.CommandLine.{IsReadAs, words_read};

use crate::command::matched;
use crate::values::{format_given, limit_given, steps_given, system_given};
use crate::words::{Words, WordsFault};
use clap::ArgMatches;
use std::alloc::Global;

/// What the words set, without the program's name. They are a run of pieces, each one word `--name=value` or the two
/// words `--name` and `value`, where no name stands twice: `system` and `format` with the words of a script, `limit` with
/// `none` or a number from 1 to 100000, and `gen` with a number from 1 to 60. All other words are refused.
pub fn read_words(alloc: Global, words: &[String]) -> Result<Words, WordsFault>
    ensures { IsReadAs (words_read (map (λ word. string_bytes word) words.now)) result }
{
    if !are_readable(words) {
        return Err(WordsFault::Refused);
    }
    let matches = matched(alloc, words)?;
    settings(&matches)
}

/// What the matches set, each value as its reader reads it.
fn settings(matches: &ArgMatches<'_>) -> Result<Words, WordsFault>
    ensures { IsReadAs (given_settings (first_value (found_of matches.now))) result }
{
    let system = system_given(matches.get_str("system"))?;
    let format = format_given(matches.get_str("format"))?;
    let limit = limit_given(matches.get_str("limit"))?;
    let steps = steps_given(matches.get_str("gen"))?;
    Ok(Words {
        system,
        format,
        limit,
        steps,
    })
}

/// Whether each word may be given to clap.
fn are_readable(words: &[String]) -> bool
    ensures { result ≡ list_all (λ word. is_readable (string_bytes word)) words.now }
{
    words.iter().all(|word| is_readable(word.as_bytes()))
}

/// Whether the word may be given to clap: one that begins with a minus sign has a second one and something behind it.
fn is_readable(word: &[u8]) -> bool
    ensures { result ≡ is_readable word.now }
{
    match word {
        [b'-', b'-', _, ..] => true,
        [b'-', ..] => false,
        _ => true,
    }
}
