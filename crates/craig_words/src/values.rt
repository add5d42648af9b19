//! The values of options.

ghost use Rattle.std.specs.Prelude.{◌≡◌, option_map};
ghost use Rattle.craig_script.specs.Reading.{format_named, system_named};
ghost use Rattle.craig_words.specs.ClapCommand.{given};
ghost use Rattle.craig_words.specs.CommandLine.{IsReadAs, limit_named, number_between, steps_named};

use crate::words::WordsFault;
use craig_script::{FormatWord, SystemWord, format_named, number_in, system_named};

/// The system that the value names.
pub fn system_given(value: Option<&str>) -> Result<Option<SystemWord>, WordsFault>
    ensures { IsReadAs (given system_named (option_map (λ text. text.now) value.entry)) result }
{
    let Some(text) = value else {
        return Ok(None);
    };
    match system_named(text.as_bytes()) {
        Some(system) => Ok(Some(system)),
        None => Err(WordsFault::Refused),
    }
}

/// The format that the value names.
pub fn format_given(value: Option<&str>) -> Result<Option<FormatWord>, WordsFault>
    ensures { IsReadAs (given format_named (option_map (λ text. text.now) value.entry)) result }
{
    let Some(text) = value else {
        return Ok(None);
    };
    match format_named(text.as_bytes()) {
        Some(format) => Ok(Some(format)),
        None => Err(WordsFault::Refused),
    }
}

/// The conflict limit that the value writes, or that there is none.
pub fn limit_given(value: Option<&str>) -> Result<Option<Option<u64>>, WordsFault>
    ensures { IsReadAs (given limit_named (option_map (λ text. text.now) value.entry)) result }
{
    let Some(text) = value else {
        return Ok(None);
    };
    if text == "none" {
        return Ok(Some(None));
    }
    match number_between(text, 1, 100000) {
        Some(limit) => Ok(Some(Some(limit))),
        None => Err(WordsFault::Refused),
    }
}

/// The number of steps that the value writes.
pub fn steps_given(value: Option<&str>) -> Result<Option<u32>, WordsFault>
    ensures { IsReadAs (given steps_named (option_map (λ text. text.now) value.entry)) result }
{
    let Some(text) = value else {
        return Ok(None);
    };
    match number_between(text, 1, 60) {
        Some(steps) => Ok(Some(steps as u32)),
        None => Err(WordsFault::Refused),
    }
}

/// The number that the text writes, where it is in the range.
fn number_between(text: &str, least: u64, most: u64) -> Option<u64>
    ensures { result ≡ number_between least most text.now }
{
    match number_in(text.as_bytes()) {
        Some(number) if least <= number && number <= most => Some(number),
        _ => None,
    }
}
