//! The tests on what a command names.

ghost use Rattle.std.specs.Prelude.{◌≡◌, ◌≤◌, nat_le, IfSome};
ghost use Rattle.std.specs.List.{list_all};
ghost use Rattle.std.specs.Int.RustNames.{unsigned_abs};
ghost use Rattle.craig_script.specs.Reading.{admitted, are_cuts_within, are_parts_within, are_rising_within, gives_parts, is_limit_within, natural, next_least, variables_named, is_within, variable_limit};

use crate::command::Command;
use crate::cut_word::CutWord;
use crate::refusal::Refusal;

/// The most that a variable of the script is.
const VARIABLE_LIMIT: u64 = 2147483647;

/// The most parts that a script has.
const PART_LIMIT: u64 = 4096;

/// The most that a conflict limit is.
const LIMIT_LIMIT: u64 = 100000;

/// Tests what a command names. A number of parts is refused where a clause was accepted. Then each part is to be from 0
/// to `parts`, and a number of parts from 1 to 4096; then each variable from 1 to 2147483647; then a conflict limit from 1
/// to 100000; and then chosen cuts are to rise and be at most `parts`. It takes no memory.
pub fn admit(parts: u16, any_clause: bool, command: &Command) -> Result<(), Refusal>
    ensures { result ≡ admitted parts any_clause command.now }
{
    if any_clause && gives_parts(command) {
        Err(Refusal::LateParts)
    } else if !parts_are_within(parts.into(), command) {
        Err(Refusal::Range)
    } else if !variables_are_within(VARIABLE_LIMIT, command) {
        Err(Refusal::Variable)
    } else if !limit_is_within(command) {
        Err(Refusal::LimitRange)
    } else if !cuts_are_within(parts, command) {
        Err(Refusal::CutRange)
    } else {
        Ok(())
    }
}

/// Whether the command gives the number of parts.
fn gives_parts(command: &Command) -> bool
    ensures { result ≡ gives_parts command.now }
{
    matches!(command, Command::Parts(_))
}

/// Whether each part that the command names is from 0 to `parts`, and a number of parts from 1 to the most.
fn parts_are_within(parts: u64, command: &Command) -> bool
    ensures { result ≡ are_parts_within parts command.now }
{
    match command {
        Command::Nothing
        | Command::System(_)
        | Command::Mark { .. }
        | Command::Cuts(_)
        | Command::Limit(_)
        | Command::Format(_) => true,
        Command::Parts(count) => is_within(PART_LIMIT, *count),
        Command::Add { part, .. } => *part <= parts,
        Command::Solve(pairs) => each_part_is_within(parts, pairs.as_slice()),
    }
}

/// Whether the conflict limit, where the command gives one, is from 1 to the most.
fn limit_is_within(command: &Command) -> bool
    ensures { result ≡ is_limit_within command.now }
{
    match command {
        Command::Limit(Some(limit)) => is_within(LIMIT_LIMIT, *limit),
        _ => true,
    }
}

/// Whether the cuts that the command chooses rise and are at most `parts`.
fn cuts_are_within(parts: u16, command: &Command) -> bool
    ensures { result ≡ are_cuts_within parts command.now }
{
    match command {
        Command::Cuts(CutWord::Chosen(cuts)) => are_rising_within(parts.into(), cuts.as_slice()),
        _ => true,
    }
}

/// Whether the numbers rise, from 0 on to the greatest.
fn are_rising_within(greatest: u64, numbers: &[i64]) -> bool
    requires { greatest ≤ 65535 }
    ensures { result ≡ are_rising_within 0 greatest numbers.now }
{
    let mut least = 0;
    for number in numbers {
        let Some(next) = next_least(least, greatest, number) else {
            return false;
        };
        least = next;
    }
    true
}

/// The least that may come after the number, where it is from the least to the greatest itself.
fn next_least(least: u64, greatest: u64, number: &i64) -> Option<u64>
    requires { greatest ≤ 65535 }
    ensures next { result ≡ next_least least greatest (natural number.now) }
    ensures bound { IfSome result (λ next. next ≤ 65536) }
{
    let number = natural(*number)?;
    if least <= number && number <= greatest {
        Some(number + 1)
    } else {
        None
    }
}

/// The number, where it isn't negative.
fn natural(number: i64) -> Option<u64>
    ensures { result ≡ natural number }
{
    if number < 0 {
        None
    } else {
        Some(number as u64)
    }
}

/// Whether each variable that the command names is from 1 to the limit.
fn variables_are_within(limit: u64, command: &Command) -> bool
    ensures { result ≡ list_all (is_within limit) (variables_named command.now) }
{
    match command {
        Command::Nothing
        | Command::Parts(_)
        | Command::System(_)
        | Command::Cuts(_)
        | Command::Limit(_)
        | Command::Format(_) => true,
        Command::Mark { name, .. } => is_within(limit, *name),
        Command::Add { lits, .. } => each_literal_is_within(limit, lits.as_slice()),
        Command::Solve(pairs) => each_assumption_is_within(limit, pairs.as_slice()),
    }
}

/// Whether the part of each pair is from 0 to `parts`.
fn each_part_is_within(parts: u64, pairs: &[(u64, i64)]) -> bool
    ensures { result ≡ list_all (λ pair. nat_le pair.0 parts) pairs.now }
{
    pairs.iter().all(|pair| pair.0 <= parts)
}

/// Whether the variable of each assumption is from 1 to the limit.
fn each_assumption_is_within(limit: u64, pairs: &[(u64, i64)]) -> bool
    ensures { result ≡ list_all (λ pair. is_within limit (unsigned_abs pair.1)) pairs.now }
{
    pairs
        .iter()
        .all(|pair| is_within(limit, pair.1.unsigned_abs()))
}

/// Whether the variable of each literal is from 1 to the limit.
fn each_literal_is_within(limit: u64, lits: &[i64]) -> bool
    ensures { result ≡ list_all (λ lit. is_within limit (unsigned_abs lit)) lits.now }
{
    lits.iter().all(|lit| is_within(limit, lit.unsigned_abs()))
}

/// Whether the number is from 1 to the limit.
fn is_within(limit: u64, number: u64) -> bool
    ensures { result ≡ is_within limit number }
{
    1 <= number && number <= limit
}
