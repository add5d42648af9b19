//! A line as a command, by the grammar alone.
//!
//! The readers take the line a word at a time, and copy nothing of what is left of it.

ghost use Rattle.std.specs.Prelude.{◌≡◌, List, ℤ, [], ◌∷◌, Ok, Err, codes, IsTrue, IsErrAnd, IfNone, IfSome, slice_index, ◌==◌};
ghost use Rattle.std.specs.Str.{bytes_eq};
ghost use Rattle.craig_script.specs.Words.{words};
ghost use Rattle.craig_script.specs.Reading.{IsParsedAs, IsNoMemory, parsed, command_of, add_of, solve_of, literals_to_end, is_comment, is_end, then_nothing, begins_list, begins_with_literal, begins_with_number, begins_with_part_and_literal, may_take_memory, parts_of, system_of, mark_of, cuts_of, limit_of, format_of, numbers_to_end, pairs_to_end, only_word, system_named, mark_named, format_named};

use crate::command::Command;
use crate::cut_word::CutWord;
use crate::line::Line;
use crate::lines::LINE_LIMIT;
use crate::literal::{literal_in, number_in};
use crate::numbers::Numbers;
use crate::pairs::Pairs;
use crate::refusal::{LineFault, Refusal};
use crate::setting_words::{FormatWord, MarkWord, SystemWord};
use crate::words::next_word;
use std::alloc::Global;

/// The command that a line asks for. An overlong line is refused as such, and any other line that isn't
/// in the grammar as `Syntax`. Only the literals of a clause, chosen cuts and pairs take memory.
pub fn parse(alloc: Global, line: &Line) -> Result<Command, LineFault>
    ensures read { IsParsedAs result (parsed line.now) }
    ensures memory { IsErrAnd result IsNoMemory → IsTrue (may_take_memory line.now) }
{
    match line {
        Line::Overlong => Err(LineFault::Refused(Refusal::Overlong)),
        Line::Text(bytes) if bytes.len() > LINE_LIMIT => {
            Err(LineFault::Refused(Refusal::Overlong))
        }
        Line::Text(bytes) => command(alloc, bytes.as_slice()),
    }
}

/// The command that the words ask for.
fn command(alloc: Global, line: &[u8]) -> Result<Command, LineFault>
    ensures read { IsParsedAs result (command_of (words line.now)) }
    ensures memory { IsErrAnd result IsNoMemory → IsTrue (begins_list (words line.now)) }
{
    let Some((word, rest)) = next_word(line) else {
        return Ok(Command::Nothing);
    };
    if begins_comment(word) {
        Ok(Command::Nothing)
    } else if is_word(word, b"add") {
        add(alloc, rest)
    } else if is_word(word, b"parts") {
        parts(rest)
    } else if is_word(word, b"system") {
        system(rest)
    } else if is_word(word, b"mark") {
        mark(rest)
    } else if is_word(word, b"cuts") {
        cuts(alloc, rest)
    } else if is_word(word, b"limit") {
        limit(rest)
    } else if is_word(word, b"format") {
        format(rest)
    } else if is_word(word, b"solve") {
        solve(alloc, rest)
    } else {
        Err(LineFault::Refused(Refusal::Syntax))
    }
}

/// A part, literals, and the end.
fn add(alloc: Global, line: &[u8]) -> Result<Command, LineFault>
    ensures read { IsParsedAs result (add_of (words line.now)) }
    ensures memory { IsErrAnd result IsNoMemory → IsTrue (begins_with_part_and_literal (words line.now)) }
{
    let Some((word, rest)) = next_word(line) else {
        return Err(LineFault::Refused(Refusal::Syntax));
    };
    let Some(part) = number_in(word) else {
        return Err(LineFault::Refused(Refusal::Syntax));
    };
    let lits = literals(alloc, rest)?;
    Ok(Command::Add { part, lits })
}

/// A number of parts.
fn parts(line: &[u8]) -> Result<Command, LineFault>
    ensures read { IsParsedAs result (parts_of (words line.now)) }
    ensures memory { IsErrAnd result IsNoMemory → ⊥ }
{
    let Some(word) = only_word(line) else {
        return Err(LineFault::Refused(Refusal::Syntax));
    };
    let Some(count) = number_in(word) else {
        return Err(LineFault::Refused(Refusal::Syntax));
    };
    Ok(Command::Parts(count))
}

/// The name of a system.
fn system(line: &[u8]) -> Result<Command, LineFault>
    ensures read { IsParsedAs result (system_of (words line.now)) }
    ensures memory { IsErrAnd result IsNoMemory → ⊥ }
{
    let Some(word) = only_word(line) else {
        return Err(LineFault::Refused(Refusal::Syntax));
    };
    let Some(system) = system_named(word) else {
        return Err(LineFault::Refused(Refusal::Syntax));
    };
    Ok(Command::System(system))
}

/// A variable and a mark.
fn mark(line: &[u8]) -> Result<Command, LineFault>
    ensures read { IsParsedAs result (mark_of (words line.now)) }
    ensures memory { IsErrAnd result IsNoMemory → ⊥ }
{
    let Some((word, rest)) = next_word(line) else {
        return Err(LineFault::Refused(Refusal::Syntax));
    };
    let Some(name) = number_in(word) else {
        return Err(LineFault::Refused(Refusal::Syntax));
    };
    let Some(word) = only_word(rest) else {
        return Err(LineFault::Refused(Refusal::Syntax));
    };
    let Some(mark) = mark_named(word) else {
        return Err(LineFault::Refused(Refusal::Syntax));
    };
    Ok(Command::Mark { name, mark })
}

/// The word for all cuts, or one or more numbers.
fn cuts(alloc: Global, line: &[u8]) -> Result<Command, LineFault>
    ensures read { IsParsedAs result (cuts_of (words line.now)) }
    ensures memory { IsErrAnd result IsNoMemory → IsTrue (begins_with_number (words line.now)) }
{
    let Some((word, rest)) = next_word(line) else {
        return Err(LineFault::Refused(Refusal::Syntax));
    };
    if is_word(word, b"all") {
        return if next_word(rest).is_none() {
            Ok(Command::Cuts(CutWord::All))
        } else {
            Err(LineFault::Refused(Refusal::Syntax))
        };
    }
    let chosen = numbers(alloc, line)?;
    Ok(Command::Cuts(CutWord::Chosen(chosen)))
}

/// The word for no limit, or a number of conflicts.
fn limit(line: &[u8]) -> Result<Command, LineFault>
    ensures read { IsParsedAs result (limit_of (words line.now)) }
    ensures memory { IsErrAnd result IsNoMemory → ⊥ }
{
    let Some(word) = only_word(line) else {
        return Err(LineFault::Refused(Refusal::Syntax));
    };
    if is_word(word, b"none") {
        return Ok(Command::Limit(None));
    }
    let Some(limit) = number_in(word) else {
        return Err(LineFault::Refused(Refusal::Syntax));
    };
    Ok(Command::Limit(Some(limit)))
}

/// The name of a format.
fn format(line: &[u8]) -> Result<Command, LineFault>
    ensures read { IsParsedAs result (format_of (words line.now)) }
    ensures memory { IsErrAnd result IsNoMemory → ⊥ }
{
    let Some(word) = only_word(line) else {
        return Err(LineFault::Refused(Refusal::Syntax));
    };
    let Some(format) = format_named(word) else {
        return Err(LineFault::Refused(Refusal::Syntax));
    };
    Ok(Command::Format(format))
}

/// The assumptions of a solve, and the end.
fn solve(alloc: Global, line: &[u8]) -> Result<Command, LineFault>
    ensures read { IsParsedAs result (solve_of (words line.now)) }
    ensures memory { IsErrAnd result IsNoMemory → IsTrue (begins_with_part_and_literal (words line.now)) }
{
    let pairs = pairs(alloc, line)?;
    Ok(Command::Solve(pairs))
}

/// Pairs of a part and a literal, and the end.
fn pairs(alloc: Global, line: &[u8]) -> Result<Pairs, LineFault>
    ensures read { IsParsedAs result (pairs_to_end (words line.now)) }
    ensures memory { IsErrAnd result IsNoMemory → IsTrue (begins_with_part_and_literal (words line.now)) }
{
    let mut pairs = Pairs::new(alloc);
    let mut rest = line;
    while let Some((word, behind)) = next_word(rest) {
        let Some((second, after)) = next_word(behind) else {
            return if is_word(word, b"0") {
                Ok(pairs)
            } else {
                Err(LineFault::Refused(Refusal::Syntax))
            };
        };
        let Some(part) = number_in(word) else {
            return Err(LineFault::Refused(Refusal::Syntax));
        };
        let Some(lit) = literal_in(second) else {
            return Err(LineFault::Refused(Refusal::Syntax));
        };
        pairs.push((part, lit)).map_err(LineFault::NoMemory)?;
        rest = after;
    }
    Err(LineFault::Refused(Refusal::Syntax))
}

/// Literals, and the end.
fn literals(alloc: Global, line: &[u8]) -> Result<Numbers, LineFault>
    ensures read { IsParsedAs result (literals_to_end (words line.now)) }
    ensures memory { IsErrAnd result IsNoMemory → IsTrue (begins_with_literal (words line.now)) }
{
    let mut lits = Numbers::new(alloc);
    let mut rest = line;
    while let Some((word, behind)) = next_word(rest) {
        if is_word(word, b"0") {
            return if next_word(behind).is_none() {
                Ok(lits)
            } else {
                Err(LineFault::Refused(Refusal::Syntax))
            };
        }
        let Some(lit) = literal_in(word) else {
            return Err(LineFault::Refused(Refusal::Syntax));
        };
        lits.push(lit).map_err(LineFault::NoMemory)?;
        rest = behind;
    }
    Err(LineFault::Refused(Refusal::Syntax))
}

/// Numbers, to the end of the line.
fn numbers(alloc: Global, line: &[u8]) -> Result<Numbers, LineFault>
    ensures read { IsParsedAs result (numbers_to_end (words line.now)) }
    ensures memory { IsErrAnd result IsNoMemory → IsTrue (begins_with_number (words line.now)) }
{
    let mut numbers = Numbers::new(alloc);
    let mut rest = line;
    while let Some((word, behind)) = next_word(rest) {
        let Some(number) = number_in(word) else {
            return Err(LineFault::Refused(Refusal::Syntax));
        };
        numbers.push(number as i64).map_err(LineFault::NoMemory)?;
        rest = behind;
    }
    Ok(numbers)
}

/// The word of a line that has one alone.
fn only_word(line: &[u8]) -> Option<&[u8]>
    ensures none { IfNone result (only_word (words line.now) ≡ Err Refusal.Syntax) }
    ensures some { IfSome result (λ word. only_word (words line.now) ≡ Ok word.now) }
{
    let (word, rest) = next_word(line)?;
    if next_word(rest).is_none() {
        Some(word)
    } else {
        None
    }
}

/// The system that the word names.
pub fn system_named(word: &[u8]) -> Option<SystemWord>
    ensures { result ≡ system_named word.now }
{
    if is_word(word, b"mcmillan") {
        Some(SystemWord::McMillan)
    } else if is_word(word, b"pudlak") {
        Some(SystemWord::Pudlak)
    } else if is_word(word, b"inverse") {
        Some(SystemWord::Inverse)
    } else if is_word(word, b"dual") {
        Some(SystemWord::Dual)
    } else if is_word(word, b"marks") {
        Some(SystemWord::Marks)
    } else if is_word(word, b"all") {
        Some(SystemWord::All)
    } else {
        None
    }
}

/// The mark that the word names.
fn mark_named(word: &[u8]) -> Option<MarkWord>
    ensures { result ≡ mark_named word.now }
{
    if is_word(word, b"a") {
        Some(MarkWord::A)
    } else if is_word(word, b"ab") {
        Some(MarkWord::Ab)
    } else if is_word(word, b"b") {
        Some(MarkWord::B)
    } else {
        None
    }
}

/// The format that the word names.
pub fn format_named(word: &[u8]) -> Option<FormatWord>
    ensures { result ≡ format_named word.now }
{
    if is_word(word, b"aag") {
        Some(FormatWord::Aag)
    } else if is_word(word, b"aig") {
        Some(FormatWord::Aig)
    } else if is_word(word, b"cnf") {
        Some(FormatWord::Cnf)
    } else {
        None
    }
}

/// Whether the word begins a comment.
fn begins_comment(word: &[u8]) -> bool
    ensures { result ≡ is_comment word.now }
{
    word.first() == Some(&b'#')
}

/// Whether the word is this one.
fn is_word(word: &[u8], name: &[u8]) -> bool
    ensures { result ≡ bytes_eq word.now name.now }
{
    word == name
}
