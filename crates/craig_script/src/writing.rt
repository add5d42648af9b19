//! A command as the line that is read as it.
//!
//! The pieces of the line are appended from its front. After want of memory a piece may be there in part.

ghost use Rattle.std.specs.Prelude.{◌≡◌, ℕ, ◌++◌, codes, List, ◌∷◌, [], ℤ, Ok, map, IsTrue, OnOk, OnErr};
ghost use Rattle.std.specs.Fmt.{decimal, signed_decimal};
ghost use Rattle.std.specs.List.{flat_map, join_with_byte};
ghost use Rattle.craig_script.specs.Appended.{AppendsOnly};
ghost use Rattle.craig_script.specs.Reading.{command_of};
ghost use Rattle.craig_script.specs.Words.{words};
ghost use Rattle.craig_script.specs.Writing.{command_line, command_text, command_words, cut_words, format_word, is_writable, limit_word, mark_word, pair_words, spaced, system_word};

use crate::command::Command;
use crate::cut_word::CutWord;
use crate::setting_words::{FormatWord, MarkWord, SystemWord};
use itoa::Buffer;
use std::alloc::AllocError;

/// Appends the line of a command, with its newline. The command is one that `parse` gives, and not `Nothing`. The words
/// of the line are read as the same command. After an error, for which only want of memory is a cause, `out` has the
/// same bytes as before.
pub fn write_command(command: &Command, out: &mut Vec<u8>) -> Result<(), AllocError>
    requires { IsTrue (is_writable command.now) }
    ensures text { OnOk result (out.new.items ≡ out.old.items ++ command_text command.now) }
    ensures unchanged { OnErr result (out.new.items ≡ out.old.items) }
    ensures reads_back { command_of (words (command_line command.now)) ≡ Ok command.now }
{
    crate::laws::written_commands();
    let before = out.len();
    let written = append_line(out, command);
    if written.is_err() {
        out.truncate(before);
    }
    written
}

/// The words of a command, and a newline.
fn append_line(out: &mut Vec<u8>, command: &Command) -> Result<(), AllocError>
    requires { IsTrue (is_writable command.now) }
    ensures text { OnOk result (out.new.items ≡ out.old.items ++ command_text command.now) }
    ensures appends { AppendsOnly out.old.items out.new.items }
{
    append_words(out, command)?;
    out.extend_from_slice(b"\n")
}

/// The words of a command, with one space between them.
fn append_words(out: &mut Vec<u8>, command: &Command) -> Result<(), AllocError>
    requires { IsTrue (is_writable command.now) }
    ensures text { OnOk result (out.new.items ≡ out.old.items ++ command_line command.now) }
    ensures appends { AppendsOnly out.old.items out.new.items }
{
    match command {
        Command::Nothing => unreachable!(),
        Command::Parts(count) => append_parts(out, *count),
        Command::Add { part, lits } => append_add(out, *part, lits.as_slice()),
        Command::System(system) => append_system(out, *system),
        Command::Mark { name, mark } => append_mark(out, *name, *mark),
        Command::Cuts(cuts) => append_cuts(out, cuts),
        Command::Limit(limit) => append_limit(out, *limit),
        Command::Format(format) => append_format(out, *format),
        Command::Solve(pairs) => append_solve(out, pairs.as_slice()),
    }
}

/// The words of a number of parts.
fn append_parts(out: &mut Vec<u8>, count: u64) -> Result<(), AllocError>
    ensures text { OnOk result (out.new.items ≡ out.old.items ++ (codes "parts" ++ spaced (decimal count ∷ []))) }
    ensures appends { AppendsOnly out.old.items out.new.items }
{
    out.extend_from_slice(b"parts")?;
    append_number(out, count)
}

/// The words of a clause.
fn append_add(out: &mut Vec<u8>, part: u64, lits: &[i64]) -> Result<(), AllocError>
    ensures text { OnOk result (out.new.items ≡ out.old.items ++ (codes "add" ++ spaced (decimal part ∷ (map signed_decimal lits.now ++ codes "0" ∷ [])))) }
    ensures appends { AppendsOnly out.old.items out.new.items }
{
    out.extend_from_slice(b"add")?;
    append_number(out, part)?;
    append_literals(out, lits)?;
    out.extend_from_slice(b" 0")
}

/// The words of a system.
fn append_system(out: &mut Vec<u8>, system: SystemWord) -> Result<(), AllocError>
    ensures text { OnOk result (out.new.items ≡ out.old.items ++ (codes "system" ++ spaced (system_word system ∷ []))) }
    ensures appends { AppendsOnly out.old.items out.new.items }
{
    out.extend_from_slice(b"system ")?;
    out.extend_from_slice(system_word(system))
}

/// The words of a mark.
fn append_mark(out: &mut Vec<u8>, name: u64, mark: MarkWord) -> Result<(), AllocError>
    ensures text { OnOk result (out.new.items ≡ out.old.items ++ (codes "mark" ++ spaced (decimal name ∷ (mark_word mark ∷ [])))) }
    ensures appends { AppendsOnly out.old.items out.new.items }
{
    out.extend_from_slice(b"mark")?;
    append_number(out, name)?;
    out.extend_from_slice(b" ")?;
    out.extend_from_slice(mark_word(mark))
}

/// The words of cuts.
fn append_cuts(out: &mut Vec<u8>, cuts: &CutWord) -> Result<(), AllocError>
    ensures text { OnOk result (out.new.items ≡ out.old.items ++ (codes "cuts" ++ spaced (cut_words cuts.now))) }
    ensures appends { AppendsOnly out.old.items out.new.items }
{
    out.extend_from_slice(b"cuts")?;
    match cuts {
        CutWord::All => out.extend_from_slice(b" all"),
        CutWord::Chosen(cuts) => append_literals(out, cuts.as_slice()),
    }
}

/// The words of a limit.
fn append_limit(out: &mut Vec<u8>, limit: Option<u64>) -> Result<(), AllocError>
    ensures text { OnOk result (out.new.items ≡ out.old.items ++ (codes "limit" ++ spaced (limit_word limit ∷ []))) }
    ensures appends { AppendsOnly out.old.items out.new.items }
{
    out.extend_from_slice(b"limit")?;
    match limit {
        None => out.extend_from_slice(b" none"),
        Some(limit) => append_number(out, limit),
    }
}

/// The words of a format.
fn append_format(out: &mut Vec<u8>, format: FormatWord) -> Result<(), AllocError>
    ensures text { OnOk result (out.new.items ≡ out.old.items ++ (codes "format" ++ spaced (format_word format ∷ []))) }
    ensures appends { AppendsOnly out.old.items out.new.items }
{
    out.extend_from_slice(b"format ")?;
    out.extend_from_slice(format_word(format))
}

/// The words of a solve.
fn append_solve(out: &mut Vec<u8>, pairs: &[(u64, i64)]) -> Result<(), AllocError>
    ensures text { OnOk result (out.new.items ≡ out.old.items ++ (codes "solve" ++ spaced (flat_map pair_words pairs.now ++ codes "0" ∷ []))) }
    ensures appends { AppendsOnly out.old.items out.new.items }
{
    out.extend_from_slice(b"solve")?;
    append_pairs(out, pairs)?;
    out.extend_from_slice(b" 0")
}

/// Pairs of a part and a literal, each number behind a space.
fn append_pairs(out: &mut Vec<u8>, pairs: &[(u64, i64)]) -> Result<(), AllocError>
    ensures text { OnOk result (out.new.items ≡ out.old.items ++ spaced (flat_map pair_words pairs.now)) }
    ensures appends { AppendsOnly out.old.items out.new.items }
{
    for pair in pairs {
        append_pair(out, *pair)?;
    }
    Ok(())
}

/// A part and a literal, each behind a space.
fn append_pair(out: &mut Vec<u8>, pair: (u64, i64)) -> Result<(), AllocError>
    ensures text { OnOk result (out.new.items ≡ out.old.items ++ spaced (pair_words pair)) }
    ensures appends { AppendsOnly out.old.items out.new.items }
{
    append_number(out, pair.0)?;
    append_literal(out, pair.1)
}

/// Signed numbers, each behind a space.
fn append_literals(out: &mut Vec<u8>, literals: &[i64]) -> Result<(), AllocError>
    ensures text { OnOk result (out.new.items ≡ out.old.items ++ spaced (map signed_decimal literals.now)) }
    ensures appends { AppendsOnly out.old.items out.new.items }
{
    for literal in literals {
        append_literal(out, *literal)?;
    }
    Ok(())
}

/// A space and a signed number in decimal digits, behind a minus sign where it is negative.
fn append_literal(out: &mut Vec<u8>, literal: i64) -> Result<(), AllocError>
    ensures text { OnOk result (out.new.items ≡ out.old.items ++ spaced (signed_decimal literal ∷ [])) }
    ensures appends { AppendsOnly out.old.items out.new.items }
{
    out.extend_from_slice(b" ")?;
    let mut buffer = Buffer::new();
    out.extend_from_slice(buffer.format(literal).as_bytes())
}

/// A space and a number in decimal digits.
fn append_number(out: &mut Vec<u8>, number: u64) -> Result<(), AllocError>
    ensures text { OnOk result (out.new.items ≡ out.old.items ++ spaced (decimal number ∷ [])) }
    ensures appends { AppendsOnly out.old.items out.new.items }
{
    out.extend_from_slice(b" ")?;
    let mut buffer = Buffer::new();
    out.extend_from_slice(buffer.format(number).as_bytes())
}

/// The word for a system.
fn system_word(system: SystemWord) -> &'static [u8]
    ensures { result.now ≡ system_word system }
{
    match system {
        SystemWord::McMillan => b"mcmillan",
        SystemWord::Pudlak => b"pudlak",
        SystemWord::Inverse => b"inverse",
        SystemWord::Dual => b"dual",
        SystemWord::Marks => b"marks",
        SystemWord::All => b"all",
    }
}

/// The word for a mark.
fn mark_word(mark: MarkWord) -> &'static [u8]
    ensures { result.now ≡ mark_word mark }
{
    match mark {
        MarkWord::A => b"a",
        MarkWord::Ab => b"ab",
        MarkWord::B => b"b",
    }
}

/// The word for a format.
fn format_word(format: FormatWord) -> &'static [u8]
    ensures { result.now ≡ format_word format }
{
    match format {
        FormatWord::Aag => b"aag",
        FormatWord::Aig => b"aig",
        FormatWord::Cnf => b"cnf",
    }
}
