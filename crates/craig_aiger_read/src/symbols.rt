//! The symbols of a text, which give names.
ghost use Rattle.std.specs.Prelude.{◌≡◌, ◌≤◌, ◌++◌, ℕ, ◌==◌, [], ◌∷◌, List, Some, Ok, length, false, replicate, slice_index, slice_set, take_while, IfErr, IfNone, IfOk, IfSome, OnOk};
ghost use Rattle.std.specs.Option.{option_map};
ghost use Rattle.craig_spec.specs.AigerReading.{checked, is_before_comments, symbol_of};
ghost use Rattle.craig_spec.specs.AigerFault.{FaultKind};
ghost use Rattle.craig_aiger_read.specs.ReadFaults.{IsFaultOf, IsReadAs};
ghost use Rattle.craig_aiger_read.specs.ReadLines.{IsFirstLine, lines_at};
ghost use Rattle.craig_aiger_read.specs.ReadNames.{AddsName, AreNamesRead, HasNames, IsNameFault, is_free, symbols_read};
ghost use Rattle.craig_aiger_read.specs.ReadViews.{as_counts};

use crate::counts::Counts;
use crate::cut::cut_at;
use crate::decimal::number_of;
use crate::text_line::next_line;
use crate::{AigerError, Name};
use std::alloc::{AllocError, Global};

/// The names of the things of each kind, in the order of the things.
#[derive(Drop)]
pub(crate) struct NameTable {
    /// Those of the inputs.
    pub inputs: Vec<Option<Name>>,
    /// Those of the latches.
    pub latches: Vec<Option<Name>>,
    /// Those of the outputs.
    pub outputs: Vec<Option<Name>>,
    /// Those of the bad literals.
    pub bads: Vec<Option<Name>>,
}

/// Reads the symbols up to the comments or the end.
pub(crate) fn read_symbols(
    alloc: Global,
    counts: &Counts,
    end: u64,
    text: &[u8],
) -> Result<NameTable, AigerError>
    requires { length text.now ≤ end }
    ensures names { IfOk result (λ n. AreNamesRead (as_counts counts.now) (symbols_read (as_counts counts.now) end (lines_at end text.now)) n) }
    ensures fault { IfErr result (λ e. IsFaultOf e (symbols_read (as_counts counts.now) end (lines_at end text.now))) }
{
    let mut names = no_names(alloc, counts)?;
    let mut rest = text;
    while let Some((line, behind)) = next_symbol(rest) {
        let offset = end - rest.len() as u64;
        add_symbol(alloc, &mut names, offset, line)?;
        rest = behind;
    }
    Ok(names)
}

/// The first line and what is behind it, where it is before the comments.
fn next_symbol(text: &[u8]) -> Option<(&[u8], &[u8])>
    ensures none { IfNone result ((end : ℕ) → length text.now ≤ end → take_while is_before_comments (lines_at end text.now) ≡ []) }
    ensures some { IfSome result (λ cut. IsFirstLine text.now cut.0.now cut.1.now) }
    ensures symbol { IfSome result (λ cut. (slice_index cut.0.now 0 == 99) ≡ false) }
{
    let (line, behind) = next_line(text)?;
    if opens_comments(line) {
        None
    } else {
        Some((line, behind))
    }
}

/// Whether the line is the first of the comments.
fn opens_comments(line: &[u8]) -> bool
    ensures { result ≡ (slice_index line.now 0 == 99) }
{
    line.first() == Some(&b'c')
}

/// A table of so many things without names.
fn no_names(alloc: Global, counts: &Counts) -> Result<NameTable, AllocError>
    ensures { IfOk result (λ names. HasNames (as_counts counts.now) [] names) }
{
    let inputs = unnamed(alloc, counts.inputs)?;
    let latches = unnamed(alloc, counts.latches)?;
    let outputs = unnamed(alloc, counts.outputs)?;
    let bads = unnamed(alloc, counts.bads)?;
    Ok(NameTable {
        inputs,
        latches,
        outputs,
        bads,
    })
}

/// So many things without names. Room for all is asked for first, since no line need stand for an input.
fn unnamed(alloc: Global, count: u64) -> Result<Vec<Option<Name>>, AllocError>
    ensures { IfOk result (λ names. names.items ≡ replicate count None) }
{
    let mut names = Vec::with_capacity(alloc, count as usize)?;
    for _ in 0..count {
        names.push(None)?;
    }
    Ok(names)
}

/// Adds the name that a symbol gives.
fn add_symbol(
    alloc: Global,
    names: &mut NameTable,
    offset: u64,
    line: &[u8],
) -> Result<(), AigerError>
    ensures named { OnOk result (AddsName offset line.now names.old names.new) }
    ensures fault { IfErr result (IsNameFault offset line.now names.old) }
{
    let Some((letter, position, name)) = symbol_in_line(line) else {
        return Err(AigerError::Symbol { place: offset });
    };
    match letter {
        b'i' => give_name(alloc, &mut names.inputs, offset, position, name),
        b'l' => give_name(alloc, &mut names.latches, offset, position, name),
        b'o' => give_name(alloc, &mut names.outputs, offset, position, name),
        b'b' => give_name(alloc, &mut names.bads, offset, position, name),
        _ => Err(AigerError::Symbol { place: offset }),
    }
}

/// Gives the thing at the position the name, if there is one without a name.
fn give_name(
    alloc: Global,
    names: &mut Vec<Option<Name>>,
    offset: u64,
    position: u64,
    name: &[u8],
) -> Result<(), AigerError>
    ensures read { IsReadAs (λ x. x) result (checked (is_free names.old.items position) FaultKind.Symbol offset (Ok tt)) }
    ensures named { OnOk result (names.new.items ≡ slice_set names.old.items position (Some name.now)) }
{
    let position = position as usize;
    if position >= names.len() || names[position].is_some() {
        return Err(AigerError::Symbol { place: offset });
    }
    names[position] = Some(Name::from_bytes(alloc, name)?);
    Ok(())
}

/// The letter, the position and the name of the symbol that a line is.
fn symbol_in_line(line: &[u8]) -> Option<(u8, u64, &[u8])>
    ensures { option_map (λ x. record { letter = x.0; position = x.1; name = x.2.now }) result ≡ symbol_of line.now }
{
    let (letter, rest) = line.split_first()?;
    let (word, behind) = cut_at(rest, b' ');
    Some((*letter, number_of(word)?, behind?))
}
