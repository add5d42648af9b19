//! The reading of a text.
ghost use Rattle.std.specs.Prelude.{◌≡◌, ◌≤◌, Ok, length, IfErr, IfOk};
ghost use Rattle.craig_spec.specs.AigerBinary.{aiger_reading};
ghost use Rattle.craig_spec.specs.AigerReading.{IsDefinedFile, Written as WrittenText, aag_reading, file_written};
ghost use Rattle.craig_aiger_read.specs.ReadFaults.{IsFaultOf, IsReadAs};
ghost use Rattle.craig_aiger_read.specs.ReadFiles.{as_file};
ghost use Rattle.craig_aiger_read.specs.ReadWritten.{KeepsWritten};

use crate::assembly::{circuit_with, moves_of, numbered_of};
use crate::binary_reading::read_binary;
use crate::header::{header_of, is_binary};
use crate::text_line::next_line;
use crate::written::{Written, read_written};
use crate::{AigerError, Circuit, laws};
use std::alloc::Global;

/// The circuit that an AIGER text writes, with its variables numbered anew, or its first fault.
///
/// Bytes that begin with `aig ` are a binary text, and any others an ASCII one. The variables from 1 on are those of
/// the inputs in their order, then those of the latches, and then those of the gates. The gates of a binary text keep
/// their order. Those of an ASCII one stand by rising depth, where gates of one depth keep their order: the depth of a
/// gate is one more than the greatest depth of an operand, and that of an input or latch is 0. Any bytes may be given.
/// Time is that of a sort of the gates, and in a binary text linear. Memory is taken for what is there, whatever the
/// header counts, but that the inputs of a binary text, which have no lines, take a place each once all else was read.
///
/// After Biere, Heljanko and Wieringa, AIGER 1.9 and beyond, 2011.
#[tactic(none)]
pub fn read(alloc: Global, bytes: &[u8]) -> Result<Circuit, AigerError>
    ensures read { IsReadAs as_file result (aiger_reading bytes.now) }
    ensures defined { IfOk result (λ circuit. IsDefinedFile (as_file circuit)) }
{
    laws::files_are_defined();
    if is_binary(bytes) {
        read_binary(alloc, bytes)
    } else {
        read_ascii(alloc, bytes)
    }
}

/// The circuit that an ASCII text writes, or its first fault.
#[tactic(none)]
fn read_ascii(alloc: Global, bytes: &[u8]) -> Result<Circuit, AigerError>
    ensures { IsReadAs as_file result (aag_reading bytes.now) }
{
    let Some((line, rest)) = next_line(bytes) else {
        return Err(AigerError::Header { place: 0 });
    };
    let counts = header_of(line)?;
    let written = read_written(alloc, &counts, bytes.len() as u64, rest)?;
    circuit_of(alloc, written)
}

/// The circuit that is written so.
#[tactic(none)]
fn circuit_of(alloc: Global, written: Written) -> Result<Circuit, AigerError>
    requires few { length written.variables.keys ≤ 1000000000000000001 }
    requires kept { (w : WrittenText) × KeepsWritten w written }
    ensures file { IfOk result (λ circuit. (w : WrittenText) → KeepsWritten w written → file_written w ≡ Ok (as_file circuit)) }
    ensures fault { IfErr result (λ e. (w : WrittenText) → KeepsWritten w written → IsFaultOf e (file_written w)) }
{
    let numbered = numbered_of(alloc, &written)?;
    let lines = written.gates.as_slice();
    let first = (written.variables.len() - lines.len()) as u64;
    let moves = moves_of(alloc, first, numbered.gates.as_slice(), lines)?;
    let latches = written.latches;
    let circuit = circuit_with(
        alloc,
        first,
        latches.as_slice(),
        &numbered,
        &moves,
        written.names,
    )?;
    Ok(circuit)
}
