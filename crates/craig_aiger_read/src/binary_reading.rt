//! The reading of a binary text.
ghost use Rattle.std.specs.Prelude.{◌≡◌, ◌-◌, ◌≤◌, Ok, drop, length, IfErr, IfOk};
ghost use Rattle.craig_spec.specs.AigerBinary.{aig_reading, binary_in};
ghost use Rattle.craig_aiger_read.specs.ReadBinary.{HasNameEach, binary_file_of};
ghost use Rattle.craig_aiger_read.specs.ReadFaults.{IsFaultOf, IsReadAs};
ghost use Rattle.craig_aiger_read.specs.ReadFiles.{as_file};
ghost use Rattle.craig_aiger_read.specs.ReadLines.{lines_at};
ghost use Rattle.craig_aiger_read.specs.ReadViews.{as_counts};

use crate::binary_gates::read_binary_gates;
use crate::binary_latch::read_binary_latches;
use crate::counts::Counts;
use crate::header::binary_header_of;
use crate::latch_line::LatchLine;
use crate::naming::{latches_with_names, roots_with_names};
use crate::root_line::{RootLine, read_roots};
use crate::symbols::{NameTable, read_symbols};
use crate::text_line::next_line;
use crate::{AigerError, Circuit, Gate, Gates, Inputs};
use std::alloc::{AllocError, Global};

/// What stands behind the header of a binary text. The literals are those of the circuit.
#[derive(Drop)]
pub(crate) struct BinaryParts {
    /// The lines of the latches.
    pub latches: Vec<LatchLine>,
    /// The lines of the outputs.
    pub outputs: Vec<RootLine>,
    /// The lines of the bad literals.
    pub bads: Vec<RootLine>,
    /// The gates.
    pub gates: Vec<Gate>,
    /// The names.
    pub names: NameTable,
}

/// The circuit that a binary text writes, or its first fault.
#[tactic(none)]
pub(crate) fn read_binary(alloc: Global, bytes: &[u8]) -> Result<Circuit, AigerError>
    ensures { IsReadAs as_file result (aig_reading bytes.now) }
{
    let Some((line, rest)) = next_line(bytes) else {
        return Err(AigerError::Header { place: 0 });
    };
    let counts = binary_header_of(line)?;
    let parts = read_parts(alloc, &counts, bytes, rest)?;
    let circuit = circuit_of(alloc, parts)?;
    Ok(circuit)
}

/// Reads what stands behind the header, in these last bytes of the text.
#[tactic(none)]
fn read_parts(
    alloc: Global,
    counts: &Counts,
    bytes: &[u8],
    text: &[u8],
) -> Result<BinaryParts, AigerError>
    requires short { length text.now ≤ length bytes.now }
    requires last { text.now ≡ drop (length bytes.now - length text.now) bytes.now }
    ensures file { IfOk result (λ parts. binary_in (as_counts counts.now) bytes.now (lines_at (length bytes.now) text.now) ≡ Ok (binary_file_of parts)) }
    ensures named { IfOk result (λ parts. HasNameEach parts) }
    ensures fault { IfErr result (λ e. IsFaultOf e (binary_in (as_counts counts.now) bytes.now (lines_at (length bytes.now) text.now))) }
{
    let end = bytes.len() as u64;
    let (latches, rest) = read_binary_latches(alloc, counts, end, text)?;
    let (outputs, rest) = read_roots(alloc, counts, counts.outputs, end, rest)?;
    let (bads, rest) = read_roots(alloc, counts, counts.bads, end, rest)?;
    let (gates, rest) = read_binary_gates(alloc, counts, end, rest)?;
    let names = read_symbols(alloc, counts, end, rest)?;
    Ok(BinaryParts {
        latches,
        outputs,
        bads,
        gates,
        names,
    })
}

/// The circuit of the parts.
#[tactic(none)]
fn circuit_of(alloc: Global, parts: BinaryParts) -> Result<Circuit, AllocError>
    requires { HasNameEach parts }
    ensures { IfOk result (λ circuit. as_file circuit ≡ binary_file_of parts) }
{
    let names = parts.names;
    let latches = latches_with_names(alloc, parts.latches.as_slice(), names.latches)?;
    let outputs = roots_with_names(alloc, parts.outputs.as_slice(), names.outputs)?;
    let bads = roots_with_names(alloc, parts.bads.as_slice(), names.bads)?;
    Ok(Circuit {
        inputs: Inputs::from_vec(names.inputs),
        latches,
        outputs,
        bads,
        gates: Gates::from_vec(parts.gates),
    })
}
