//! What a text says before its variables are numbered anew.
ghost use Rattle.std.specs.Prelude.{◌≡◌, ◌≤◌, length, IfErr, IfOk};
ghost use Rattle.craig_spec.specs.AigerReading.{written_in};
ghost use Rattle.craig_aiger_read.specs.ReadFaults.{IsFaultOf};
ghost use Rattle.craig_aiger_read.specs.ReadLines.{lines_at};
ghost use Rattle.craig_aiger_read.specs.ReadViews.{as_counts};
ghost use Rattle.craig_aiger_read.specs.ReadWritten.{IsKeptRead};

use crate::AigerError;
use crate::counts::Counts;
use crate::gate_line::{GateLine, read_gates};
use crate::input_line::read_inputs;
use crate::latch_line::{LatchLine, read_latches};
use crate::root_line::{RootLine, read_roots};
use crate::symbols::{NameTable, read_symbols};
use indexmap::IndexSet;
use std::alloc::Global;

/// The definitions of a text.
#[derive(Drop)]
pub(crate) struct Written {
    /// The variables that are defined, in the order of their lines, behind the constant's.
    pub variables: IndexSet<u64>,
    /// The lines of the latches.
    pub latches: Vec<LatchLine>,
    /// The lines of the outputs.
    pub outputs: Vec<RootLine>,
    /// The lines of the bad literals.
    pub bads: Vec<RootLine>,
    /// The lines of the gates.
    pub gates: Vec<GateLine>,
    /// The names.
    pub names: NameTable,
}

/// Reads the lines after the header, in a text of so many bytes.
pub(crate) fn read_written(
    alloc: Global,
    counts: &Counts,
    end: u64,
    text: &[u8],
) -> Result<Written, AigerError>
    requires { length text.now ≤ end }
    ensures written { IfOk result (IsKeptRead (written_in (as_counts counts.now) end (lines_at end text.now))) }
    ensures few { IfOk result (λ kept. length kept.variables.keys ≤ 1000000000000000001) }
    ensures fault { IfErr result (λ e. IsFaultOf e (written_in (as_counts counts.now) end (lines_at end text.now))) }
{
    let (mut variables, rest) = read_inputs(alloc, counts, end, text)?;
    let (latches, rest) = read_latches(alloc, counts, end, rest, &mut variables)?;
    let (outputs, rest) = read_roots(alloc, counts, counts.outputs, end, rest)?;
    let (bads, rest) = read_roots(alloc, counts, counts.bads, end, rest)?;
    let (gates, rest) = read_gates(alloc, counts, end, rest, &mut variables)?;
    let names = read_symbols(alloc, counts, end, rest)?;
    Ok(Written {
        variables,
        latches,
        outputs,
        bads,
        gates,
        names,
    })
}
