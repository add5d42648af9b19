//! The circuit of what a text says.
ghost use Rattle.std.specs.Prelude.{◌≡◌, ◌+◌, ◌≤◌, length, map, IfErr, IfOk};
ghost use Rattle.craig_aiger_read.specs.Assembled.{FitsNames, IsMoved, IsNumbered, file_of, undefined_in};
ghost use Rattle.craig_aiger_read.specs.ReadDepths.{AreWithin, depths_of};
ghost use Rattle.craig_aiger_read.specs.ReadFaults.{IsFaultOf};
ghost use Rattle.craig_aiger_read.specs.ReadFiles.{as_file};
ghost use Rattle.craig_aiger_read.specs.ReadViews.{as_gate, as_operands};

use crate::depths::gate_depths;
use crate::gate_line::GateLine;
use crate::latch_line::LatchLine;
use crate::moving::{moved_gates, new_variables};
use crate::naming::{named_latches, named_roots};
use crate::order::by_depth;
use crate::symbols::NameTable;
use crate::variables::{number_gates, number_latches, number_roots};
use crate::written::Written;
use crate::{AigerError, Circuit, Gate, Gates, Inputs};
use std::alloc::{AllocError, Global};

/// The literals of a text with the numbers of their variables.
#[derive(Drop)]
pub(crate) struct Numbered {
    /// The next literals of the latches.
    pub nexts: Vec<u64>,
    /// The outputs.
    pub outputs: Vec<u64>,
    /// The bad literals.
    pub bads: Vec<u64>,
    /// The gates.
    pub gates: Vec<Gate>,
}

/// The literals of a text with the numbers of their variables, if each is defined.
pub(crate) fn numbered_of(alloc: Global, written: &Written) -> Result<Numbered, AigerError>
    requires { length written.now.variables.keys ≤ 1000000000000000001 }
    ensures ok { IfOk result (λ n. IsNumbered written.now n) }
    ensures err { IfErr result (λ e. IsFaultOf e (undefined_in written.now)) }
{
    let nexts = number_latches(alloc, &written.variables, written.latches.as_slice())?;
    let outputs = number_roots(alloc, &written.variables, written.outputs.as_slice())?;
    let bads = number_roots(alloc, &written.variables, written.bads.as_slice())?;
    let gates = number_gates(alloc, &written.variables, written.gates.as_slice())?;
    Ok(Numbered {
        nexts,
        outputs,
        bads,
        gates,
    })
}

/// The order of gates by depth, and the new variables of the gates.
#[derive(Drop)]
pub(crate) struct Moves {
    /// The places of the gates in their new order.
    pub order: Vec<usize>,
    /// The new variables of the gates by their old places.
    pub variables: Vec<u64>,
}

/// The order of the gates, which have the variables from the first one on, if each has a depth.
pub(crate) fn moves_of(
    alloc: Global,
    first: u64,
    gates: &[Gate],
    lines: &[GateLine],
) -> Result<Moves, AigerError>
    requires beside { length gates.now ≡ length lines.now }
    requires within { AreWithin first gates.now }
    requires small { first + length gates.now ≤ 1000000000000000001 }
    ensures ok { IfOk result (λ m. IsMoved first gates.now lines.now m) }
    ensures err { IfErr result (λ e. IsFaultOf e (depths_of first (map as_operands gates.now) (map as_gate lines.now))) }
{
    let depths = gate_depths(alloc, first, gates, lines)?;
    let order = by_depth(alloc, depths.as_slice())?;
    let variables = new_variables(alloc, first, order.as_slice())?;
    Ok(Moves { order, variables })
}

/// The circuit of lines of latches and numbered literals, with new variables and names.
pub(crate) fn circuit_with(
    alloc: Global,
    first: u64,
    lines: &[LatchLine],
    numbered: &Numbered,
    moves: &Moves,
    names: NameTable,
) -> Result<Circuit, AllocError>
    requires fits { FitsNames first lines.now numbered.now moves.now names }
    ensures { IfOk result (λ c. as_file c ≡ file_of first lines.now numbered.now moves.now names) }
{
    let variables = moves.variables.as_slice();
    let order = moves.order.as_slice();
    let gates = moved_gates(alloc, first, variables, numbered.gates.as_slice(), order)?;
    let nexts = numbered.nexts.as_slice();
    let latches = named_latches(alloc, first, variables, lines, nexts, names.latches)?;
    let literals = numbered.outputs.as_slice();
    let outputs = named_roots(alloc, first, variables, literals, names.outputs)?;
    let literals = numbered.bads.as_slice();
    let bads = named_roots(alloc, first, variables, literals, names.bads)?;
    Ok(Circuit {
        inputs: Inputs::from_vec(names.inputs),
        latches,
        outputs,
        bads,
        gates: Gates::from_vec(gates),
    })
}
