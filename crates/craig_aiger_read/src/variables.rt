//! The variables that a text defines, each with its number.
ghost use Rattle.std.specs.Prelude.{◌≡◌, ◌/◌, ◌<◌, ◌≤◌, All, IfOk, IfSome, length, map, if◌then◌else◌, None, Some};
ghost use Rattle.std.specs.Option.{option_map};
ghost use Rattle.craig_spec.specs.AigerReading.{is_literal, is_new, is_variable, numbered};
ghost use Rattle.craig_aiger_read.specs.ReadFaults.{IsReadAs};
ghost use Rattle.craig_aiger_read.specs.ReadViews.{as_counts, as_operands};
ghost use Rattle.craig_aiger_read.specs.ReadNumbers.{IsGateWithin, gate_if_known, gates_numbered, latches_numbered, roots_numbered};

use crate::counts::Counts;
use crate::gate_line::GateLine;
use crate::latch_line::LatchLine;
use crate::root_line::RootLine;
use crate::{AigerError, Gate};
use indexmap::IndexSet;
use std::alloc::Global;

/// Whether the literal is of a variable up to the greatest.
pub(crate) fn is_literal(counts: &Counts, literal: u64) -> bool
    ensures { result ≡ is_literal (as_counts counts.now) literal }
{
    literal <= 2 * counts.greatest + 1
}

/// Whether the literal is a variable, and not the constant.
pub(crate) fn is_variable(counts: &Counts, literal: u64) -> bool
    ensures { result ≡ is_variable (as_counts counts.now) literal }
{
    is_literal(counts, literal) && 2 <= literal && literal % 2 == 0
}

/// Whether the variable of the literal is none of these.
pub(crate) fn is_new(variables: &IndexSet<u64>, literal: u64) -> bool
    ensures { result ≡ is_new variables.now.keys literal }
{
    !variables.contains(&(literal / 2))
}

/// The literal with the number of its variable, if it is one of the variables.
pub(crate) fn number_literal(variables: &IndexSet<u64>, literal: u64) -> Option<u64>
    requires { length variables.now.keys ≤ 1000000000000000001 }
    ensures number { result ≡ (if is_new variables.now.keys literal then None else Some (numbered variables.now.keys literal)) }
    ensures within { IfSome result (λ n. n / 2 < length variables.now.keys) }
{
    let place = variables.get_index_of(&(literal / 2))?;
    Some(2 * place as u64 + literal % 2)
}

/// The next literals of the latches, with the numbers of their variables.
#[tactic(none)]
pub(crate) fn number_latches(
    alloc: Global,
    variables: &IndexSet<u64>,
    latches: &[LatchLine],
) -> Result<Vec<u64>, AigerError>
    requires { length variables.now.keys ≤ 1000000000000000001 }
    ensures read { IsReadAs (λ v. v.items) result (latches_numbered variables.now.keys latches.now) }
    ensures within { IfOk result (λ v. All (λ l. l / 2 < length variables.now.keys) v.items) }
{
    let mut numbered = Vec::new(alloc);
    for latch in latches {
        let Some(next) = number_literal(variables, latch.next) else {
            return Err(AigerError::Undefined {
                place: latch.offset,
            });
        };
        numbered.push(next)?;
    }
    Ok(numbered)
}

/// The literals of outputs or bad literals, with the numbers of their variables.
#[tactic(none)]
pub(crate) fn number_roots(
    alloc: Global,
    variables: &IndexSet<u64>,
    roots: &[RootLine],
) -> Result<Vec<u64>, AigerError>
    requires { length variables.now.keys ≤ 1000000000000000001 }
    ensures read { IsReadAs (λ v. v.items) result (roots_numbered variables.now.keys roots.now) }
    ensures within { IfOk result (λ v. All (λ l. l / 2 < length variables.now.keys) v.items) }
{
    let mut numbered = Vec::new(alloc);
    for root in roots {
        let Some(literal) = number_literal(variables, root.literal) else {
            return Err(AigerError::Undefined { place: root.offset });
        };
        numbered.push(literal)?;
    }
    Ok(numbered)
}

/// The gates, with the numbers of the variables of their operands.
#[tactic(none)]
pub(crate) fn number_gates(
    alloc: Global,
    variables: &IndexSet<u64>,
    gates: &[GateLine],
) -> Result<Vec<Gate>, AigerError>
    requires { length variables.now.keys ≤ 1000000000000000001 }
    ensures read { IsReadAs (λ v. map as_operands v.items) result (gates_numbered variables.now.keys gates.now) }
    ensures within { IfOk result (λ v. All (IsGateWithin (length variables.now.keys)) v.items) }
{
    let mut numbered = Vec::new(alloc);
    for gate in gates {
        let Some(operands) = number_gate(variables, gate) else {
            return Err(AigerError::Undefined { place: gate.offset });
        };
        numbered.push(operands)?;
    }
    Ok(numbered)
}

/// The operands of a gate, with the numbers of their variables.
#[tactic(none)]
fn number_gate(variables: &IndexSet<u64>, gate: &GateLine) -> Option<Gate>
    requires { length variables.now.keys ≤ 1000000000000000001 }
    ensures gate { option_map as_operands result ≡ gate_if_known variables.now.keys gate.now }
    ensures within { IfSome result (IsGateWithin (length variables.now.keys)) }
{
    Some(Gate {
        left: number_literal(variables, gate.left)?,
        right: number_literal(variables, gate.right)?,
    })
}
