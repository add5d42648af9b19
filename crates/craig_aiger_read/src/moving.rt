//! New numbers for the variables of gates.
ghost use Rattle.std.specs.Prelude.{◌≡◌, ℕ, ◌+◌, ◌/◌, ◌<◌, ◌≤◌, length, map, slice_index, IfOk};
ghost use Rattle.craig_aiger_read.specs.ReadDepths.{AreWithin};
ghost use Rattle.craig_aiger_read.specs.ReadOrder.{AreNewVariables, AreSmall, gate_moved_by, moved_by};
ghost use Rattle.craig_aiger_read.specs.ReadViews.{as_operands};

use crate::Gate;
use std::alloc::{AllocError, Global};

/// The new variables of the gates, by their old places: those from the first one on, in the order.
pub(crate) fn new_variables(
    alloc: Global,
    first: u64,
    order: &[usize],
) -> Result<Vec<u64>, AllocError>
    requires small { first + length order.now ≤ 1000000000000000001 }
    requires inside { (j : ℕ) → j < length order.now → slice_index order.now j < length order.now }
    ensures places { IfOk result (λ v. AreNewVariables first order.now v.items) }
    ensures long { IfOk result (λ v. length v.items ≡ length order.now) }
{
    let mut variables = vec![in alloc; first + order.len() as u64; order.len()]?;
    let mut place = order.len();
    while place > 0 {
        place -= 1;
        variables[order[place]] = first + place as u64;
    }
    Ok(variables)
}

/// The literal with the new variable, where its variable is that of a gate.
#[tactic(none)]
pub(crate) fn moved(first: u64, variables: &[u64], literal: u64) -> u64
    requires within { literal / 2 < first + length variables.now }
    requires small { AreSmall variables.now }
    ensures { result ≡ moved_by first variables.now literal }
{
    if literal / 2 < first {
        literal
    } else {
        2 * variables[(literal / 2 - first) as usize] + literal % 2
    }
}

/// The gates in the order, with new variables.
pub(crate) fn moved_gates(
    alloc: Global,
    first: u64,
    variables: &[u64],
    gates: &[Gate],
    order: &[usize],
) -> Result<Vec<Gate>, AllocError>
    requires within { AreWithin first gates.now }
    requires long { length gates.now ≡ length variables.now }
    requires small { AreSmall variables.now }
    requires inside { (j : ℕ) → j < length order.now → slice_index order.now j < length gates.now }
    ensures { IfOk result (λ v. map as_operands v.items ≡ map (gate_moved_by first variables.now (map as_operands gates.now)) order.now) }
{
    let mut sorted = Vec::new(alloc);
    for gate in order {
        let moved = moved_gate(first, variables, gates, *gate);
        sorted.push(moved)?;
    }
    Ok(sorted)
}

/// The gate of a place, with new variables.
fn moved_gate(first: u64, variables: &[u64], gates: &[Gate], place: usize) -> Gate
    requires within { AreWithin first gates.now }
    requires long { length gates.now ≡ length variables.now }
    requires small { AreSmall variables.now }
    requires inside { place < length gates.now }
    ensures { as_operands result ≡ gate_moved_by first variables.now (map as_operands gates.now) place }
{
    Gate {
        left: moved(first, variables, gates[place].left),
        right: moved(first, variables, gates[place].right),
    }
}
