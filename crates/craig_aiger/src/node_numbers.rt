//! The numbers of nodes in a layout, and the literals of edges by them.
ghost use Rattle.std.specs.Prelude.{◌≡◌, [], ◌∷◌, List, Option, ◌+◌, ◌*◌, ◌<◌, ◌≤◌, ◌^◌, ℕ, Some, None, All, Contains, length, map, take, slice_index, IfOk};
ghost use Rattle.std.specs.List.{filter_map};
ghost use Rattle.std.specs.List.Sorted.{IsStrictlyIncreasing};
ghost use Rattle.craig_aig.specs.declared.node.Node.{Node};
ghost use Rattle.craig_aiger.specs.Layouts.{AreNamed, AreTaken, IsNumber, IsNumbering, OperandsBelow, at, node_operands, gate_literals, input_names, node_variable, edge_literal, ordered};

use crate::OutName;
use crate::needed::gate_operands;
use crate::script_inputs::{input_number, node_input};
use craig_aig::{Edge, Node};
use craig_base::Names;
use std::alloc::{AllocError, Global};

/// The number of a node, where so many variables are the constant, the inputs and the gates before.
#[tactic(none)]
fn number_of(node: &Option<Node>, names: &Names, inputs: &[u32], taken: u64) -> u64
    requires rising { IsStrictlyIncreasing inputs.now }
    requires few { length inputs.now < 2 ^ 41 }
    requires taken { taken < 2 ^ 42 }
    requires named { (x : ℕ) → node_variable node.now ≡ Some x → (x < length names.now) × Contains inputs.now (slice_index names.now x) }
    ensures number { (before : List (Option Node)) → AreTaken inputs.now before taken → IsNumber names.now inputs.now before node.now result }
    ensures small { result < 2 ^ 43 }
{
    if let Some(var) = node_input(node) {
        let name = names.name(var);
        input_number(inputs, name)
    } else if gate_operands(node).is_some() {
        taken
    } else {
        0
    }
}

/// The number of a gate more, if the node is one.
fn taken_after(node: &Option<Node>, taken: u64) -> u64
    requires { taken < 2 ^ 42 }
    ensures { result ≡ taken + length (filter_map node_operands (node.now ∷ [])) }
{
    match node {
        Some(Node::Gate(_, _)) => taken + 1,
        _ => taken,
    }
}

/// The number of each node of the table, and 0 where there is none.
pub(crate) fn number_nodes(
    alloc: Global,
    table: &[Option<Node>],
    names: &Names,
    inputs: &[u32],
) -> Result<Vec<u64>, AllocError>
    requires rising { IsStrictlyIncreasing inputs.now }
    requires few { length inputs.now ≤ 2 ^ 40 }
    requires short { length table.now ≤ 2 ^ 40 }
    requires named { AreNamed names.now table.now }
    requires names { (x : ℕ) → Contains (input_names names.now table.now) x → Contains inputs.now x }
    ensures numbering { IfOk result (λ v. IsNumbering names.now inputs.now table.now v.items) }
    ensures small { IfOk result (λ v. All (λ n. n < 2 ^ 43) v.items) }
{
    let mut numbers = Vec::new(alloc);
    let mut taken = 1 + inputs.len() as u64;
    for node in table {
        let number = number_of(node, names, inputs, taken);
        numbers.push(number)?;
        taken = taken_after(node, taken);
    }
    Ok(numbers)
}

/// The literal of an edge.
fn edge_literal(numbers: &[u64], edge: Edge) -> u64
    requires within { edge.place < length numbers.now }
    requires small { All (λ n. n < 2 ^ 43) numbers.now }
    ensures { result ≡ edge_literal numbers.now edge }
{
    2 * numbers[edge.place()] + u64::from(edge.negated())
}

/// The gate of two operand literals, the greater first.
fn ordered_gate(first: u64, second: u64) -> (u64, u64)
    ensures { result ≡ ordered first second }
{
    if first < second {
        (second, first)
    } else {
        (first, second)
    }
}

/// The gates of the table, in its order.
pub(crate) fn numbered_gates(
    alloc: Global,
    table: &[Option<Node>],
    numbers: &[u64],
) -> Result<Vec<(u64, u64)>, AllocError>
    requires lengths { length numbers.now ≡ length table.now }
    requires below { OperandsBelow table.now }
    requires small { All (λ n. n < 2 ^ 43) numbers.now }
    ensures { IfOk result (λ v. v.items ≡ map (gate_literals numbers.now) (filter_map node_operands table.now)) }
{
    let mut gates = Vec::new(alloc);
    for node in table {
        if let Some(operands) = gate_operands(node) {
            let first = edge_literal(numbers, operands.0);
            let second = edge_literal(numbers, operands.1);
            gates.push(ordered_gate(first, second))?;
        }
    }
    Ok(gates)
}

/// An output of a name: the number of its cut has 32 bits.
fn output_of(name: OutName, literal: u64) -> (OutName, u64)
    ensures value { result ≡ (name, literal) }
    ensures cut { result.0.cut < 2 ^ 32 }
{
    (name, literal)
}

/// The outputs with the literals of their edges.
pub(crate) fn numbered_outputs(
    alloc: Global,
    outputs: &[(OutName, Edge)],
    numbers: &[u64],
) -> Result<Vec<(OutName, u64)>, AllocError>
    requires within { All (λ o. o.1.place < length numbers.now) outputs.now }
    requires small { All (λ n. n < 2 ^ 43) numbers.now }
    ensures value { IfOk result (λ v. v.items ≡ map (λ o. (o.0, edge_literal numbers.now o.1)) outputs.now) }
    ensures cuts { IfOk result (λ v. All (λ o. o.0.cut < 2 ^ 32) v.items) }
{
    let mut numbered = Vec::new(alloc);
    for output in outputs {
        let literal = edge_literal(numbers, output.1);
        numbered.push(output_of(output.0, literal))?;
    }
    Ok(numbered)
}
