//! Rows of `craig_aiger_read`: a half adder, and texts with their first faults.

use craig_aiger_read::{Circuit, Gate, Name, Roots, read};
use std::alloc::{AllocError, Global};
use std::test::Fail;

const HALF_ADDER: &[u8] =
    b"aag 7 2 0 2 3\n2\n4\n6\n12\n6 13 15\n12 2 4\n14 3 5\ni0 x\ni1 y\no0 s\no1 c\nc\nhalf adder\n";

/// Texts, and what is printed of their first faults.
const FAULTS: [(&[u8], &str); 16] = [
    (b"", "byte 0: no header"),
    (b"aig 0 0 0 0\n", "byte 0: no header"),
    (b"aag 1 1 0 0\n", "byte 0: no header"),
    (b"aag  1 1 0 0 0\n", "byte 0: no header"),
    (
        b"aag 1 1 0 0 1\n",
        "byte 0: the greatest variable is not that of the definitions",
    ),
    (
        b"aag 0 0 0 0 0 0 1\n",
        "byte 0: constraints and justice and fairness properties are not supported",
    ),
    (
        b"aag 0 0 0 1 0\n",
        "byte 14: the text ends before what its header counts",
    ),
    (
        b"aag 1 1 0 0 0\n2 2\n",
        "byte 14: the line is not in its form",
    ),
    (
        b"aag 1 1 0 1 0\n2\n4\n",
        "byte 16: the literal is out of range",
    ),
    (
        b"aag 2 2 0 0 0\n2\n2\n",
        "byte 16: the variable is defined twice",
    ),
    (
        b"aag 1 0 1 0 0\n2 2 3\n",
        "byte 14: the reset is not 0, 1 or the latch's own literal",
    ),
    (
        b"aag 1 1 0 0 0\n2\ni0 a\ni0 b\n",
        "byte 21: the line is no symbol of something without a name",
    ),
    (
        b"aag 2 1 0 1 0\n2\n4\n",
        "byte 16: the variable is defined nowhere",
    ),
    (
        b"aag 1 0 0 1 1\n2\n2 2 2\n",
        "byte 16: the gate depends on itself",
    ),
    (
        b"aag 999999999999999999 0 0 999999999999999999 0\n2\n",
        "byte 50: the text ends before what its header counts",
    ),
    (
        b"aag 3 1 0 1 1\n2\n4\n6 6 2\no0 a\no0 b\n",
        "byte 29: the line is no symbol of something without a name",
    ),
];

/// Whether the text has a fault, and it prints so.
pub(crate) fn prints_as(alloc: Global, text: &[u8], message: &str) -> Result<bool, AllocError> {
    match read(alloc, text) {
        Ok(_) => Ok(false),
        Err(error) => Ok(format!(in alloc; "{error}")?.as_str() == message),
    }
}

/// Whether the name is there and has these bytes.
pub(crate) fn is_named(name: &Option<Name>, bytes: &[u8]) -> bool {
    match name {
        Some(name) => name.as_slice() == bytes,
        None => false,
    }
}

/// Whether the input at the place has the name.
pub(crate) fn has_input(circuit: &Circuit, place: usize, name: &[u8]) -> bool {
    match circuit.inputs.as_slice().get(place) {
        Some(input) => is_named(input, name),
        None => false,
    }
}

/// Whether the root at the place has the literal and the name.
pub(crate) fn has_root(roots: &Roots, place: usize, literal: u64, name: &[u8]) -> bool {
    match roots.as_slice().get(place) {
        Some(root) => root.literal == literal && is_named(&root.name, name),
        None => false,
    }
}

/// Whether the gate at the place has the operands.
pub(crate) fn has_gate(circuit: &Circuit, place: usize, left: u64, right: u64) -> bool {
    circuit.gates.as_slice().get(place) == Some(&Gate { left, right })
}

/// Whether the circuit is the half adder: its gates by depth, its inputs and its outputs with their names.
fn is_half_adder(circuit: &Circuit) -> bool {
    has_input(circuit, 0, b"x")
        && has_input(circuit, 1, b"y")
        && has_gate(circuit, 0, 2, 4)
        && has_gate(circuit, 1, 3, 5)
        && has_gate(circuit, 2, 7, 9)
        && has_root(&circuit.outputs, 0, 10, b"s")
        && has_root(&circuit.outputs, 1, 6, b"c")
}

#[test]
fn gates_are_read_by_their_depth(rt: HostRuntime) -> Result<(), Fail> {
    let Ok(circuit) = read(rt.alloc(), HALF_ADDER) else {
        panic!(rt; "the text has no fault");
    };
    assert!(rt; is_half_adder(&circuit));
    Ok(())
}

#[test]
fn the_first_fault_is_told_with_its_place(rt: HostRuntime) -> Result<(), Fail> {
    for (text, message) in FAULTS {
        assert!(rt; prints_as(rt.alloc(), text, message)?);
    }
    Ok(())
}
