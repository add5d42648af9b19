//! Rows of the reading of binary texts: circuits, numbers in groups of seven bits, and first faults.

use crate::aiger_read::{has_gate, has_input, has_root, prints_as};
use craig_aiger_read::{Circuit, Reset, read};
use std::alloc::Global;
use std::test::Fail;

/// Two inputs, their conjunction, and the names of a script.
const CONJUNCTION: &[u8] = b"aig 3 2 0 1 1\n6\n\x02\x02i0 1\ni1 2\no0 0\n";

/// Constants and an input as outputs, in 40 bytes.
const WITHOUT_GATES: &[u8] = b"aig 1 1 0 3 0\n1\n2\n0\ni0 1\no0 0\no1 1\no2 2\n";

/// An input and three latches, each with another start.
const LATCHES: &[u8] = b"aig 4 1 3 0 0\n3\n2 1\n9 8\n";

/// The gate of the conjunction, its first difference in nine groups.
const NINE_GROUPS: &[u8] = b"aig 3 2 0 1 1\n6\n\x82\x80\x80\x80\x80\x80\x80\x80\x00\x02";

/// Texts, and what is printed of their first faults.
const FAULTS: [(&[u8], &str); 15] = [
    (
        b"aig 1 1 0 3 0\n1\n2\n0\ni0 1\no0 0\no1 1\no2 2\no0 0\n",
        "byte 40: the line is no symbol of something without a name",
    ),
    (
        b"aig 3 2 0 1 1\n",
        "byte 14: the text ends before what its header counts",
    ),
    (
        b"aig 3 2 0 1 1\n6\n",
        "byte 16: the text ends before what its header counts",
    ),
    (
        b"aig 3 2 0 1 1\n6\n\x02",
        "byte 17: the text ends before what its header counts",
    ),
    (
        b"aig 3 2 0 1 1\n6\n\x02\x82",
        "byte 18: the text ends before what its header counts",
    ),
    (
        b"aig 100000000000000000 0 0 0 100000000000000000\n",
        "byte 48: the text ends before what its header counts",
    ),
    (
        b"aig 3 2 0 1 1\n6\n\x00\x02",
        "byte 16: the difference is out of range",
    ),
    (
        b"aig 3 2 0 1 1\n6\n\x07\x02",
        "byte 16: the difference is out of range",
    ),
    (
        b"aig 3 2 0 1 1\n6\n\x02\x05",
        "byte 17: the difference is out of range",
    ),
    (
        b"aig 3 2 0 1 1\n6\n\x82\x80\x80\x80\x80\x80\x80\x80\x80\x00\x02",
        "byte 16: the difference is out of range",
    ),
    (
        b"aig 4 2 0 1 1\n6\n\x02\x02",
        "byte 0: the greatest variable is not that of the definitions",
    ),
    (
        b"aig 3 2 0 1 1\n8\n\x02\x02",
        "byte 14: the literal is out of range",
    ),
    (
        b"aig 2 1 1 0 0\n2 3 4\n",
        "byte 14: the line is not in its form",
    ),
    (
        b"aig 2 1 1 0 0\n6\n",
        "byte 14: the literal is out of range",
    ),
    (
        b"aig 2 1 1 0 0\n3 5\n",
        "byte 14: the reset is not 0, 1 or the latch's own literal",
    ),
];

/// Whether the circuit is the conjunction.
fn is_conjunction(circuit: &Circuit) -> bool {
    has_input(circuit, 0, b"1")
        && has_input(circuit, 1, b"2")
        && has_gate(circuit, 0, 4, 2)
        && has_root(&circuit.outputs, 0, 6, b"0")
}

/// Whether the circuit has the outputs of the text without gates.
fn has_three_outputs(circuit: &Circuit) -> bool {
    has_input(circuit, 0, b"1")
        && has_root(&circuit.outputs, 0, 1, b"0")
        && has_root(&circuit.outputs, 1, 2, b"1")
        && has_root(&circuit.outputs, 2, 0, b"2")
}

/// Whether the latch at the place goes on and starts so.
fn has_latch(circuit: &Circuit, place: usize, next: u64, reset: Reset) -> bool {
    match circuit.latches.as_slice().get(place) {
        Some(latch) => latch.next == next && latch.reset == reset,
        None => false,
    }
}

/// Whether the circuit has the three latches.
fn has_three_latches(circuit: &Circuit) -> bool {
    has_latch(circuit, 0, 3, Reset::Zero)
        && has_latch(circuit, 1, 2, Reset::One)
        && has_latch(circuit, 2, 9, Reset::Open)
}

/// Whether the conjunction is read.
fn reads_conjunction(alloc: Global) -> bool {
    match read(alloc, CONJUNCTION) {
        Ok(circuit) => is_conjunction(&circuit),
        Err(_) => false,
    }
}

/// Whether the text without gates is read.
fn reads_outputs(alloc: Global) -> bool {
    match read(alloc, WITHOUT_GATES) {
        Ok(circuit) => has_three_outputs(&circuit),
        Err(_) => false,
    }
}

/// Whether the latches are read.
fn reads_latches(alloc: Global) -> bool {
    match read(alloc, LATCHES) {
        Ok(circuit) => has_three_latches(&circuit),
        Err(_) => false,
    }
}

/// Whether a number in nine groups is read.
fn reads_nine_groups(alloc: Global) -> bool {
    match read(alloc, NINE_GROUPS) {
        Ok(circuit) => has_gate(&circuit, 0, 4, 2),
        Err(_) => false,
    }
}

#[test]
fn binary_texts_are_read(rt: HostRuntime) -> Result<(), Fail> {
    let alloc = rt.alloc();
    assert!(rt; reads_conjunction(alloc));
    assert!(rt; reads_outputs(alloc));
    assert!(rt; reads_latches(alloc));
    assert!(rt; reads_nine_groups(alloc));
    Ok(())
}

#[test]
fn the_first_fault_of_a_binary_text_is_told_with_its_place(rt: HostRuntime) -> Result<(), Fail> {
    for (text, message) in FAULTS {
        assert!(rt; prints_as(rt.alloc(), text, message)?);
    }
    Ok(())
}
