//! The number of bytes of the ASCII text of a layout, counted without memory.
ghost use Rattle.std.specs.Prelude.{◌≡◌, ◌+◌, ◌*◌, ◌<◌, ◌≤◌, ◌^◌, decimal, length};
ghost use Rattle.craig_aiger.specs.AsciiText.{aag_header, aag_text, gate_line, input_line, input_symbol, literal_line, numbered_lines, output_line, output_symbol};
ghost use Rattle.craig_aiger.specs.BinaryText.{aig_header};
ghost use Rattle.craig_aiger.specs.OutNames.{family_text, name_text};

use crate::{Family, OutName};
use itoa::Buffer;

/// The number of decimal digits.
fn digits(number: u64) -> u64
    ensures value { result ≡ length (decimal number) }
    ensures small { result ≤ 20 }
{
    let mut buffer = Buffer::new();
    buffer.format(number).len() as u64
}

/// The size of a literal's line.
fn literal_size(literal: u64) -> u64
    ensures value { result ≡ length (literal_line literal) }
    ensures small { result ≤ 21 }
{
    digits(literal) + 1
}

/// The size of a gate's line.
fn gate_size(variable: u64, gate: (u64, u64)) -> u64
    requires { variable < 2 ^ 63 }
    ensures value { result ≡ length (gate_line variable gate) }
    ensures small { result ≤ 63 }
{
    digits(2 * variable) + 1 + digits(gate.0) + 1 + literal_size(gate.1)
}

/// The size of a family's letter.
fn family_size(family: Option<Family>) -> u64
    ensures value { result ≡ length (family_text family) }
    ensures small { result ≤ 1 }
{
    match family {
        None => 0,
        Some(_) => 1,
    }
}

/// The size of the name of an output.
fn name_size(name: OutName) -> u64
    ensures value { result ≡ length (name_text name) }
    ensures small { result ≤ 21 }
{
    family_size(name.family) + digits(u64::from(name.cut))
}

/// The size of the line that names an input.
fn input_symbol_size(place: u64, input: u32) -> u64
    ensures value { result ≡ length (input_symbol place input) }
    ensures small { result ≤ 63 }
{
    1 + digits(place) + 1 + literal_size(u64::from(input))
}

/// The size of the line that names an output.
fn output_symbol_size(place: u64, output: (OutName, u64)) -> u64
    ensures value { result ≡ length (output_symbol place output) }
    ensures small { result ≤ 63 }
{
    1 + digits(place) + 1 + name_size(output.0) + 1
}

/// The size of the lines of the inputs.
fn inputs_size(inputs: &[u32]) -> u64
    requires { length inputs.now ≤ 2 ^ 40 }
    ensures value { result ≡ length (numbered_lines input_line 1 inputs.now) }
    ensures small { result ≤ 63 * length inputs.now }
{
    let mut size = 0;
    for place in 0..inputs.len() {
        size += literal_size(2 * (1 + place as u64));
    }
    size
}

/// The size of the lines of the outputs.
pub(crate) fn outputs_size(outputs: &[(OutName, u64)]) -> u64
    requires { length outputs.now ≤ 2 ^ 40 }
    ensures value { result ≡ length (numbered_lines output_line 0 outputs.now) }
    ensures small { result ≤ 63 * length outputs.now }
{
    let mut size = 0;
    for place in 0..outputs.len() {
        size += literal_size(outputs[place].1);
    }
    size
}

/// The size of the lines of the gates, whose variables are numbered from `first` on.
fn gates_size(first: u64, gates: &[(u64, u64)]) -> u64
    requires small { first ≤ 2 ^ 41 }
    requires few { length gates.now ≤ 2 ^ 40 }
    ensures value { result ≡ length (numbered_lines gate_line first gates.now) }
    ensures small { result ≤ 63 * length gates.now }
{
    let mut size = 0;
    for place in 0..gates.len() {
        size += gate_size(first + place as u64, gates[place]);
    }
    size
}

/// The size of the lines that name the inputs.
pub(crate) fn input_symbols_size(inputs: &[u32]) -> u64
    requires { length inputs.now ≤ 2 ^ 40 }
    ensures value { result ≡ length (numbered_lines input_symbol 0 inputs.now) }
    ensures small { result ≤ 63 * length inputs.now }
{
    let mut size = 0;
    for place in 0..inputs.len() {
        size += input_symbol_size(place as u64, inputs[place]);
    }
    size
}

/// The size of the lines that name the outputs.
pub(crate) fn output_symbols_size(outputs: &[(OutName, u64)]) -> u64
    requires { length outputs.now ≤ 2 ^ 40 }
    ensures value { result ≡ length (numbered_lines output_symbol 0 outputs.now) }
    ensures small { result ≤ 63 * length outputs.now }
{
    let mut size = 0;
    for place in 0..outputs.len() {
        size += output_symbol_size(place as u64, outputs[place]);
    }
    size
}

/// The size of the header of either form.
pub(crate) fn header_size(inputs: u64, outputs: u64, gates: u64) -> u64
    requires { inputs + gates < 2 ^ 63 }
    ensures ascii { result ≡ length (aag_header inputs outputs gates) }
    ensures binary { result ≡ length (aig_header inputs outputs gates) }
    ensures small { result ≤ 126 }
{
    4 + digits(inputs + gates) + 1 + digits(inputs) + 3 + digits(outputs) + 1 + literal_size(gates)
}

/// The size of the text of the layout with these inputs, gates and outputs.
pub(crate) fn text_size(inputs: &[u32], gates: &[(u64, u64)], outputs: &[(OutName, u64)]) -> u64
    requires inputs { length inputs.now ≤ 2 ^ 40 }
    requires gates { length gates.now ≤ 2 ^ 40 }
    requires outputs { length outputs.now ≤ 2 ^ 40 }
    ensures value { result ≡ length (aag_text (record { inputs = inputs.now; gates = gates.now; outputs = outputs.now })) }
    ensures small { result < 2 ^ 49 }
{
    let header = header_size(
        inputs.len() as u64,
        outputs.len() as u64,
        gates.len() as u64,
    );
    let lines = inputs_size(inputs)
        + outputs_size(outputs)
        + gates_size(1 + inputs.len() as u64, gates);
    header + lines + input_symbols_size(inputs) + output_symbols_size(outputs)
}
