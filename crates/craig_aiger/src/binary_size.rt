//! The number of bytes of the binary text of a layout, counted without memory.
ghost use Rattle.std.specs.Prelude.{◌≡◌, ◌+◌, ◌*◌, ◌<◌, ◌≤◌, ◌^◌, length};
ghost use Rattle.craig_aiger.specs.AsciiText.{numbered_lines};
ghost use Rattle.craig_aiger.specs.BinaryText.{aig_text, gate_groups, AreOrdered};
ghost use Rattle.craig_spec.specs.SevenBits.{groups_of};

use crate::OutName;
use crate::text_size::{header_size, input_symbols_size, output_symbols_size, outputs_size};

/// The number of groups of seven bits of a number.
fn groups_size(number: u64) -> u64
    requires { number < 2 ^ 63 }
    ensures value { result ≡ length (groups_of number) }
    ensures small { result ≤ 9 }
{
    let mut rest = number;
    let mut size = 1;
    while rest >= 128 {
        rest /= 128;
        size += 1;
    }
    size
}

/// The size of the two numbers of a gate.
fn gate_size(variable: u64, gate: (u64, u64)) -> u64
    requires small { variable < 2 ^ 62 }
    requires first { gate.0 < 2 * variable }
    requires second { gate.1 ≤ gate.0 }
    ensures value { result ≡ length (gate_groups variable gate) }
    ensures small { result ≤ 63 }
{
    groups_size(2 * variable - gate.0) + groups_size(gate.0 - gate.1)
}

/// The size of the numbers of the gates, whose variables are numbered from `first` on.
fn gates_size(first: u64, gates: &[(u64, u64)]) -> u64
    requires small { first ≤ 2 ^ 41 }
    requires few { length gates.now ≤ 2 ^ 40 }
    requires ordered { AreOrdered first gates.now }
    ensures value { result ≡ length (numbered_lines gate_groups first gates.now) }
    ensures small { result ≤ 63 * length gates.now }
{
    let mut size = 0;
    for place in 0..gates.len() {
        size += gate_size(first + place as u64, gates[place]);
    }
    size
}

/// The size of the text of the layout with these inputs, gates and outputs.
pub(crate) fn binary_text_size(
    inputs: &[u32],
    gates: &[(u64, u64)],
    outputs: &[(OutName, u64)],
) -> u64
    requires inputs { length inputs.now ≤ 2 ^ 40 }
    requires gates { length gates.now ≤ 2 ^ 40 }
    requires outputs { length outputs.now ≤ 2 ^ 40 }
    requires ordered { AreOrdered (1 + length inputs.now) gates.now }
    ensures value { result ≡ length (aig_text (record { inputs = inputs.now; gates = gates.now; outputs = outputs.now })) }
    ensures small { result < 2 ^ 49 }
{
    let header = header_size(
        inputs.len() as u64,
        outputs.len() as u64,
        gates.len() as u64,
    );
    let lines = outputs_size(outputs) + gates_size(1 + inputs.len() as u64, gates);
    header + lines + input_symbols_size(inputs) + output_symbols_size(outputs)
}
