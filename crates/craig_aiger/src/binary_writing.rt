//! The binary text of a layout, appended to a vector that has room for it.
ghost use Rattle.std.specs.Prelude.{◌≡◌, ◌+◌, ◌*◌, ◌<◌, ◌≤◌, ◌^◌, ◌++◌, length};
ghost use Rattle.craig_aiger.specs.Appending.{HasRoom, IsAppended};
ghost use Rattle.craig_aiger.specs.BinaryText.{aig_text, gate_groups, AreOrdered};
ghost use Rattle.craig_aiger.specs.AsciiText.{numbered_lines};
ghost use Rattle.craig_spec.specs.SevenBits.{groups_of};

use crate::OutName;
use crate::writing::{append_header, append_input_symbols, append_output_symbols, append_outputs};

/// A number in groups of seven bits, the lowest first. All but the last have the top bit of their byte set.
fn append_groups(out: &mut Vec<u8>, number: u64)
    requires small { number < 2 ^ 63 }
    requires room { HasRoom out.old (length (groups_of number)) }
    ensures { IsAppended out.old (groups_of number) out.new }
{
    let mut rest = number;
    while rest >= 128 {
        out.push_reserved((128 + rest % 128) as u8);
        rest /= 128;
    }
    out.push_reserved(rest as u8);
}

/// The two numbers of a gate.
fn append_gate(out: &mut Vec<u8>, variable: u64, gate: (u64, u64))
    requires small { variable < 2 ^ 62 }
    requires first { gate.0 < 2 * variable }
    requires second { gate.1 ≤ gate.0 }
    requires room { HasRoom out.old (length (gate_groups variable gate)) }
    ensures { IsAppended out.old (gate_groups variable gate) out.new }
{
    append_groups(out, 2 * variable - gate.0);
    append_groups(out, gate.0 - gate.1);
}

/// The numbers of the gates, whose variables are numbered from `first` on.
fn append_gates(out: &mut Vec<u8>, first: u64, gates: &[(u64, u64)])
    requires small { first + length gates.now < 2 ^ 62 }
    requires ordered { AreOrdered first gates.now }
    requires room { HasRoom out.old (length (numbered_lines gate_groups first gates.now)) }
    ensures { IsAppended out.old (numbered_lines gate_groups first gates.now) out.new }
{
    for place in 0..gates.len() {
        append_gate(out, first + place as u64, gates[place]);
    }
}

/// The text of the layout with these inputs, gates and outputs.
pub(crate) fn append_binary_text(
    out: &mut Vec<u8>,
    inputs: &[u32],
    gates: &[(u64, u64)],
    outputs: &[(OutName, u64)],
)
    requires small { 1 + length inputs.now + length gates.now < 2 ^ 62 }
    requires ordered { AreOrdered (1 + length inputs.now) gates.now }
    requires room { HasRoom out.old (length (aig_text (record { inputs = inputs.now; gates = gates.now; outputs = outputs.now }))) }
    ensures { IsAppended out.old (aig_text (record { inputs = inputs.now; gates = gates.now; outputs = outputs.now })) out.new }
{
    append_header(
        out,
        b"aig ",
        inputs.len() as u64,
        outputs.len() as u64,
        gates.len() as u64,
    );
    append_outputs(out, outputs);
    append_gates(out, 1 + inputs.len() as u64, gates);
    append_input_symbols(out, inputs);
    append_output_symbols(out, outputs);
}
