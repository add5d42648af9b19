//! The ASCII text of a layout, appended to a vector that has room for it.
ghost use Rattle.std.specs.Prelude.{◌≡◌, ◌+◌, ◌*◌, ◌<◌, ◌≤◌, ◌^◌, ◌++◌, codes, decimal, length};
ghost use Rattle.craig_aiger.specs.Appending.{HasRoom, IsAppended};
ghost use Rattle.craig_aiger.specs.AsciiText.{aag_text, gate_line, header, input_line, input_symbol, literal_line, numbered_lines, output_line, output_symbol};
ghost use Rattle.craig_aiger.specs.OutNames.{family_text, name_text};

use crate::{Family, OutName};
use itoa::Buffer;

/// Bytes as they are.
fn append_bytes(out: &mut Vec<u8>, bytes: &[u8])
    requires { HasRoom out.old (length bytes.now) }
    ensures { IsAppended out.old bytes.now out.new }
{
    out.extend_from_slice(bytes).unwrap();
}

/// A number in decimal digits.
fn append_number(out: &mut Vec<u8>, number: u64)
    requires { HasRoom out.old (length (decimal number)) }
    ensures { IsAppended out.old (decimal number) out.new }
{
    let mut buffer = Buffer::new();
    append_bytes(out, buffer.format(number).as_bytes());
}

/// A literal on a line.
fn append_literal(out: &mut Vec<u8>, literal: u64)
    requires { HasRoom out.old (length (literal_line literal)) }
    ensures { IsAppended out.old (literal_line literal) out.new }
{
    append_number(out, literal);
    append_bytes(out, b"\n");
}

/// A gate on a line.
fn append_gate(out: &mut Vec<u8>, variable: u64, gate: (u64, u64))
    requires small { variable < 2 ^ 63 }
    requires room { HasRoom out.old (length (gate_line variable gate)) }
    ensures { IsAppended out.old (gate_line variable gate) out.new }
{
    append_number(out, 2 * variable);
    append_bytes(out, b" ");
    append_number(out, gate.0);
    append_bytes(out, b" ");
    append_literal(out, gate.1);
}

/// The letter of a family.
fn append_family(out: &mut Vec<u8>, family: Option<Family>)
    requires { HasRoom out.old (length (family_text family)) }
    ensures { IsAppended out.old (family_text family) out.new }
{
    match family {
        None => {}
        Some(Family::McMillan) => append_bytes(out, b"m"),
        Some(Family::Pudlak) => append_bytes(out, b"p"),
        Some(Family::Inverse) => append_bytes(out, b"i"),
    }
}

/// The name of an output.
fn append_name(out: &mut Vec<u8>, name: OutName)
    requires { HasRoom out.old (length (name_text name)) }
    ensures { IsAppended out.old (name_text name) out.new }
{
    append_family(out, name.family);
    append_number(out, u64::from(name.cut));
}

/// The line that names an input.
fn append_input_symbol(out: &mut Vec<u8>, place: u64, input: u32)
    requires { HasRoom out.old (length (input_symbol place input)) }
    ensures { IsAppended out.old (input_symbol place input) out.new }
{
    append_bytes(out, b"i");
    append_number(out, place);
    append_bytes(out, b" ");
    append_literal(out, u64::from(input));
}

/// The line that names an output.
fn append_output_symbol(out: &mut Vec<u8>, place: u64, output: (OutName, u64))
    requires { HasRoom out.old (length (output_symbol place output)) }
    ensures { IsAppended out.old (output_symbol place output) out.new }
{
    append_bytes(out, b"o");
    append_number(out, place);
    append_bytes(out, b" ");
    append_name(out, output.0);
    append_bytes(out, b"\n");
}

/// The lines of the inputs, whose variables are numbered from 1 on.
fn append_inputs(out: &mut Vec<u8>, inputs: &[u32])
    requires { HasRoom out.old (length (numbered_lines input_line 1 inputs.now)) }
    ensures { IsAppended out.old (numbered_lines input_line 1 inputs.now) out.new }
{
    for place in 0..inputs.len() {
        append_literal(out, 2 * (1 + place as u64));
    }
}

/// The lines of the outputs.
pub(crate) fn append_outputs(out: &mut Vec<u8>, outputs: &[(OutName, u64)])
    requires { HasRoom out.old (length (numbered_lines output_line 0 outputs.now)) }
    ensures { IsAppended out.old (numbered_lines output_line 0 outputs.now) out.new }
{
    for place in 0..outputs.len() {
        append_literal(out, outputs[place].1);
    }
}

/// The lines of the gates, whose variables are numbered from `first` on.
fn append_gates(out: &mut Vec<u8>, first: u64, gates: &[(u64, u64)])
    requires small { first + length gates.now < 2 ^ 63 }
    requires room { HasRoom out.old (length (numbered_lines gate_line first gates.now)) }
    ensures { IsAppended out.old (numbered_lines gate_line first gates.now) out.new }
{
    for place in 0..gates.len() {
        append_gate(out, first + place as u64, gates[place]);
    }
}

/// The lines that name the inputs.
pub(crate) fn append_input_symbols(out: &mut Vec<u8>, inputs: &[u32])
    requires { HasRoom out.old (length (numbered_lines input_symbol 0 inputs.now)) }
    ensures { IsAppended out.old (numbered_lines input_symbol 0 inputs.now) out.new }
{
    for place in 0..inputs.len() {
        append_input_symbol(out, place as u64, inputs[place]);
    }
}

/// The lines that name the outputs.
pub(crate) fn append_output_symbols(out: &mut Vec<u8>, outputs: &[(OutName, u64)])
    requires { HasRoom out.old (length (numbered_lines output_symbol 0 outputs.now)) }
    ensures { IsAppended out.old (numbered_lines output_symbol 0 outputs.now) out.new }
{
    for place in 0..outputs.len() {
        append_output_symbol(out, place as u64, outputs[place]);
    }
}

/// The header: the word of the form, the greatest variable, and the numbers of inputs, latches, outputs and gates.
pub(crate) fn append_header(out: &mut Vec<u8>, word: &[u8], inputs: u64, outputs: u64, gates: u64)
    requires small { inputs + gates < 2 ^ 63 }
    requires room { HasRoom out.old (length (header word.now inputs outputs gates)) }
    ensures { IsAppended out.old (header word.now inputs outputs gates) out.new }
{
    append_bytes(out, word);
    append_number(out, inputs + gates);
    append_bytes(out, b" ");
    append_number(out, inputs);
    append_bytes(out, b" 0 ");
    append_number(out, outputs);
    append_bytes(out, b" ");
    append_literal(out, gates);
}

/// The text of the layout with these inputs, gates and outputs.
pub(crate) fn append_text(
    out: &mut Vec<u8>,
    inputs: &[u32],
    gates: &[(u64, u64)],
    outputs: &[(OutName, u64)],
)
    requires small { 1 + length inputs.now + length gates.now < 2 ^ 63 }
    requires room { HasRoom out.old (length (aag_text (record { inputs = inputs.now; gates = gates.now; outputs = outputs.now }))) }
    ensures { IsAppended out.old (aag_text (record { inputs = inputs.now; gates = gates.now; outputs = outputs.now })) out.new }
{
    append_header(
        out,
        b"aag ",
        inputs.len() as u64,
        outputs.len() as u64,
        gates.len() as u64,
    );
    append_inputs(out, inputs);
    append_outputs(out, outputs);
    append_gates(out, 1 + inputs.len() as u64, gates);
    append_input_symbols(out, inputs);
    append_output_symbols(out, outputs);
}
