//! A circuit as a text of clauses, with a fresh variable for each gate.
//!
//! The clauses are those of Tseitin, "On the complexity of derivation in propositional calculus", 1968.
ghost use Rattle.std.specs.Prelude.{◌≡◌, ◌++◌, ◌+◌, ◌*◌, ◌<◌, ◌≤◌, ◌^◌, ◌==◌, All, Some, codes, length, map, max, OnErr, OnOk, if◌then◌else◌};
ghost use Rattle.std.specs.List.{flat_map};
ghost use Rattle.craig_spec.specs.Circuit.{IsCircuit, IsStrict};
ghost use Rattle.craig_spec.specs.CircuitCnf.{greatest_of_roots, greatest_said, read_cnf, variable_of_root};
ghost use Rattle.craig_spec.specs.CircuitCnfText.{gate_clauses, gates_clauses, root_line, root_text};
ghost use Rattle.craig_spec.specs.DimacsText.{clause_line, header_bytes};
ghost use Rattle.craig_aiger.specs.Layouts.{circuit_of};
ghost use Rattle.craig_aiger.specs.OutNames.{family_text, name_text};
ghost use Rattle.craig_spec.specs.Appended.{AppendsOnly};
ghost use Rattle.craig_cnf.specs.LayoutClauses.{layout_clauses, layout_text, named_root, text_literal, text_operands, text_root, text_variable};

use crate::appending::{append_clause, append_header, append_literal, append_number};
use crate::text_literal::TextLiteral;
use craig_aiger::{Family, Layout, OutName};
use std::alloc::AllocError;

/// The variable of the text for a variable of the layout: the script variable of an input, or the fresh one of a gate.
fn text_variable(inputs: &[u32], top: u32, variable: u64) -> u64
    requires some { 1 ≤ variable }
    requires small { variable < 2 ^ 62 }
    ensures { result ≡ text_variable top inputs.now variable }
{
    let count = inputs.len() as u64;
    if variable <= count {
        u64::from(inputs[(variable - 1) as usize])
    } else {
        u64::from(top) + (variable - count)
    }
}

/// The literal of the text for a literal of the layout, which isn't the constant.
fn text_literal(inputs: &[u32], top: u32, literal: u64) -> TextLiteral
    requires some { 2 ≤ literal }
    requires small { literal < 2 ^ 62 }
    ensures { result ≡ text_literal top inputs.now literal }
{
    TextLiteral::new(text_variable(inputs, top, literal / 2), literal % 2 == 1)
}

/// A root: T or F where it is the constant, or its literal.
fn append_root(out: &mut Vec<u8>, inputs: &[u32], top: u32, literal: u64) -> Result<(), AllocError>
    requires { literal < 2 ^ 62 }
    ensures text { OnOk result (out.new.items ≡ out.old.items ++ root_text (text_root top inputs.now literal)) }
    ensures appends { AppendsOnly out.old.items out.new.items }
{
    match literal {
        0 => out.extend_from_slice(b"F"),
        1 => out.extend_from_slice(b"T"),
        _ => append_literal(out, text_literal(inputs, top, literal)),
    }
}

/// The letter of a family.
fn append_family(out: &mut Vec<u8>, family: Option<Family>) -> Result<(), AllocError>
    ensures text { OnOk result (out.new.items ≡ out.old.items ++ family_text family) }
    ensures appends { AppendsOnly out.old.items out.new.items }
{
    match family {
        None => Ok(()),
        Some(Family::McMillan) => out.extend_from_slice(b"m"),
        Some(Family::Pudlak) => out.extend_from_slice(b"p"),
        Some(Family::Inverse) => out.extend_from_slice(b"i"),
    }
}

/// The name of an output.
fn append_name(out: &mut Vec<u8>, name: OutName) -> Result<(), AllocError>
    ensures text { OnOk result (out.new.items ≡ out.old.items ++ name_text name) }
    ensures appends { AppendsOnly out.old.items out.new.items }
{
    append_family(out, name.family)?;
    append_number(out, u64::from(name.cut))
}

/// The comment line that names the root of an output.
fn append_output(
    out: &mut Vec<u8>,
    inputs: &[u32],
    top: u32,
    output: (OutName, u64),
) -> Result<(), AllocError>
    requires { output.1 < 2 ^ 62 }
    ensures text { OnOk result (out.new.items ≡ out.old.items ++ root_line (named_root top inputs.now output)) }
    ensures appends { AppendsOnly out.old.items out.new.items }
{
    out.extend_from_slice(b"c o ")?;
    append_name(out, output.0)?;
    out.extend_from_slice(b" ")?;
    append_root(out, inputs, top, output.1)?;
    out.extend_from_slice(b"\n")
}

/// The comment lines that name the roots of the outputs.
fn append_outputs(out: &mut Vec<u8>, layout: &Layout, top: u32) -> Result<(), AllocError>
    ensures text { OnOk result (out.new.items ≡ out.old.items ++ flat_map root_line (layout_clauses top layout.now).roots) }
    ensures appends { AppendsOnly out.old.items out.new.items }
{
    let inputs = layout.inputs();
    for place in 0..layout.outputs() {
        append_output(out, inputs, top, layout.output(place))?;
    }
    Ok(())
}

/// The variable of a root, and 0 where it is the constant.
fn root_variable(inputs: &[u32], top: u32, literal: u64) -> u64
    requires { literal < 2 ^ 62 }
    ensures { result ≡ variable_of_root (text_root top inputs.now literal) }
{
    if literal < 2 {
        0
    } else {
        text_variable(inputs, top, literal / 2)
    }
}

/// The greatest variable of the roots, and 0 where they have none.
fn greatest_root(layout: &Layout, top: u32) -> u64
    ensures { result ≡ greatest_of_roots (layout_clauses top layout.now).roots }
{
    let inputs = layout.inputs();
    let mut greatest = 0;
    for place in 0..layout.outputs() {
        greatest = root_variable(inputs, top, layout.output(place).1).max(greatest);
    }
    greatest
}

/// The greatest variable that occurs in a clause or as a root, and 0 where none does.
fn greatest_variable(layout: &Layout, top: u32) -> u64
    requires { All (λ x. x ≤ top) layout.now.inputs }
    ensures { result ≡ greatest_said (layout_clauses top layout.now) }
{
    let gates = layout.gates().len() as u64;
    // Each gate has a variable above those of its operands, so that the last one is the greatest.
    let last = if gates == 0 {
        0
    } else {
        u64::from(top) + gates
    };
    greatest_root(layout, top).max(last)
}

/// The three clauses of a gate: it implies each operand, and both together imply it.
fn append_gate(
    out: &mut Vec<u8>,
    gate: u64,
    left: TextLiteral,
    right: TextLiteral,
) -> Result<(), AllocError>
    ensures text { OnOk result (out.new.items ≡ out.old.items ++ flat_map clause_line (gate_clauses gate (record { left = left; right = right }))) }
    ensures appends { AppendsOnly out.old.items out.new.items }
{
    let gate = TextLiteral::new(gate, false);
    append_clause(out, &[gate.not(), left])?;
    append_clause(out, &[gate.not(), right])?;
    append_clause(out, &[gate, left.not(), right.not()])
}

/// The clauses of the gates, whose variables are numbered from the one after `top` on.
fn append_gates(out: &mut Vec<u8>, layout: &Layout, top: u32) -> Result<(), AllocError>
    ensures text { OnOk result (out.new.items ≡ out.old.items ++ flat_map clause_line (layout_clauses top layout.now).clauses) }
    ensures appends { AppendsOnly out.old.items out.new.items }
{
    let inputs = layout.inputs();
    let gates = layout.gates();
    for place in 0..gates.len() {
        let gate = u64::from(top) + 1 + place as u64;
        let left = text_literal(inputs, top, gates[place].0);
        let right = text_literal(inputs, top, gates[place].1);
        append_gate(out, gate, left, right)?;
    }
    Ok(())
}

/// The comment lines, the header and the clauses.
fn append_text(out: &mut Vec<u8>, layout: &Layout, top: u32) -> Result<(), AllocError>
    requires { All (λ x. x ≤ top) layout.now.inputs }
    ensures text { OnOk result (out.new.items ≡ out.old.items ++ layout_text top layout.now) }
    ensures appends { AppendsOnly out.old.items out.new.items }
{
    append_outputs(out, layout, top)?;
    let clauses = 3 * layout.gates().len() as u64;
    append_header(out, greatest_variable(layout, top), clauses)?;
    append_gates(out, layout, top)
}

/// Appends the text of clauses that defines the gates of the layout, over its script variables, each of which is at
/// most `top`, and a fresh variable for each gate, from `top + 1` on. A line `c o`, an output's name and its root
/// stands in front for each output, in order, then the header, and then three clauses for each gate, in order. A root
/// is `T` or `F` where the output is the constant, or else a literal. Fresh variables may need more than 32 bits. The
/// text is read as the circuit of the layout, and its clauses give each fresh variable the value of its gate under
/// each assignment of the script variables (`laws::one_extension`). It takes time and memory for the text alone.
/// After an error, for which only want of memory is a cause, `out` has the same bytes as before.
pub fn write_tseitin(layout: &Layout, top: u32, out: &mut Vec<u8>) -> Result<(), AllocError>
    requires { All (λ x. x ≤ top) layout.now.inputs }
    ensures text { OnOk result (out.new.items ≡ out.old.items ++ layout_text top layout.now) }
    ensures unchanged { OnErr result (out.new.items ≡ out.old.items) }
    ensures reads_back { read_cnf top (layout_text top layout.now) ≡ Some (circuit_of layout.now) }
    ensures is_circuit { IsCircuit (circuit_of layout.now) }
    ensures strict { IsStrict (circuit_of layout.now) }
{
    // What holds of each layout is known from here on.
    let _ = layout.outputs();
    let before = out.len();
    let written = append_text(out, layout, top);
    if written.is_err() {
        out.truncate(before);
    }
    written
}
