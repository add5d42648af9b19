//! The texts of replies, appended to the bytes that are put for a line.

ghost use Rattle.std.specs.Prelude.{◌≡◌, ◌≤◌, ◌+◌, ◌++◌, All, codes, decimal, vec_len, vec_capacity, OnOk};
ghost use Rattle.craig_aiger.specs.AsciiText.{aag_text};
ghost use Rattle.craig_aiger.specs.BinaryText.{aig_text};
ghost use Rattle.craig_cnf.specs.LayoutClauses.{layout_text};
ghost use Rattle.craig_spec.specs.Appended.{AppendsOnly};
ghost use Rattle.craig_top.specs.Blocks.{lined_bytes};
ghost use Rattle.craig_top.specs.Formats.{ReadsBack, ascii_format, binary_format, clause_format, format_of};
ghost use Rattle.craig_top.specs.ReplyTexts.{literal_text, literals_text, failed_text, lemma_text, unknown_line, satisfiable_text, ok_text, refusal_text};

use craig_aiger::{Form, Layout};
use craig_base::Lit;
use craig_cnf::write_tseitin;
use craig_script::{FormatWord, Refusal};
use itoa::Buffer;
use std::alloc::{AllocError, Global};

/// How many bytes the reply `ok` has, with its newline.
pub const OK_SIZE: usize = 3;

/// The reply to a line that is refused: the number of the refusal.
pub fn append_refusal(out: &mut Vec<u8>, refusal: Refusal) -> Result<(), AllocError>
    ensures text { OnOk result (out.new.items ≡ out.old.items ++ refusal_text refusal) }
    ensures appends { AppendsOnly out.old.items out.new.items }
{
    out.extend_from_slice(b"e ")?;
    append_number(out, u64::from(refusal.number()))?;
    out.extend_from_slice(b"\n")
}

/// The reply with a model, whose literals are over script variables.
pub fn append_model(out: &mut Vec<u8>, literals: &[Lit]) -> Result<(), AllocError>
    ensures text { OnOk result (out.new.items ≡ out.old.items ++ satisfiable_text literals.now) }
    ensures appends { AppendsOnly out.old.items out.new.items }
{
    out.extend_from_slice(b"s SATISFIABLE\nv ")?;
    append_literals(out, literals)?;
    Ok(())
}

/// The beginning of the reply where there is no model: the literals of the failed assumptions, over script variables.
/// The blocks come behind it.
pub fn append_unsatisfiable(out: &mut Vec<u8>, failed: &[Lit]) -> Result<(), AllocError>
    ensures text { OnOk result (out.new.items ≡ out.old.items ++ failed_text failed.now) }
    ensures appends { AppendsOnly out.old.items out.new.items }
{
    out.extend_from_slice(b"s UNSATISFIABLE\nf ")?;
    append_literals(out, failed)?;
    Ok(())
}

/// The beginning of the reply where the limit was met: the number of lemmas. Their lines come behind it.
pub fn append_unknown(out: &mut Vec<u8>, count: u64) -> Result<(), AllocError>
    ensures text { OnOk result (out.new.items ≡ out.old.items ++ unknown_line count) }
    ensures appends { AppendsOnly out.old.items out.new.items }
{
    out.extend_from_slice(b"s UNKNOWN ")?;
    append_number(out, count)?;
    out.extend_from_slice(b"\n")
}

/// The line of a lemma, whose literals are over script variables.
pub fn append_lemma(out: &mut Vec<u8>, literals: &[Lit]) -> Result<(), AllocError>
    ensures text { OnOk result (out.new.items ≡ out.old.items ++ lemma_text literals.now) }
    ensures appends { AppendsOnly out.old.items out.new.items }
{
    out.extend_from_slice(b"l ")?;
    append_literals(out, literals)
}

/// The block of the interpolants: the text of their circuit in the format, behind the letter and the number of its bytes.
/// A text of clauses has its fresh variables above `top`, which is at least each script variable of the circuit.
pub fn append_interpolants(
    alloc: Global,
    format: FormatWord,
    top: u32,
    circuit: &Layout,
    out: &mut Vec<u8>,
) -> Result<(), AllocError>
    requires { All (λ x. x ≤ top) circuit.now.inputs }
    ensures text { OnOk result (out.new.items ≡ out.old.items ++ lined_bytes (codes "a") ((format_of format top).write circuit.now)) }
    ensures reads_back { OnOk result (ReadsBack (format_of format top) circuit.now) }
    ensures appends { AppendsOnly out.old.items out.new.items }
{
    match format {
        FormatWord::Aag => append_aag(circuit, out),
        FormatWord::Aig => append_aig(circuit, out),
        FormatWord::Cnf => append_cnf(alloc, top, circuit, out),
    }
}

/// The block in AIGER's ASCII form.
fn append_aag(circuit: &Layout, out: &mut Vec<u8>) -> Result<(), AllocError>
    ensures text { OnOk result (out.new.items ≡ out.old.items ++ lined_bytes (codes "a") (aag_text circuit.now)) }
    ensures reads_back { OnOk result (ReadsBack ascii_format circuit.now) }
    ensures appends { AppendsOnly out.old.items out.new.items }
{
    append_size(out, circuit.size_of(Form::Aag))?;
    circuit.write_aag(out)
}

/// The block in AIGER's binary form.
fn append_aig(circuit: &Layout, out: &mut Vec<u8>) -> Result<(), AllocError>
    ensures text { OnOk result (out.new.items ≡ out.old.items ++ lined_bytes (codes "a") (aig_text circuit.now)) }
    ensures reads_back { OnOk result (ReadsBack binary_format circuit.now) }
    ensures appends { AppendsOnly out.old.items out.new.items }
{
    append_size(out, circuit.size_of(Form::Aig))?;
    circuit.write_aig(out)
}

/// The block as clauses. Its text is written first, since the number of its bytes stands in front.
fn append_cnf(
    alloc: Global,
    top: u32,
    circuit: &Layout,
    out: &mut Vec<u8>,
) -> Result<(), AllocError>
    requires { All (λ x. x ≤ top) circuit.now.inputs }
    ensures text { OnOk result (out.new.items ≡ out.old.items ++ lined_bytes (codes "a") (layout_text top circuit.now)) }
    ensures reads_back { OnOk result (ReadsBack (clause_format top) circuit.now) }
    ensures appends { AppendsOnly out.old.items out.new.items }
{
    let mut text = Vec::new(alloc);
    write_tseitin(circuit, top, &mut text)?;
    append_size(out, text.len() as u64)?;
    out.extend_from_slice(&text)
}

/// The line with the number of bytes that come behind it.
fn append_size(out: &mut Vec<u8>, size: u64) -> Result<(), AllocError>
    ensures text { OnOk result (out.new.items ≡ out.old.items ++ (codes "a " ++ decimal size ++ codes "\n")) }
    ensures appends { AppendsOnly out.old.items out.new.items }
{
    out.extend_from_slice(b"a ")?;
    append_number(out, size)?;
    out.extend_from_slice(b"\n")
}

/// The reply to a command that is carried out and has nothing else to say. There is room for its bytes.
pub fn append_ok(out: &mut Vec<u8>)
    requires { vec_len out.old + 3 ≤ vec_capacity out.old }
    ensures { out.new.items ≡ out.old.items ++ ok_text }
{
    out.push_reserved(b'o');
    out.push_reserved(b'k');
    out.push_reserved(b'\n');
}

/// Literals over script variables, each with a space behind it, and the 0 that ends their line.
fn append_literals(out: &mut Vec<u8>, literals: &[Lit]) -> Result<(), AllocError>
    ensures text { OnOk result (out.new.items ≡ out.old.items ++ literals_text literals.now) }
    ensures appends { AppendsOnly out.old.items out.new.items }
{
    for literal in literals {
        append_literal(out, *literal)?;
    }
    out.extend_from_slice(b"0\n")
}

/// A literal over script variables and a space.
fn append_literal(out: &mut Vec<u8>, literal: Lit) -> Result<(), AllocError>
    ensures text { OnOk result (out.new.items ≡ out.old.items ++ (literal_text literal ++ codes " ")) }
    ensures appends { AppendsOnly out.old.items out.new.items }
{
    if literal.negated() {
        out.extend_from_slice(b"-")?;
    }
    append_number(out, u64::from(literal.var().0))?;
    out.extend_from_slice(b" ")
}

/// A number in decimal digits.
fn append_number(out: &mut Vec<u8>, number: u64) -> Result<(), AllocError>
    ensures text { OnOk result (out.new.items ≡ out.old.items ++ decimal number) }
    ensures appends { AppendsOnly out.old.items out.new.items }
{
    let mut buffer = Buffer::new();
    out.extend_from_slice(buffer.format(number).as_bytes())
}
