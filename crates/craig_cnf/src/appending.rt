//! The pieces of a text of clauses, appended to a vector.
//!
//! After want of memory a piece may be there in part, behind what was there before.
ghost use Rattle.std.specs.Prelude.{◌≡◌, ◌++◌, codes, decimal, OnOk};
ghost use Rattle.craig_spec.specs.DimacsText.{clause_line, header_bytes, literal_text};
ghost use Rattle.craig_spec.specs.Appended.{AppendsOnly};

use crate::text_literal::TextLiteral;
use itoa::Buffer;
use std::alloc::AllocError;

/// A number in decimal digits.
pub(crate) fn append_number(out: &mut Vec<u8>, number: u64) -> Result<(), AllocError>
    ensures text { OnOk result (out.new.items ≡ out.old.items ++ decimal number) }
    ensures appends { AppendsOnly out.old.items out.new.items }
{
    let mut buffer = Buffer::new();
    out.extend_from_slice(buffer.format(number).as_bytes())
}

/// A literal, with a minus sign where it is negated.
pub(crate) fn append_literal(out: &mut Vec<u8>, literal: TextLiteral) -> Result<(), AllocError>
    ensures text { OnOk result (out.new.items ≡ out.old.items ++ literal_text literal) }
    ensures appends { AppendsOnly out.old.items out.new.items }
{
    if literal.negated() {
        out.extend_from_slice(b"-")?;
    }
    append_number(out, literal.variable())
}

/// A literal of a clause, and the space behind it.
pub(crate) fn append_spaced(out: &mut Vec<u8>, literal: TextLiteral) -> Result<(), AllocError>
    ensures text { OnOk result (out.new.items ≡ out.old.items ++ (literal_text literal ++ codes " ")) }
    ensures appends { AppendsOnly out.old.items out.new.items }
{
    append_literal(out, literal)?;
    out.extend_from_slice(b" ")
}

/// A clause on a line, with the 0 that ends it.
pub(crate) fn append_clause(out: &mut Vec<u8>, literals: &[TextLiteral]) -> Result<(), AllocError>
    ensures text { OnOk result (out.new.items ≡ out.old.items ++ clause_line literals.now) }
    ensures appends { AppendsOnly out.old.items out.new.items }
{
    for literal in literals {
        append_spaced(out, *literal)?;
    }
    out.extend_from_slice(b"0\n")
}

/// The header: the greatest variable, and the number of clauses.
pub(crate) fn append_header(
    out: &mut Vec<u8>,
    greatest: u64,
    clauses: u64,
) -> Result<(), AllocError>
    ensures text { OnOk result (out.new.items ≡ out.old.items ++ (header_bytes greatest clauses ++ codes "\n")) }
    ensures appends { AppendsOnly out.old.items out.new.items }
{
    out.extend_from_slice(b"p cnf ")?;
    append_number(out, greatest)?;
    out.extend_from_slice(b" ")?;
    append_number(out, clauses)?;
    out.extend_from_slice(b"\n")
}
