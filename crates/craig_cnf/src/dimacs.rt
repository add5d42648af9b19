//! Clauses as a DIMACS text.
//!
//! After the format of the second DIMACS implementation challenge, "Satisfiability: Suggested Format", 1993.
ghost use Rattle.std.specs.Prelude.{◌≡◌, ◌++◌, ◌<◌, All, codes, length, map, OnErr, OnOk};
ghost use Rattle.std.specs.List.{flat_map};
ghost use Rattle.craig_spec.specs.DimacsText.{clause_line, dimacs_text, greatest_of_clauses, header_bytes};
ghost use Rattle.craig_base.specs.Clauses.{IsNormal};
ghost use Rattle.craig_spec.specs.Appended.{AppendsOnly};
ghost use Rattle.craig_cnf.specs.ScriptClauses.{AreNamed, ReadsAsClauses, script_clauses};

use crate::appending::{append_header, append_spaced};
use crate::greatest::greatest_name;
use crate::script_clause::script_clause;
use crate::text_literal::TextLiteral;
use craig_base::{Lit, Lits, Names};
use std::alloc::{AllocError, Global};

/// A clause over script variables on a line.
fn append_literals(out: &mut Vec<u8>, literals: &[Lit]) -> Result<(), AllocError>
    ensures text { OnOk result (out.new.items ≡ out.old.items ++ clause_line literals.now) }
    ensures appends { AppendsOnly out.old.items out.new.items }
{
    for literal in literals {
        append_spaced(out, TextLiteral::of(*literal))?;
    }
    out.extend_from_slice(b"0\n")
}

/// The lines of the clauses, each under script variables.
fn append_clauses(
    alloc: Global,
    clauses: &[Lits],
    names: &Names,
    out: &mut Vec<u8>,
) -> Result<(), AllocError>
    requires normal { All IsNormal clauses.now }
    requires named { AreNamed names.now clauses.now }
    ensures text { OnOk result (out.new.items ≡ out.old.items ++ flat_map clause_line (script_clauses names.now clauses.now)) }
    ensures appends { AppendsOnly out.old.items out.new.items }
{
    for clause in clauses {
        let over_script = script_clause(alloc, clause.as_slice(), names)?;
        append_literals(out, over_script.as_slice())?;
    }
    Ok(())
}

/// The header and the lines of the clauses.
fn append_text(
    alloc: Global,
    clauses: &[Lits],
    names: &Names,
    out: &mut Vec<u8>,
) -> Result<(), AllocError>
    requires normal { All IsNormal clauses.now }
    requires named { AreNamed names.now clauses.now }
    ensures text { OnOk result (out.new.items ≡ out.old.items ++ dimacs_text (script_clauses names.now clauses.now)) }
    ensures appends { AppendsOnly out.old.items out.new.items }
{
    let greatest = greatest_name(clauses, names);
    append_header(out, u64::from(greatest), clauses.len() as u64)?;
    append_clauses(alloc, clauses, names, out)
}

/// Appends the DIMACS text of the clauses, which are over dense variables, under the script variables that name
/// these: the header, whose first number is the greatest script variable that occurs, or 0, and then a line for
/// each clause, in order, with its literals by rising script variable. The clauses are normal, and each of their
/// variables has a name. The text is read as these clauses. It takes time O(n log n) for the literals of each
/// clause, and memory for the text and for one clause. After an error, for which only want of memory is a cause,
/// `out` has the same bytes as before.
pub fn write_dimacs(
    alloc: Global,
    clauses: &[Lits],
    names: &Names,
    out: &mut Vec<u8>,
) -> Result<(), AllocError>
    requires normal { All IsNormal clauses.now }
    requires named { AreNamed names.now clauses.now }
    ensures text { OnOk result (out.new.items ≡ out.old.items ++ dimacs_text (script_clauses names.now clauses.now)) }
    ensures unchanged { OnErr result (out.new.items ≡ out.old.items) }
    ensures reads_back { ReadsAsClauses names.now clauses.now (dimacs_text (script_clauses names.now clauses.now)) }
{
    // What holds of each table of names is known from here on.
    let _ = names.len();
    let before = out.len();
    let written = append_text(alloc, clauses, names, out);
    if written.is_err() {
        out.truncate(before);
    }
    written
}
