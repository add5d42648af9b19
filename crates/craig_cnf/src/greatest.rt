//! The greatest variable of clauses.
ghost use Rattle.std.specs.Prelude.{◌≡◌, ◌<◌, ◌≤◌, All, length, map};
ghost use Rattle.craig_spec.specs.DimacsText.{greatest_of_clause, greatest_of_clauses};
ghost use Rattle.craig_cnf.specs.ScriptClauses.{AreNamed, named_clause};

use craig_base::{Lit, Lits, Names};

/// The greatest name of a variable of the clause, and 0 where it has none.
fn greatest_name_in(literals: &[Lit], names: &Names) -> u32
    requires { All (λ l. l.var < length names.now) literals.now }
    ensures { result ≡ greatest_of_clause (named_clause names.now literals.now) }
{
    let mut greatest = 0;
    for literal in literals {
        greatest = names.name(literal.var()).max(greatest);
    }
    greatest
}

/// The greatest name of a variable of the clauses, and 0 where they have none.
pub(crate) fn greatest_name(clauses: &[Lits], names: &Names) -> u32
    requires { AreNamed names.now clauses.now }
    ensures { result ≡ greatest_of_clauses (map (named_clause names.now) clauses.now) }
{
    let mut greatest = 0;
    for clause in clauses {
        greatest = greatest_name_in(clause.as_slice(), names).max(greatest);
    }
    greatest
}
