//! A clause over the variables of a script, from one over dense variables.
ghost use Rattle.std.specs.Prelude.{◌≡◌, ◌<◌, ◌≤◌, All, length, IfOk};
ghost use Rattle.craig_base.specs.Clauses.{IsNormal};
ghost use Rattle.craig_base.specs.Names.{AreNames};
ghost use Rattle.craig_cnf.specs.ScriptClauses.{by_variable, named_clause, named_literal};

use crate::text_literal::TextLiteral;
use craig_base::{Lit, Lits, Names, Normal, Var, normal};
use std::alloc::{AllocError, Global};

/// The literal over script variables of a literal over dense ones, which has a name.
pub(crate) fn named(literal: Lit, names: &Names) -> Lit
    requires { literal.var < length names.now }
    ensures { result ≡ named_literal names.now literal }
{
    Lit::new(Var(names.name(literal.var())), literal.negated())
}

/// The literals over script variables, in the order of the clause.
fn named_literals(alloc: Global, literals: &[Lit], names: &Names) -> Result<Vec<Lit>, AllocError>
    requires { All (λ l. l.var < length names.now) literals.now }
    ensures { IfOk result (λ v. v.items ≡ named_clause names.now literals.now) }
{
    let mut over_script = Vec::new(alloc);
    for literal in literals {
        over_script.push(named(*literal, names))?;
    }
    Ok(over_script)
}

/// The clause over script variables, by rising variable. The clause is normal, so it stays one.
pub(crate) fn script_clause(
    alloc: Global,
    literals: &[Lit],
    names: &Names,
) -> Result<Lits, AllocError>
    requires normal { IsNormal literals.now }
    requires named { All (λ l. l.var < length names.now) literals.now }
    ensures { IfOk result (λ c. c ≡ by_variable (named_clause names.now literals.now)) }
{
    // What holds of each table of names is known from here on.
    let _ = names.len();
    let over_script = named_literals(alloc, literals, names)?;
    match normal(alloc, over_script.as_slice())? {
        Normal::Clause(clause) => Ok(clause),
        Normal::Tautology => unreachable!(),
    }
}
