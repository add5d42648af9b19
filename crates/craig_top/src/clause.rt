//! A clause of the script over dense variables.

ghost use Rattle.std.specs.Prelude.{◌≡◌, ◌<◌, ◌≤◌, length, map, IsTrue, IfOk};
ghost use Rattle.std.specs.List.{list_all};
ghost use Rattle.std.specs.Int.RustNames.{unsigned_abs};
ghost use Rattle.craig_script.specs.Reading.{is_within, variable_limit};
ghost use Rattle.craig_top.specs.GivenState.{script_literal};
ghost use Rattle.craig_top.specs.Growth.{NamesGrow};
ghost use Rattle.craig_top.specs.Naming.{named_clause, named_literal};
ghost use Rattle.craig_top.specs.Values.{IsOver};

use craig_base::{Lit, Lits, Names};
use std::alloc::{AllocError, Global};

/// The clause as it was written, tautology or not, over the dense variables of the names. Variables that
/// have no name yet are added to them, also those before an error.
pub fn dense_clause(alloc: Global, names: &mut Names, literals: &[i64]) -> Result<Lits, AllocError>
    requires { IsTrue (list_all (is_within variable_limit) (map unsigned_abs literals.now)) }
    ensures grows { NamesGrow names.old names.new }
    ensures clause { IfOk result (λ clause. named_clause names.new clause ≡ map script_literal literals.now) }
    ensures over { IfOk result (λ clause. IsOver (length names.new) clause) }
{
    let mut clause = Lits::new(alloc);
    for literal in literals {
        clause.push(dense_literal(names, *literal)?)?;
    }
    Ok(clause)
}

/// The literal over the dense variables of the names. A variable that has no name yet is added to them.
pub fn dense_literal(names: &mut Names, literal: i64) -> Result<Lit, AllocError>
    requires low { 1 ≤ unsigned_abs literal }
    requires high { unsigned_abs literal ≤ variable_limit }
    ensures grows { NamesGrow names.old names.new }
    ensures literal { IfOk result (λ l. named_literal names.new l ≡ script_literal literal) }
    ensures over { IfOk result (λ l. l.var < length names.new) }
{
    let var = names.dense(literal.unsigned_abs() as u32)?;
    Ok(Lit::new(var, literal < 0))
}
