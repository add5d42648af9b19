//! The reply to a `solve` where there is a model.

ghost use Rattle.std.specs.Prelude.{◌≡◌, ◌++◌, length, map, OnOk, List};
ghost use Rattle.std.specs.List.Sorted.{IsPermutation, IsNonDecreasing};
ghost use Rattle.craig_base.specs.Values.{assignment_of_values};
ghost use Rattle.craig_base.specs.declared.script_part.Part.{Part};
ghost use Rattle.craig_search.specs.Verdict.{units};
ghost use Rattle.craig_spec.specs.Literal.{Clause};
ghost use Rattle.craig_spec.specs.Truth.{IsModel};
ghost use Rattle.craig_spec.specs.Appended.{AppendsOnly};
ghost use Rattle.craig_top.specs.Sides.{AreSidesOf, parted};
ghost use Rattle.craig_top.specs.StoredReplies.{AppendsModel};
ghost use Rattle.craig_top.specs.Values.{AreOver, IsOver};

use crate::model::{model_literals, named_variables};
use crate::reply::append_model;
use craig_base::{Lit, Names, Part, Values};
use craig_label::Sides;
use std::alloc::{AllocError, Global};

/// Appends the model that values of the dense variables are: of the assumptions and of clauses whose sides these are, of
/// any that they are a model of.
pub fn append_values(
    alloc: Global,
    names: &Names,
    sides: &Sides,
    assumptions: &[(Part, Lit)],
    values: &Values,
    out: &mut Vec<u8>,
) -> Result<(), AllocError>
    requires assumed { IsOver (length names.now) (map (λ a. a.1) assumptions.now) }
    requires values { length values.now ≡ length names.now }
    ensures model { OnOk result (
        (clauses : List (Part × Clause)) → AreSidesOf (parted clauses) sides.now → AreOver (length names.now) (map (λ c. c.1) clauses)
        → IsModel (assignment_of_values values.now) (map (λ c. c.1) clauses ++ units assumptions.now)
        → AppendsModel names.now clauses assumptions.now out.old.items out.new.items) }
    ensures appends { AppendsOnly out.old.items out.new.items }
{
    craig_base::laws::values_are_an_assignment();
    let named = named_variables(alloc, sides, assumptions, names.len())?;
    let mut literals = model_literals(alloc, names, &named, values)?;
    sort_by_variable(&mut literals);
    append_model(out, &literals)
}

/// Puts the literals in order of their variables.
pub fn sort_by_variable(literals: &mut [Lit])
    ensures permutation { IsPermutation literals.old literals.new }
    ensures sorted { IsNonDecreasing (map (λ l. l.var) literals.new) }
{
    literals.sort_unstable_by_key(|literal| literal.var().0);
}
