//! The literals of a satisfiable reply, from the values of dense variables.

ghost use Rattle.std.specs.Prelude.{◌≡◌, ℕ, ◌<◌, ◌||◌, false, length, map, slice_index_or, is_some, IfOk, vec_len};
ghost use Rattle.craig_label.specs.Sides.{range_of};
ghost use Rattle.craig_spec.specs.Occurs.{occurs, occurs_in_clause};
ghost use Rattle.craig_search.specs.Verdict.{units};
ghost use Rattle.craig_top.specs.Naming.{model_below};
ghost use Rattle.craig_top.specs.Values.{AreNamedFlags, IsOver};

use craig_base::{Lit, Names, Part, Values, Var};
use craig_label::Sides;
use std::alloc::{AllocError, Global};

/// Which of the dense variables 0 to `count - 1` were noted in a part, or occur in an assumption. So the accepted clauses,
/// whose variables are noted, aren't looked at again.
pub fn named_variables(
    alloc: Global,
    sides: &Sides,
    assumptions: &[(Part, Lit)],
    count: u32,
) -> Result<Vec<bool>, AllocError>
    requires { IsOver count (map (λ a. a.1) assumptions.now) }
    ensures len { IfOk result (λ named. vec_len named ≡ count) }
    ensures named { IfOk result (λ named. AreNamedFlags sides.now assumptions.now count named.items) }
{
    let mut named = noted_variables(alloc, sides, count)?;
    note_assumed(&mut named, assumptions);
    Ok(named)
}

/// Which of the dense variables 0 to `count - 1` were noted.
fn noted_variables(alloc: Global, sides: &Sides, count: u32) -> Result<Vec<bool>, AllocError>
    ensures len { IfOk result (λ noted. vec_len noted ≡ count) }
    ensures noted { IfOk result (λ noted. (x : ℕ) → x < count → slice_index_or noted.items x false ≡ is_some (range_of sides.now x)) }
{
    let mut noted = Vec::new(alloc);
    for place in 0..count {
        noted.push(sides.range(Var(place)).is_some())?;
    }
    Ok(noted)
}

/// Notes the variables of assumptions.
fn note_assumed(named: &mut [bool], assumptions: &[(Part, Lit)])
    requires { IsOver (length named.old) (map (λ a. a.1) assumptions.now) }
    ensures { (x : ℕ) → slice_index_or named.new x false ≡ (slice_index_or named.old x false || occurs x (units assumptions.now)) }
{
    for assumption in assumptions {
        named[assumption.1.var().0 as usize] = true;
    }
}

/// The literals over script variables that say the values of the named variables, in the order of the names.
pub fn model_literals(
    alloc: Global,
    names: &Names,
    named: &[bool],
    values: &Values,
) -> Result<Vec<Lit>, AllocError>
    requires named { length named.now ≡ length names.now }
    requires values { length values.now ≡ length names.now }
    ensures { IfOk result (λ literals. literals.items ≡ model_below names.now named.now values.now (length names.now)) }
{
    let mut literals = Vec::new(alloc);
    for place in 0..names.len() {
        let var = Var(place);
        if named[place as usize] {
            let name = Var(names.name(var));
            literals.push(Lit::new(name, !values.get(var)))?;
        }
    }
    Ok(literals)
}
