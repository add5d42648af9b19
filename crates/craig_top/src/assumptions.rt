//! The assumptions of a solve, over dense variables and over those of the script.

ghost use Rattle.std.specs.Prelude.{◌≡◌, ◌<◌, ◌≤◌, length, map, All, IsTrue, IfOk};
ghost use Rattle.std.specs.List.{list_all};
ghost use Rattle.std.specs.Int.RustNames.{unsigned_abs};
ghost use Rattle.craig_script.specs.Reading.{is_within, variable_limit};
ghost use Rattle.craig_search.specs.Verdict.{at_places};
ghost use Rattle.craig_top.specs.Growth.{NamesGrow};
ghost use Rattle.craig_top.specs.Naming.{named_assumptions, named_clause};
ghost use Rattle.craig_top.specs.Reply.{assumptions_of};
ghost use Rattle.craig_top.specs.Values.{IsOver};

use crate::clause::dense_literal;
use craig_base::{Lit, Names, Part, Var};
use craig_search::Places;
use std::alloc::{AllocError, Global};

/// The assumptions that pairs of a part and a literal write, over the dense variables of the names. Variables that have
/// no name yet are added to them, also those before an error.
pub fn dense_assumptions(
    alloc: Global,
    names: &mut Names,
    pairs: &[(u64, i64)],
) -> Result<Vec<(Part, Lit)>, AllocError>
    requires parts { All (λ pair. pair.0 ≤ 65535) pairs.now }
    requires variables { IsTrue (list_all (is_within variable_limit) (map (λ pair. unsigned_abs pair.1) pairs.now)) }
    ensures grows { NamesGrow names.old names.new }
    ensures assumptions { IfOk result (λ assumptions. named_assumptions names.new assumptions.items ≡ assumptions_of pairs.now) }
    ensures over { IfOk result (λ assumptions. IsOver (length names.new) (map (λ a. a.1) assumptions.items)) }
{
    let mut assumptions = Vec::new(alloc);
    for pair in pairs {
        let literal = dense_literal(names, pair.1)?;
        assumptions.push((Part(pair.0 as u16), literal))?;
    }
    Ok(assumptions)
}

/// The assumptions at the places.
pub fn assumptions_at(
    alloc: Global,
    assumptions: &[(Part, Lit)],
    places: &Places,
) -> Result<Vec<(Part, Lit)>, AllocError>
    requires { All (λ place. place < length assumptions.now) places.now }
    ensures { IfOk result (λ chosen. chosen.items ≡ at_places assumptions.now places.now) }
{
    let mut chosen = Vec::new(alloc);
    for place in places.as_slice() {
        chosen.push(assumptions[*place])?;
    }
    Ok(chosen)
}

/// The literals of assumptions over script variables.
pub fn named_literals(
    alloc: Global,
    names: &Names,
    assumptions: &[(Part, Lit)],
) -> Result<Vec<Lit>, AllocError>
    requires { IsOver (length names.now) (map (λ a. a.1) assumptions.now) }
    ensures { IfOk result (λ literals. literals.items ≡ named_clause names.now (map (λ a. a.1) assumptions.now)) }
{
    let mut literals = Vec::new(alloc);
    for assumption in assumptions {
        let literal = assumption.1;
        let name = Var(names.name(literal.var()));
        literals.push(Lit::new(name, literal.negated()))?;
    }
    Ok(literals)
}
