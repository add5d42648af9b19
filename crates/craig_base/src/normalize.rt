//! The normal form of a list of literals: sorted and without repeats, or a tautology.
ghost use Rattle.std.specs.Prelude.{◌≢◌, ◌↔◌, ◌+◌, ◌<◌, ℕ, IfOk, length};
ghost use Rattle.std.specs.Bool.{OnTrue, OnFalse};
ghost use Rattle.std.specs.List.{AllAdjacentBelow};
ghost use Rattle.craig_spec.specs.Chain.{SameLiterals};
ghost use Rattle.craig_base.specs.Clauses.{IsTautology, IsAscending, IsNormal, SameVariableAt};
ghost use Rattle.craig_base.specs.NormalForms.{IsTautologyAnswer, OnClause};

use crate::{Lit, Lits, Normal};
use std::alloc::{AllocError, Global};

/// Whether two neighbours are of one variable.
fn has_equal_neighbours(literals: &[Lit]) -> bool
    ensures found { OnTrue result ((k : ℕ) × (k + 1 < length literals.now) × SameVariableAt literals.now k) }
    ensures none { OnFalse result (AllAdjacentBelow (λ l m. l.var ≢ m.var) literals.now (length literals.now)) }
{
    literals
        .windows(2)
        .any(|pair| pair[0].var() == pair[1].var())
}

/// The literals in order, each once.
fn sorted_literals(alloc: Global, lits: &[Lit]) -> Result<Lits, AllocError>
    ensures members { IfOk result (SameLiterals lits.now) }
    ensures ascending { IfOk result IsAscending }
{
    let mut literals = Vec::from_slice(alloc, lits)?;
    literals.sort_unstable();
    literals.dedup();
    Ok(Lits::from_vec(literals))
}

/// The normal form of a list of literals, in time O(n log n). The list may be in any order, with repeats.
/// The only error is want of memory.
pub fn normal(alloc: Global, lits: &[Lit]) -> Result<Normal, AllocError>
    ensures tautology { IfOk result (λ n. IsTautologyAnswer n ↔ IsTautology lits.now) }
    ensures members { IfOk result (OnClause (SameLiterals lits.now)) }
    ensures ascending { IfOk result (OnClause IsAscending) }
    ensures is_normal { IfOk result (OnClause IsNormal) }
{
    let literals = sorted_literals(alloc, lits)?;
    if has_equal_neighbours(literals.as_slice()) {
        return Ok(Normal::Tautology);
    }
    Ok(Normal::Clause(literals))
}
