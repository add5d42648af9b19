//! Unit clauses of level 0. A literal that a longer clause forces there gets a unit clause of its own, which is told and
//! held, and is its reason from then on, so that each later chain resolves with it in one step.
//!
//! Pollitt, Fleury and Biere, "Faster LRAT Checking Than Solving with CaDiCaL", SAT 2023.
ghost use Rattle.std.specs.Prelude.{◌≡◌, ◌<◌, ◌≤◌, [], ◌∷◌, true, Some, IfOk, IfSome, OnOk, is_some, length};
ghost use Rattle.craig_spec.specs.Chain.{ChainOk};
ghost use Rattle.craig_proof.specs.Covers.{IsCovering};
ghost use Rattle.craig_proof.specs.Tracer.{chain_of};
ghost use Rattle.craig_watch.specs.declared.value.Value.TheVariants.{True};
ghost use Rattle.craig_watch.specs.Trail.{value_under};
ghost use Rattle.craig_watch.specs.Held.{IsConsistent, held_clause};
ghost use Rattle.craig_search.specs.Reducing.{IsReduced};
ghost use Rattle.craig_search.specs.Units.{DerivesUnits, HasLiteral, IsResolvedAway};

use crate::Workspace;
use crate::holding::hold_derived;
use crate::reductions::Reductions;
use craig_base::{ClauseId, Flags, Lit};
use craig_proof::{Step, Steps, Tracer};
use craig_watch::{Held, Value};
use std::alloc::{AllocError, Global};

/// The flags of a derived unit clause, which is the reason of a literal for ever.
const UNIT: Flags = Flags {
    learnt: true,
    kept: true,
    glue: 1,
};

/// Derives unit clauses of the literals at level 0 that came since the trail was last walked. Where some came, clauses are
/// counted anew, as after a reduction.
pub(crate) fn derive_units<T: Tracer>(
    alloc: Global,
    held: &mut Held,
    tracer: &mut T,
    workspace: &mut Workspace,
    reductions: &mut Reductions,
) -> Result<(), AllocError>
    requires consistent { IsConsistent held.old }
    requires covers { IsCovering (T.told tracer.old) (held_clause held.old.arena) held.old.arena.given }
    ensures derives { OnOk result (DerivesUnits held.old held.new (T.told tracer.old) (T.told tracer.new)) }
    ensures reduced { OnOk result (IsReduced reductions.old reductions.new held.old held.new) }
    ensures consistent { OnOk result (IsConsistent held.new) }
    ensures covers { OnOk result (IsCovering (T.told tracer.new) (held_clause held.new.arena) held.new.arena.given) }
    ensures vars { held.new.vars ≡ held.old.vars }
    ensures tells { is_some (T.told tracer.new) ≡ is_some (T.told tracer.old) }
    ensures kept { T.kept tracer.new ≡ T.kept tracer.old }
{
    let end = held.trail().len();
    if held.level() > 0 || workspace.walked >= end || reductions.left == 0 {
        return Ok(());
    }
    let first = held.arena().given();
    derive_each(alloc, held, tracer, workspace.walked, end)?;
    workspace.walked = end;
    reductions.left -= 1;
    reductions.since = held.arena().given();
    let derived = reductions.since.saturating_sub(first);
    workspace.units = workspace.units.saturating_add(derived);
    Ok(())
}

/// Derives unit clauses of the literals from one place of the trail up to another, at level 0.
fn derive_each<T: Tracer>(
    alloc: Global,
    held: &mut Held,
    tracer: &mut T,
    from: usize,
    end: usize,
) -> Result<(), AllocError>
    requires within { end ≤ length held.old.trail }
    requires level { held.old.level ≡ 0 }
    requires consistent { IsConsistent held.old }
    requires covers { IsCovering (T.told tracer.old) (held_clause held.old.arena) held.old.arena.given }
    ensures derives { OnOk result (DerivesUnits held.old held.new (T.told tracer.old) (T.told tracer.new)) }
    ensures consistent { OnOk result (IsConsistent held.new) }
    ensures covers { OnOk result (IsCovering (T.told tracer.new) (held_clause held.new.arena) held.new.arena.given) }
    ensures vars { held.new.vars ≡ held.old.vars }
    ensures tells { is_some (T.told tracer.new) ≡ is_some (T.told tracer.old) }
    ensures kept { T.kept tracer.new ≡ T.kept tracer.old }
{
    for place in from..end {
        derive_unit(alloc, held, tracer, place)?;
    }
    Ok(())
}

/// Derives the unit clause of the literal at a place of the trail, at level 0, where a longer clause is its reason and
/// the reasons of the other literals of that are unit clauses.
fn derive_unit<T: Tracer>(
    alloc: Global,
    held: &mut Held,
    tracer: &mut T,
    place: usize,
) -> Result<(), AllocError>
    requires within { place < length held.old.trail }
    requires level { held.old.level ≡ 0 }
    requires consistent { IsConsistent held.old }
    requires covers { IsCovering (T.told tracer.old) (held_clause held.old.arena) held.old.arena.given }
    ensures derives { OnOk result (DerivesUnits held.old held.new (T.told tracer.old) (T.told tracer.new)) }
    ensures consistent { OnOk result (IsConsistent held.new) }
    ensures covers { OnOk result (IsCovering (T.told tracer.new) (held_clause held.new.arena) held.new.arena.given) }
    ensures vars { held.new.vars ≡ held.old.vars }
    ensures tells { is_some (T.told tracer.new) ≡ is_some (T.told tracer.old) }
    ensures kept { T.kept tracer.new ≡ T.kept tracer.old }
{
    let lit = true_at(held, place);
    let Some(first) = long_reason(held, lit) else {
        return Ok(());
    };
    let mut rest = Steps::new(alloc);
    if !resolve_others(held, lit, first, &mut rest)? {
        return Ok(());
    }
    hold_unit(held, tracer, lit, first, rest.as_slice())
}

/// Holds the unit clause of a literal that is true at level 0, tells it with its chain, and makes it the reason.
fn hold_unit<T: Tracer>(
    held: &mut Held,
    tracer: &mut T,
    lit: Lit,
    first: ClauseId,
    rest: &[Step],
) -> Result<(), AllocError>
    requires true_literal { value_under held.old.trail lit ≡ True }
    requires level { held.old.level ≡ 0 }
    requires known { lit.var < held.old.vars }
    requires chain { ChainOk (held_clause held.old.arena) (lit ∷ []) first.0 (chain_of rest.now) }
    requires covers { IsCovering (T.told tracer.old) (held_clause held.old.arena) held.old.arena.given }
    ensures derives { OnOk result (DerivesUnits held.old held.new (T.told tracer.old) (T.told tracer.new)) }
    ensures consistent { OnOk result (IsConsistent held.new) }
    ensures covers { OnOk result (IsCovering (T.told tracer.new) (held_clause held.new.arena) held.new.arena.given) }
    ensures vars { held.new.vars ≡ held.old.vars }
    ensures tells { is_some (T.told tracer.new) ≡ is_some (T.told tracer.old) }
    ensures kept { T.kept tracer.new ≡ T.kept tracer.old }
{
    let unit = hold_derived(held, tracer, &[lit], UNIT, first, rest)?;
    held.set_reason(lit, unit);
    Ok(())
}

/// The literal at a place of the trail.
fn true_at(held: &Held, place: usize) -> Lit
    requires { place < length held.now.trail }
    ensures true_literal { value_under held.now.trail result ≡ True }
    ensures known { result.var < held.now.vars }
{
    held.trail()[place]
}

/// The reason of a true literal, where it has two literals or more.
fn long_reason(held: &Held, lit: Lit) -> Option<ClauseId>
    requires true_literal { value_under held.now.trail lit ≡ True }
    requires consistent { IsConsistent held.now }
    ensures { IfSome result (λ id. HasLiteral held.now.arena id.0 lit) }
{
    match held.reason(lit.var()) {
        Some(id) if held.arena().lits(id).len() > 1 => Some(id),
        _ => None,
    }
}

/// Appends the steps that resolve the literals of a clause but one with unit clauses, which are their reasons. Says
/// whether each of them has such a reason.
fn resolve_others(
    held: &Held,
    lit: Lit,
    first: ClauseId,
    rest: &mut Steps,
) -> Result<bool, AllocError>
    requires has { HasLiteral held.now.arena first.0 lit }
    requires consistent { IsConsistent held.now }
    requires none_yet { rest.old ≡ [] }
    ensures { IfOk result (λ all. all ≡ true → ChainOk (held_clause held.now.arena) (lit ∷ []) first.0 (chain_of rest.new)) }
{
    for other in held.arena().lits(first) {
        if !resolve_other(held, lit, *other, rest)? {
            return Ok(false);
        }
    }
    Ok(true)
}

/// Appends the step that resolves with the unit clause against a literal, unless it is the one that stays. Says whether
/// there is such a clause.
fn resolve_other(held: &Held, lit: Lit, other: Lit, rest: &mut Steps) -> Result<bool, AllocError>
    requires known { other.var < held.now.vars }
    requires consistent { IsConsistent held.now }
    ensures { IfOk result (λ done. done ≡ true → IsResolvedAway held.now.arena lit other rest.old rest.new) }
{
    if other == lit {
        return Ok(true);
    }
    let Some(unit) = unit_of(held, other.not()) else {
        return Ok(false);
    };
    rest.push(Step {
        pivot: other,
        antecedent: unit,
    })?;
    Ok(true)
}

/// The unit clause of a literal, where it is true and that is its reason.
fn unit_of(held: &Held, lit: Lit) -> Option<ClauseId>
    requires known { lit.var < held.now.vars }
    requires consistent { IsConsistent held.now }
    ensures { IfSome result (λ id. held_clause held.now.arena id.0 ≡ Some (lit ∷ [])) }
{
    if held.value(lit) != Value::True {
        return None;
    }
    match held.reason(lit.var()) {
        Some(id) if is_unit(held.arena().lits(id), lit) => Some(id),
        _ => None,
    }
}

/// Whether the clause has this literal alone.
fn is_unit(lits: &[Lit], lit: Lit) -> bool
    ensures { result ≡ true → lits.now ≡ lit ∷ [] }
{
    lits.len() == 1 && lits[0] == lit
}
