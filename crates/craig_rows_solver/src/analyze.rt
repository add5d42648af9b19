//! Rows of `craig_analyze`: what conflicts teach, with their chains resolved again.
//!
//! A row is a function over held clauses that it was lent: where it returns early it lets nothing large go, and its proof
//! is short.
ghost use Rattle.std.specs.Prelude.{◌≡◌, ◌<◌};
ghost use Rattle.craig_watch.specs.Held.{nothing_held};

use craig_analyze::{Analysis, Core, Learnt, final_core, learn, refute};
use craig_base::{ClauseId, Flags, Lit, Var};
use craig_watch::{Held, Value};
use std::alloc::{AllocError, Global};
use std::test::Fail;

const FLAGS: Flags = Flags {
    learnt: false,
    kept: false,
    glue: 0,
};

/// The literal of the variable.
fn positive(var: u32) -> Lit
    requires { var < 2147483648 }
    ensures { result.var ≡ var }
{
    Lit::new(Var(var), false)
}

/// The negation of the variable.
fn negative(var: u32) -> Lit
    requires { var < 2147483648 }
    ensures { result.var ≡ var }
{
    Lit::new(Var(var), true)
}

/// Propagates and then decides the variable, where it may be decided.
fn decide_next(held: &mut Held, var: Var) -> Result<bool, AllocError> {
    if !held.known(var) {
        return Ok(false);
    }
    let None = held.propagate()? else {
        return Ok(false);
    };
    let lit = Lit::new(var, false);
    if held.value(lit) != Value::Free {
        return Ok(false);
    }
    held.decide(lit);
    Ok(true)
}

/// Decides the variables in turn, each after propagation, where they may be decided.
fn decide_all(held: &mut Held, vars: &[Var]) -> Result<bool, AllocError> {
    for var in vars {
        if !decide_next(held, *var)? {
            return Ok(false);
        }
    }
    Ok(true)
}

/// Propagates, and learns from the clause that is false then, or refutes it at level 0.
fn learn_next(alloc: Global, held: &mut Held) -> Result<Option<Learnt>, AllocError> {
    let Some(conflict) = held.propagate()? else {
        return Ok(None);
    };
    if held.level() == 0 {
        return Ok(Some(refute(alloc, held, conflict)?));
    }
    Ok(Some(learn(alloc, held, conflict)?))
}

/// The same twice in one workspace, where the level is above 0.
fn learn_twice(analysis: &mut Analysis, held: &mut Held) -> Result<Option<Learnt>, AllocError> {
    let Some(conflict) = held.propagate()? else {
        return Ok(None);
    };
    if held.level() == 0 {
        return Ok(Some(analysis.refute_with(held, conflict)?));
    }
    analysis.learn_with(held, conflict)?;
    Ok(Some(analysis.learn_with(held, conflict)?))
}

/// Resolves with a held clause.
fn resolve(
    resolvent: &mut Vec<Lit>,
    held: &Held,
    pivot: Lit,
    id: ClauseId,
) -> Result<(), AllocError> {
    if !held.arena().live(id) {
        return Ok(());
    }
    resolvent.retain(|lit| *lit != pivot);
    for lit in held.arena().lits(id) {
        if *lit != pivot.not() && !resolvent.as_slice().contains(lit) {
            resolvent.push(*lit)?;
        }
    }
    Ok(())
}

/// Whether the chain ends in the literals of the clause.
fn is_end_of_chain(alloc: Global, held: &Held, learnt: &Learnt) -> Result<bool, AllocError> {
    let mut resolvent = Vec::new(alloc);
    if held.arena().live(learnt.first) {
        resolvent.extend_from_slice(held.arena().lits(learnt.first))?;
    }
    for step in learnt.rest.as_slice() {
        resolve(&mut resolvent, held, step.pivot, step.antecedent)?;
    }
    let lits = learnt.lits.as_slice();
    let same = resolvent.len() == lits.len();
    Ok(same && lits.iter().all(|lit| resolvent.as_slice().contains(lit)))
}

/// Whether these literals were learnt, with these levels, by a chain of so many steps that ends in them.
fn is_wanted(
    alloc: Global,
    held: &Held,
    learnt: &Learnt,
    lits: &[Lit],
    levels: (u32, u32),
    steps: usize,
) -> Result<bool, AllocError> {
    if learnt.lits.as_slice() != lits || (learnt.back, learnt.glue) != levels {
        return Ok(false);
    }
    Ok(learnt.rest.as_slice().len() == steps && is_end_of_chain(alloc, held, learnt)?)
}

/// Three clauses, one of which is false once variable 0 is true and the others are propagated.
fn hold_cycle(held: &mut Held) -> Result<(), AllocError>
    requires { held.old ≡ nothing_held }
{
    held.grow(3)?;
    held.hold(&[negative(0), positive(1)], FLAGS)?;
    held.hold(&[negative(1), positive(2)], FLAGS)?;
    held.hold(&[negative(2), negative(0)], FLAGS)?;
    Ok(())
}

/// Whether the negation of a decision is learnt.
fn learns_decision(alloc: Global, held: &mut Held) -> Result<bool, AllocError>
    requires { held.old ≡ nothing_held }
{
    hold_cycle(held)?;
    if !decide_next(held, Var(0))? {
        return Ok(false);
    }
    let Some(learnt) = learn_next(alloc, held)? else {
        return Ok(false);
    };
    is_wanted(alloc, held, &learnt, &[negative(0)], (0, 1), 2)
}

#[test]
fn the_literal_of_a_decision_is_learnt(rt: HostRuntime) -> Result<(), Fail> {
    assert!(rt; learns_decision(rt.alloc(), &mut Held::new(rt.alloc()))?);
    Ok(())
}

/// Clauses that make a clause false at the third decision, with literals of three levels and of level 0.
fn hold_levels(held: &mut Held) -> Result<(), AllocError>
    requires { held.old ≡ nothing_held }
{
    held.grow(6)?;
    held.hold(&[positive(5)], FLAGS)?;
    held.hold(&[negative(2), positive(3)], FLAGS)?;
    held.hold(&[negative(3), negative(0), positive(4)], FLAGS)?;
    held.hold(&[negative(4), negative(3), negative(1), negative(5)], FLAGS)?;
    Ok(())
}

/// Whether literals of three levels are learnt, and none of level 0.
fn learns_levels(alloc: Global, held: &mut Held) -> Result<bool, AllocError>
    requires { held.old ≡ nothing_held }
{
    hold_levels(held)?;
    if !decide_all(held, &[Var(0), Var(1), Var(2)])? {
        return Ok(false);
    }
    let Some(learnt) = learn_twice(&mut Analysis::new(alloc), held)? else {
        return Ok(false);
    };
    let lits = [negative(3), negative(1), negative(0)];
    is_wanted(alloc, held, &learnt, &lits, (2, 3), 2)
}

#[test]
fn literals_of_three_levels_are_learnt_and_level_0_is_resolved_away(
    rt: HostRuntime,
) -> Result<(), Fail> {
    assert!(rt; learns_levels(rt.alloc(), &mut Held::new(rt.alloc()))?);
    Ok(())
}

/// Two unit clauses that contradict each other.
fn hold_contradiction(held: &mut Held) -> Result<(), AllocError>
    requires { held.old ≡ nothing_held }
{
    held.grow(1)?;
    held.hold(&[positive(0)], FLAGS)?;
    held.hold(&[negative(0)], FLAGS)?;
    Ok(())
}

/// Whether the empty clause is derived from the contradiction.
fn refutes(alloc: Global, held: &mut Held) -> Result<bool, AllocError>
    requires { held.old ≡ nothing_held }
{
    hold_contradiction(held)?;
    let Some(refuted) = learn_next(alloc, held)? else {
        return Ok(false);
    };
    is_wanted(alloc, held, &refuted, &[], (0, 0), 1)
}

#[test]
fn the_empty_clause_is_derived_at_level_0(rt: HostRuntime) -> Result<(), Fail> {
    assert!(rt; refutes(rt.alloc(), &mut Held::new(rt.alloc()))?);
    Ok(())
}

/// Why the literal is false, where it is.
fn core_of(alloc: Global, held: &Held, failed: Lit) -> Result<Option<Core>, AllocError> {
    if !held.known(failed.var()) || held.value(failed) != Value::False {
        return Ok(None);
    }
    Ok(Some(final_core(alloc, held, failed)?))
}

/// A clause that forces variable 1 once variable 0 is true.
fn hold_implication(held: &mut Held) -> Result<(), AllocError>
    requires { held.old ≡ nothing_held }
{
    held.grow(2)?;
    held.hold(&[negative(0), positive(1)], FLAGS)?;
    Ok(())
}

/// Whether the core of a forced literal is the decision that forces it.
fn names_decision(alloc: Global, held: &mut Held) -> Result<bool, AllocError>
    requires { held.old ≡ nothing_held }
{
    hold_implication(held)?;
    if !decide_next(held, Var(0))? {
        return Ok(false);
    }
    held.propagate()?;
    let Some(Core::Clause(core)) = core_of(alloc, held, negative(1))? else {
        return Ok(false);
    };
    is_wanted(alloc, held, &core, &[positive(1), negative(0)], (0, 0), 0)
}

#[test]
fn a_core_names_the_decisions(rt: HostRuntime) -> Result<(), Fail> {
    assert!(rt; names_decision(rt.alloc(), &mut Held::new(rt.alloc()))?);
    Ok(())
}

/// Whether the core is that the literal clashes with a decision.
fn is_clash(core: &Core, failed: Lit) -> bool {
    match core {
        Core::Clash(lit) => *lit == failed,
        Core::Clause(_) => false,
    }
}

/// Whether the negation of a decision clashes with it.
fn clashes(alloc: Global, held: &mut Held) -> Result<bool, AllocError>
    requires { held.old ≡ nothing_held }
{
    held.grow(1)?;
    if !decide_next(held, Var(0))? {
        return Ok(false);
    }
    let Some(core) = core_of(alloc, held, negative(0))? else {
        return Ok(false);
    };
    Ok(is_clash(&core, negative(0)))
}

#[test]
fn a_decision_clashes_with_its_negation(rt: HostRuntime) -> Result<(), Fail> {
    assert!(rt; clashes(rt.alloc(), &mut Held::new(rt.alloc()))?);
    Ok(())
}

/// Clauses that make variable 0 false at level 0.
fn hold_at_root(held: &mut Held) -> Result<(), AllocError>
    requires { held.old ≡ nothing_held }
{
    held.grow(3)?;
    held.hold(&[positive(1)], FLAGS)?;
    held.hold(&[negative(1), negative(0)], FLAGS)?;
    Ok(())
}

/// Whether a literal that is false at level 0 is in its core alone, also where there is a decision.
fn fails_alone(alloc: Global, held: &mut Held) -> Result<bool, AllocError>
    requires { held.old ≡ nothing_held }
{
    hold_at_root(held)?;
    if !decide_next(held, Var(2))? {
        return Ok(false);
    }
    let failed = positive(0);
    if !held.known(failed.var()) || held.value(failed) != Value::False {
        return Ok(false);
    }
    let Core::Clause(core) = Analysis::new(alloc).final_core_with(held, failed)? else {
        return Ok(false);
    };
    is_wanted(alloc, held, &core, &[negative(0)], (0, 0), 1)
}

#[test]
fn what_is_false_at_level_0_fails_alone(rt: HostRuntime) -> Result<(), Fail> {
    assert!(rt; fails_alone(rt.alloc(), &mut Held::new(rt.alloc()))?);
    Ok(())
}
