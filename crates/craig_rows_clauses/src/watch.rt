//! Rows of `craig_watch`: clauses are held, literals decided and propagated.
//!
//! A row that makes several calls is a function over held clauses that it was lent: where it returns early it lets nothing
//! large go, and its proof is short.
ghost use Rattle.std.specs.Prelude.{◌≡◌, ◌≢◌, ◌<◌};
ghost use Rattle.craig_watch.specs.Held.{nothing_held};

use craig_base::{ClauseId, Flags, Lit, Var};
use craig_watch::{Held, Value};
use std::alloc::AllocError;
use std::test::Fail;

const FLAGS: Flags = Flags {
    learnt: false,
    kept: false,
    glue: 0,
};

/// Propagates and then decides the literal, where it may be decided.
fn decide_next(held: &mut Held, lit: Lit) -> Result<bool, AllocError>
    ensures { held.new.vars ≡ held.old.vars }
{
    if !held.known(lit.var()) {
        return Ok(false);
    }
    let None = held.propagate()? else {
        return Ok(false);
    };
    if held.value(lit) != Value::Free {
        return Ok(false);
    }
    held.decide(lit);
    Ok(true)
}

/// Decides the literals in turn, each after propagation, where they may be decided.
fn decide_all(held: &mut Held, lits: &[Lit]) -> Result<bool, AllocError>
    ensures { held.new.vars ≡ held.old.vars }
{
    for lit in lits {
        if !decide_next(held, *lit)? {
            return Ok(false);
        }
    }
    Ok(true)
}

/// Holds the clause of the two literals, where the first is free and the second was made false at this level.
fn hold_asserting(held: &mut Held, first: Lit, second: Lit) -> Result<bool, AllocError>
    requires first { first.var < held.old.vars }
    requires second { second.var < held.old.vars }
    requires apart { first.var ≢ second.var }
    ensures { held.new.vars ≡ held.old.vars }
{
    if held.value(first) != Value::Free || held.value(second) != Value::False {
        return Ok(false);
    }
    if held.level_of(second.var()) != held.level() {
        return Ok(false);
    }
    held.hold(&[first, second], FLAGS)?;
    Ok(true)
}

/// The reason, the level and the place on the trail of a literal that is true.
fn entry(held: &Held, lit: Lit) -> Option<(Option<ClauseId>, u32, usize)>
    requires { lit.var < held.now.vars }
{
    if held.value(lit) != Value::True {
        return None;
    }
    let var = lit.var();
    Some((held.reason(var), held.level_of(var), held.place_of(var)))
}

/// Whether a decision is propagated through two clauses, in their order.
fn is_propagated(held: &mut Held) -> Result<bool, AllocError>
    requires { held.old ≡ nothing_held }
{
    let v0 = Lit::new(Var(0), false);
    let v1 = Lit::new(Var(1), false);
    let v2 = Lit::new(Var(2), false);
    held.grow(3)?;
    held.hold(&[v0.not(), v1], FLAGS)?;
    held.hold(&[v1.not(), v2], FLAGS)?;
    if !decide_next(held, v0)? {
        return Ok(false);
    }
    let None = held.propagate()? else {
        return Ok(false);
    };
    let forced = entry(held, v2) == Some((Some(ClauseId(1)), 1, 2));
    Ok(forced && held.trail() == [v0, v1, v2].as_slice())
}

#[test]
fn a_decision_is_propagated_through_two_clauses(rt: HostRuntime) -> Result<(), Fail> {
    assert!(rt; is_propagated(&mut Held::new(rt.alloc()))?);
    Ok(())
}

/// Whether a decision that makes a clause false is undone.
fn is_undone(held: &mut Held) -> Result<bool, AllocError>
    requires { held.old ≡ nothing_held }
{
    let v0 = Lit::new(Var(0), false);
    let v1 = Lit::new(Var(1), false);
    held.grow(2)?;
    held.hold(&[v0.not(), v1], FLAGS)?;
    held.hold(&[v0.not(), v1.not()], FLAGS)?;
    if !decide_next(held, v0)? {
        return Ok(false);
    }
    let Some(_) = held.propagate()? else {
        return Ok(false);
    };
    let decided = entry(held, v0) == Some((None, 1, 0)) && held.trail().len() == 2;
    held.back_to(0);
    Ok(decided && held.value(v0) == Value::Free)
}

#[test]
fn a_false_clause_is_reported_and_undone(rt: HostRuntime) -> Result<(), Fail> {
    assert!(rt; is_undone(&mut Held::new(rt.alloc()))?);
    Ok(())
}

/// Whether a clause that is false at level 3 teaches one that is held at level 1, and forces its first literal there.
fn is_asserted(held: &mut Held) -> Result<bool, AllocError>
    requires { held.old ≡ nothing_held }
{
    let v0 = Lit::new(Var(0), false);
    let v1 = Lit::new(Var(1), false);
    let v2 = Lit::new(Var(2), false);
    let v3 = Lit::new(Var(3), false);
    held.grow(4)?;
    held.hold(&[v0.not(), v1.not(), v2], FLAGS)?;
    held.hold(&[v0.not(), v1.not(), v2.not()], FLAGS)?;
    if !decide_all(held, &[v0, v3, v1])? {
        return Ok(false);
    }
    let Some(_) = held.propagate()? else {
        return Ok(false);
    };
    if held.level() != 3 {
        return Ok(false);
    }
    held.back_to(1);
    if held.value(v3) != Value::Free || !hold_asserting(held, v1.not(), v0.not())? {
        return Ok(false);
    }
    let None = held.propagate()? else {
        return Ok(false);
    };
    Ok(entry(held, v1.not()) == Some((Some(ClauseId(2)), 1, 1)))
}

#[test]
fn a_learnt_clause_is_held_at_a_middle_level(rt: HostRuntime) -> Result<(), Fail> {
    assert!(rt; is_asserted(&mut Held::new(rt.alloc()))?);
    Ok(())
}

/// Whether a clause is held until it is let go.
fn is_let_go(held: &mut Held) -> Result<bool, AllocError>
    requires { held.old ≡ nothing_held }
{
    let v0 = Lit::new(Var(0), false);
    held.grow(1)?;
    let known = (held.vars(), held.known(Var(0)), held.known(Var(1))) == (1, true, false);
    let id = held.hold(&[v0], FLAGS)?;
    held.set_flags(id, FLAGS);
    let live = held.arena().live(id);
    held.let_go(id);
    held.number()?;
    Ok(known && live && !held.arena().live(id))
}

#[test]
fn a_clause_is_held_and_let_go(rt: HostRuntime) -> Result<(), Fail> {
    assert!(rt; is_let_go(&mut Held::new(rt.alloc()))?);
    Ok(())
}

/// Whether the first and the third of three clauses are let go together.
fn are_let_go(held: &mut Held) -> Result<bool, AllocError>
    requires { held.old ≡ nothing_held }
{
    let v0 = Lit::new(Var(0), false);
    let v1 = Lit::new(Var(1), false);
    held.grow(2)?;
    let first = held.hold(&[v0, v1], FLAGS)?;
    let second = held.hold(&[v1.not(), v0], FLAGS)?;
    let third = held.hold(&[v0, v1.not()], FLAGS)?;
    held.let_go_all(&[first, third]);
    let gone = !held.arena().live(first) && !held.arena().live(third);
    Ok(gone && held.watchers(v0) == [second].as_slice())
}

#[test]
fn clauses_are_let_go_together(rt: HostRuntime) -> Result<(), Fail> {
    assert!(rt; are_let_go(&mut Held::new(rt.alloc()))?);
    Ok(())
}

/// Whether clauses of two literals or more are watched by their first two.
fn are_watched(held: &mut Held) -> Result<bool, AllocError>
    requires { held.old ≡ nothing_held }
{
    let v0 = Lit::new(Var(0), false);
    let v1 = Lit::new(Var(1), false);
    let v2 = Lit::new(Var(2), false);
    held.grow(3)?;
    held.hold(&[v0, v1], FLAGS)?;
    held.hold(&[v1, v2.not()], FLAGS)?;
    held.hold(&[v0.not()], FLAGS)?;
    let both = [ClauseId(0), ClauseId(1)];
    let watchers = (
        held.watchers(v1),
        held.watchers(v2.not()),
        held.watchers(v0.not()),
    );
    Ok(watchers == (both.as_slice(), &both[1..], &both[2..]))
}

#[test]
fn a_clause_of_two_literals_or_more_is_watched_by_its_first_two(
    rt: HostRuntime,
) -> Result<(), Fail> {
    assert!(rt; are_watched(&mut Held::new(rt.alloc()))?);
    Ok(())
}

/// Holds the unit clause of a literal that is true at level 0, and makes it the reason of the literal.
fn hold_unit(held: &mut Held, lit: Lit) -> Result<bool, AllocError>
    requires { lit.var < held.old.vars }
    ensures { held.new.vars ≡ held.old.vars }
{
    if held.value(lit) != Value::True || held.level() != 0 {
        return Ok(false);
    }
    let id = held.hold(&[lit], FLAGS)?;
    held.set_reason(lit, id);
    Ok(true)
}

/// Whether a literal that a clause of two forced has its unit clause as its reason, and else all is as before.
fn has_another_reason(held: &mut Held) -> Result<bool, AllocError>
    requires { held.old ≡ nothing_held }
{
    let v0 = Lit::new(Var(0), false);
    let v1 = Lit::new(Var(1), false);
    held.grow(2)?;
    held.hold(&[v0], FLAGS)?;
    held.hold(&[v0.not(), v1], FLAGS)?;
    let None = held.propagate()? else {
        return Ok(false);
    };
    let forced = entry(held, v1) == Some((Some(ClauseId(1)), 0, 1));
    if !hold_unit(held, v1)? {
        return Ok(false);
    }
    let rests = entry(held, v1) == Some((Some(ClauseId(2)), 0, 1));
    let other = entry(held, v0) == Some((Some(ClauseId(0)), 0, 0));
    Ok(forced && rests && other)
}

#[test]
fn a_unit_clause_becomes_the_reason(rt: HostRuntime) -> Result<(), Fail> {
    assert!(rt; has_another_reason(&mut Held::new(rt.alloc()))?);
    Ok(())
}
