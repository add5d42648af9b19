//! Rows of `craig_order`: which variable is decided next, and when a search restarts.
//!
//! A row of an order is a function over what it was lent: where it returns early it lets nothing large go, and its proof
//! is short.
ghost use Rattle.std.specs.Prelude.{◌≡◌};
ghost use Rattle.craig_watch.specs.Held.{nothing_held};
ghost use Rattle.craig_order.specs.Order.{nothing_known};

use crate::grown::grow;
use craig_base::{Flags, Lit, Var};
use craig_order::{Order, Pace};
use craig_watch::Held;
use std::alloc::AllocError;
use std::test::Fail;

const FLAGS: Flags = Flags {
    learnt: false,
    kept: false,
    glue: 0,
};

/// Decides where variable 1 of two was raised and the literal saved, and gives the decided variable back.
fn decide_raised(held: &mut Held, order: &mut Order, saved: Lit) -> Result<Option<Lit>, AllocError>
    requires held { held.old ≡ nothing_held }
    requires order { order.old ≡ nothing_known }
{
    grow(held, order, 2)?;
    if !held.known(saved.var()) {
        return Ok(None);
    }
    order.bump(Var(1));
    order.decay();
    order.save(saved);
    let Some(lit) = order.next(held) else {
        return Ok(None);
    };
    order.give_back(lit.var());
    Ok(Some(lit))
}

#[test]
fn a_raised_variable_is_decided_first_as_it_was_saved_and_else_false(
    rt: HostRuntime,
) -> Result<(), Fail> {
    let v0 = Lit::new(Var(0), false);
    let v1 = Lit::new(Var(1), false);
    for (saved, wanted) in [(v1.not(), v1.not()), (v1, v1), (v0, v1.not())] {
        let mut held = Held::new(rt.alloc());
        let mut order = Order::new(rt.alloc());
        let decided = decide_raised(&mut held, &mut order, saved)?;
        assert!(rt; decided == Some(wanted));
    }
    Ok(())
}

/// Whether all is assigned by propagation, so that nothing is decided.
fn is_assigned(held: &mut Held, order: &mut Order) -> Result<bool, AllocError>
    requires held { held.old ≡ nothing_held }
    requires order { order.old ≡ nothing_known }
{
    grow(held, order, 2)?;
    held.hold(&[Lit::new(Var(0), false)], FLAGS)?;
    held.hold(&[Lit::new(Var(1), false)], FLAGS)?;
    let None = held.propagate()? else {
        return Ok(false);
    };
    Ok(order.next(held).is_none())
}

#[test]
fn nothing_is_decided_where_all_is_assigned(rt: HostRuntime) -> Result<(), Fail> {
    let mut held = Held::new(rt.alloc());
    let mut order = Order::new(rt.alloc());
    assert!(rt; is_assigned(&mut held, &mut order)?);
    Ok(())
}

/// Tells of conflicts whose learnt clauses have the same glue.
fn tell_conflicts(pace: &mut Pace, count: u32, glue: u32) {
    for _ in 0..count {
        pace.conflict(glue);
    }
}

#[test]
fn restarts_are_due_where_glue_rises_at_intervals_that_grow(rt: HostRuntime) {
    let mut pace = Pace::new();
    for (count, glue, due) in [
        (249, 3, false),
        (11, 30, true),
        (0, 30, false),
        (499, 60, false),
        (1, 60, true),
    ] {
        tell_conflicts(&mut pace, count, glue);
        assert!(rt; pace.restart_due() == due);
    }
}

#[test]
fn reductions_are_due_at_intervals_that_grow(rt: HostRuntime) {
    let mut pace = Pace::new();
    for (count, due) in [(299, false), (1, true), (599, false), (1, true)] {
        tell_conflicts(&mut pace, count, 3);
        assert!(rt; pace.reduce_due() == due);
    }
}
