//! Rows of `craig_search`: a model, refutations, assumptions that fail, and lemmas.
//!
//! A row is a function over what it was lent: where it returns early it lets nothing large go, and its proof is short.
ghost use Rattle.std.specs.Prelude.{◌≡◌, ◌<◌, None, All};
ghost use Rattle.craig_watch.specs.Held.{nothing_held};
ghost use Rattle.craig_order.specs.Order.{nothing_known};
ghost use Rattle.craig_search.specs.Search.{MayBegin};

use crate::grown::grow;
use craig_base::{ClauseId, Flags, Lit, Part, Var};
use craig_order::Order;
use craig_proof::Silent;
use craig_search::{Verdict, Workspace, search};
use craig_watch::Held;
use std::alloc::{AllocError, Global};
use std::test::Fail;

const FLAGS: Flags = Flags {
    learnt: false,
    kept: false,
    glue: 0,
};

/// The root of a refutation, where the assumptions at the wanted places fail.
fn root(
    alloc: Global,
    held: &mut Held,
    order: &mut Order,
    assumptions: &[(Part, Lit)],
    wanted: &[usize],
) -> Result<Option<ClauseId>, AllocError>
    requires begins { MayBegin held.old order.old None }
    requires known { All (λ a. a.1.var < held.old.vars) assumptions.now }
{
    let mut workspace = Workspace::new(alloc);
    let verdict = search(
        alloc,
        held,
        order,
        &mut Silent,
        &mut workspace,
        assumptions,
        None,
    )?;
    let Verdict::Failed { root, places } = verdict else {
        return Ok(None);
    };
    if places.as_slice() != wanted {
        return Ok(None);
    }
    Ok(Some(root))
}

/// Whether a clause of two literals has a model.
fn has_model(alloc: Global, held: &mut Held, order: &mut Order) -> Result<bool, AllocError>
    requires held { held.old ≡ nothing_held }
    requires order { order.old ≡ nothing_known }
{
    grow(held, order, 2)?;
    held.hold(&[Lit::new(Var(0), false), Lit::new(Var(1), false)], FLAGS)?;
    let mut workspace = Workspace::new(alloc);
    let verdict = search(alloc, held, order, &mut Silent, &mut workspace, &[], None)?;
    Ok(matches!(verdict, Verdict::Model))
}

#[test]
fn a_model_is_found(rt: HostRuntime) -> Result<(), Fail> {
    let mut held = Held::new(rt.alloc());
    let mut order = Order::new(rt.alloc());
    assert!(rt; has_model(rt.alloc(), &mut held, &mut order)?);
    Ok(())
}

/// The root of the refutation of four clauses.
fn root_of_four(
    alloc: Global,
    held: &mut Held,
    order: &mut Order,
) -> Result<Option<ClauseId>, AllocError>
    requires held { held.old ≡ nothing_held }
    requires order { order.old ≡ nothing_known }
{
    grow(held, order, 2)?;
    let v0 = Lit::new(Var(0), false);
    let v1 = Lit::new(Var(1), false);
    held.hold(&[v0, v1], FLAGS)?;
    held.hold(&[v0, v1.not()], FLAGS)?;
    held.hold(&[v0.not(), v1], FLAGS)?;
    held.hold(&[v0.not(), v1.not()], FLAGS)?;
    root(alloc, held, order, &[], &[])
}

#[test]
fn clauses_without_a_model_are_refuted(rt: HostRuntime) -> Result<(), Fail> {
    let mut held = Held::new(rt.alloc());
    let mut order = Order::new(rt.alloc());
    let root = root_of_four(rt.alloc(), &mut held, &mut order)?;
    assert!(rt; root > Some(ClauseId(3)));
    Ok(())
}

/// The root, where a clause excludes an assumption.
fn root_of_excluded(
    alloc: Global,
    held: &mut Held,
    order: &mut Order,
) -> Result<Option<ClauseId>, AllocError>
    requires held { held.old ≡ nothing_held }
    requires order { order.old ≡ nothing_known }
{
    grow(held, order, 1)?;
    let v0 = Lit::new(Var(0), false);
    held.hold(&[v0], FLAGS)?;
    root(alloc, held, order, &[(Part(2), v0.not())], &[0])
}

#[test]
fn a_false_assumption_fails(rt: HostRuntime) -> Result<(), Fail> {
    let mut held = Held::new(rt.alloc());
    let mut order = Order::new(rt.alloc());
    let root = root_of_excluded(rt.alloc(), &mut held, &mut order)?;
    assert!(rt; root.is_some());
    Ok(())
}

/// The root, where a literal and its negation are assumed, the literal twice.
fn root_of_opposite(
    alloc: Global,
    held: &mut Held,
    order: &mut Order,
) -> Result<Option<ClauseId>, AllocError>
    requires held { held.old ≡ nothing_held }
    requires order { order.old ≡ nothing_known }
{
    grow(held, order, 2)?;
    let v0 = Lit::new(Var(0), false);
    let v1 = Lit::new(Var(1), false);
    let assumptions = [
        (Part(1), v1),
        (Part(2), v0),
        (Part(1), v0),
        (Part(1), v0.not()),
    ];
    root(alloc, held, order, &assumptions, &[1, 3])
}

#[test]
fn a_literal_and_its_negation_fail_together(rt: HostRuntime) -> Result<(), Fail> {
    let mut held = Held::new(rt.alloc());
    let mut order = Order::new(rt.alloc());
    let root = root_of_opposite(rt.alloc(), &mut held, &mut order)?;
    assert!(rt; root.is_some());
    Ok(())
}

/// Whether two clauses that propagation refutes are refuted under a limit, where no clause is learnt.
fn is_refuted_by_propagation(
    alloc: Global,
    held: &mut Held,
    order: &mut Order,
) -> Result<bool, AllocError>
    requires held { held.old ≡ nothing_held }
    requires order { order.old ≡ nothing_known }
{
    grow(held, order, 1)?;
    let v0 = Lit::new(Var(0), false);
    held.hold(&[v0], FLAGS)?;
    held.hold(&[v0.not()], FLAGS)?;
    let mut workspace = Workspace::new(alloc);
    let verdict = search(
        alloc,
        held,
        order,
        &mut Silent,
        &mut workspace,
        &[],
        Some(1),
    )?;
    Ok(matches!(verdict, Verdict::Failed { .. }))
}

#[test]
fn a_conflict_at_level_0_is_no_lemma(rt: HostRuntime) -> Result<(), Fail> {
    let mut held = Held::new(rt.alloc());
    let mut order = Order::new(rt.alloc());
    assert!(rt; is_refuted_by_propagation(rt.alloc(), &mut held, &mut order)?);
    Ok(())
}

/// Whether the limit is met by the only lemma that two clauses have, which an assumption leads to.
fn learns_lemma(alloc: Global, held: &mut Held, order: &mut Order) -> Result<bool, AllocError>
    requires held { held.old ≡ nothing_held }
    requires order { order.old ≡ nothing_known }
{
    grow(held, order, 2)?;
    let v0 = Lit::new(Var(0), false);
    let v1 = Lit::new(Var(1), false);
    held.hold(&[v0, v1], FLAGS)?;
    held.hold(&[v0, v1.not()], FLAGS)?;
    let assumed = [(Part(1), v0.not())];
    let mut workspace = Workspace::new(alloc);
    let verdict = search(
        alloc,
        held,
        order,
        &mut Silent,
        &mut workspace,
        &assumed,
        Some(1),
    )?;
    let Verdict::Limit(lemmas) = verdict else {
        return Ok(false);
    };
    Ok(lemmas.len() == 1 && lemmas.lemma(0) == [v0].as_slice())
}

#[test]
fn a_lemma_meets_the_limit(rt: HostRuntime) -> Result<(), Fail> {
    let mut held = Held::new(rt.alloc());
    let mut order = Order::new(rt.alloc());
    assert!(rt; learns_lemma(rt.alloc(), &mut held, &mut order)?);
    Ok(())
}
