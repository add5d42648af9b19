//! Rows of `craig_proof`: a small refutation is told, kept and replayed.
ghost use Rattle.std.specs.Prelude.{◌≡◌, ◌≢◌, Contains, Some, OnOk};
ghost use Rattle.std.specs.Option.{ForSome};
ghost use Rattle.craig_spec.specs.Chain.{IsUnforgotten, Told, ToldStep, nothing_told};
ghost use Rattle.craig_rows_clauses.specs.Proof.{AreRefutationSteps};

use crate::told_ids::ToldIds;
use craig_base::{ClauseId, Lit, Part, Var};
use craig_proof::{ChainStore, Pair, Step, Steps, Tracer};
use std::alloc::{AllocError, Global};
use std::test::Fail;

#[test]
fn pushed_steps_stand_in_order(rt: HostRuntime) -> Result<(), Fail> {
    let pivot = Lit::new(Var(3), false);
    let mut steps = Steps::new(rt.alloc());
    for antecedent in [ClauseId(7), ClauseId(2)] {
        steps.push(Step { pivot, antecedent })?;
    }
    assert_eq!(rt; steps.as_slice().len(), 2);
    Ok(())
}

/// Tells `[v0]` of part 1, `[~v0]` of part 2, `[v5]` of part 1, and the empty clause of the first two.
fn tell_refutation<T: Tracer>(tracer: &mut T) -> Result<(), AllocError>
    requires { ForSome (T.told tracer.old) (λ t. t ≡ nothing_told) }
    ensures told { OnOk result (ForSome (T.told tracer.old) (λ _. (u : Told) × (T.told tracer.new ≡ Some u) × IsUnforgotten u.steps 3)) }
    ensures unforgotten { OnOk result (ForSome (T.told tracer.new) (λ u. IsUnforgotten u.steps 3)) }
    ensures steps { OnOk result (ForSome (T.told tracer.new) (λ u. AreRefutationSteps u.steps)) }
{
    let v0 = Lit::new(Var(0), false);
    let v5 = Lit::new(Var(5), false);
    let positive = [v0];
    tracer.original(ClauseId(0), Part(1), &positive)?;
    let negative = [v0.not()];
    tracer.original(ClauseId(1), Part(2), &negative)?;
    let other = [v5];
    tracer.original(ClauseId(2), Part(1), &other)?;
    let none: [Lit; 0] = [];
    let rest = [Step {
        pivot: v0,
        antecedent: ClauseId(1),
    }];
    tracer.derived(ClauseId(3), &none, ClauseId(0), &rest)
}

/// Says that the clause is done with, and lets go of what no other needs.
fn forget_and_reclaim<T: Tracer>(tracer: &mut T, id: ClauseId)
    requires { ForSome (T.told tracer.old) (λ t. IsUnforgotten t.steps id.0) }
{
    tracer.forget(id);
    tracer.reclaim();
}

/// Whether the store tells exactly these ids of the empty clause's refutation.
fn replays(alloc: Global, store: &ChainStore, ids: &[u64]) -> Result<bool, AllocError>
    requires { IsUnforgotten store.now.told.steps 3 }
{
    let mut told = ToldIds::new(alloc);
    store.replay(ClauseId(3), &mut told)?;
    Ok(told.as_slice() == ids)
}

#[test]
fn replay_leaves_out_what_the_root_does_not_need(rt: HostRuntime) -> Result<(), Fail> {
    let mut store = ChainStore::new(rt.alloc());
    tell_refutation(&mut store)?;
    let mut second = ChainStore::new(rt.alloc());
    store.replay(ClauseId(3), &mut second)?;
    assert!(rt; replays(rt.alloc(), &store, &[0, 1, 3])?);
    Ok(())
}

/// Says that the three originals are done with, and lets go of what the empty clause doesn't need: the third of them.
fn keep_refutation(store: &mut ChainStore)
    requires { AreRefutationSteps store.old.told.steps }
    ensures unforgotten { IsUnforgotten store.new.told.steps 3 }
    ensures gone { (s : ToldStep) → Contains store.new.told.steps s → s.id ≢ 2 }
{
    store.forget(ClauseId(0));
    store.forget(ClauseId(1));
    store.forget(ClauseId(2));
    store.reclaim();
}

#[test]
fn reclaiming_keeps_the_forgotten_antecedents_of_the_root(rt: HostRuntime) -> Result<(), Fail> {
    let mut store = ChainStore::new(rt.alloc());
    tell_refutation(&mut store)?;
    keep_refutation(&mut store);
    assert!(rt; replays(rt.alloc(), &store, &[0, 1, 3])?);
    Ok(())
}

/// The packed chain of the empty clause.
fn packed_root(store: &ChainStore) -> &[u8]
    requires { AreRefutationSteps store.now.told.steps }
{
    store.packed(ClauseId(3))
}

#[test]
fn packed_chain_has_differences_of_ids(rt: HostRuntime) -> Result<(), Fail> {
    let mut store = ChainStore::new(rt.alloc());
    tell_refutation(&mut store)?;
    assert_eq!(rt; packed_root(&store), [3, 0, 2].as_slice());
    Ok(())
}

#[test]
fn a_pair_tells_both(rt: HostRuntime) -> Result<(), Fail> {
    let mut pair = Pair::new(ChainStore::new(rt.alloc()), ToldIds::new(rt.alloc()));
    tell_refutation(&mut pair)?;
    assert!(rt; replays(rt.alloc(), pair.first(), &[0, 1, 3])?);
    assert_eq!(rt; pair.second().as_slice(), [0, 1, 2, 3].as_slice());
    forget_and_reclaim(&mut pair, ClauseId(3));
    Ok(())
}
