//! Which steps a root needs: a set of ids, which is the root at first, and from which the greatest is taken again and
//! again. Its step is needed, and the ids of the step's antecedents, which are lower, come into the set. So only steps
//! that are needed are looked at, from the last to the first.
ghost use Rattle.std.specs.Prelude.{◌≡◌, ◌<◌, ℕ, true, false, length, map, nat_eq, IfOk, OnOk, IfSome, IfNone};
ghost use Rattle.std.specs.List.{list_any};
ghost use Rattle.craig_spec.specs.Chain.{AreRising, EachStands, antecedents};
ghost use Rattle.craig_spec.specs.Needed.{IsNeededPart};
ghost use Rattle.craig_proof.specs.Lent.{AreWithin, step_at, steps_at};
ghost use Rattle.craig_proof.specs.NeededSteps.{HasId, IsTaken, WaitsMore, waits};

use crate::NeededStep;
use crate::packed_steps::PackedSteps;
use crate::stored_steps::StoredSteps;
use craig_base::ClauseId;
use std::alloc::{AllocError, Global};
use std::collections::BTreeSet;

/// Puts the id into the set.
fn wait_for(waiting: &mut BTreeSet<u64>, id: ClauseId) -> Result<(), AllocError>
    ensures { OnOk result (WaitsMore (λ x. nat_eq x id.0) waiting.old waiting.new) }
{
    waiting.insert(id.0)?;
    Ok(())
}

/// Puts the antecedents of the resolutions into the set.
fn wait_for_rest(waiting: &mut BTreeSet<u64>, rest: PackedSteps<'_>) -> Result<(), AllocError>
    ensures { OnOk result (WaitsMore (λ x. list_any (nat_eq x) (map (λ s. s.antecedent) rest.entry)) waiting.old waiting.new) }
{
    let mut left = rest;
    while let Some(step) = left.next() {
        wait_for(waiting, step.antecedent)?;
    }
    Ok(())
}

/// Puts all that the step at the place is derived from into the set.
fn wait_for_antecedents(
    waiting: &mut BTreeSet<u64>,
    steps: &StoredSteps,
    place: usize,
) -> Result<(), AllocError>
    requires { place < length steps.now }
    ensures { OnOk result (WaitsMore (λ x. list_any (nat_eq x) (antecedents (step_at steps.now place).origin)) waiting.old waiting.new) }
{
    if let NeededStep::Derived(first, rest) = steps.step(place) {
        wait_for_rest(waiting, rest)?;
        wait_for(waiting, first)?;
    }
    Ok(())
}

/// Takes the greatest id out of the set, if there is one, and finds the place of its step.
fn take_last(waiting: &mut BTreeSet<u64>, steps: &StoredSteps) -> Option<usize>
    requires rising { AreRising steps.now }
    requires stand { (x : ℕ) → waits waiting.old x ≡ true → HasId steps.now x }
    ensures within { IfSome result (λ place. place < length steps.now) }
    ensures taken { IfSome result (λ place. IsTaken steps.now waiting.old waiting.new (step_at steps.now place)) }
    ensures none { IfNone result ((x : ℕ) → waits waiting.old x ≡ false) }
{
    let id = waiting.pop_last()?;
    Some(steps.place(ClauseId(id)))
}

/// The places of the steps that the root needs, by rising id.
pub(crate) fn needed_steps(
    alloc: Global,
    steps: &StoredSteps,
    root: ClauseId,
) -> Result<Vec<usize>, AllocError>
    requires rising { AreRising steps.now }
    requires stand { EachStands steps.now }
    requires root { HasId steps.now root.0 }
    ensures needed { IfOk result (λ found. IsNeededPart steps.now root.0 (steps_at steps.now found.items)) }
    ensures within { IfOk result (λ found. AreWithin steps.now found.items) }
{
    let mut waiting = BTreeSet::new(alloc);
    wait_for(&mut waiting, root)?;
    let mut found = Vec::new(alloc);
    while let Some(place) = take_last(&mut waiting, steps) {
        wait_for_antecedents(&mut waiting, steps, place)?;
        found.push(place)?;
    }
    found.reverse();
    Ok(found)
}
