//! Telling a tracer kept steps again, from the first to the last.
ghost use Rattle.std.specs.Prelude.{◌≡◌, ◌<◌, All, is_some, length, OnOk};
ghost use Rattle.std.specs.Option.{ForSome};
ghost use Rattle.craig_base.specs.Clauses.{IsNormal};
ghost use Rattle.craig_spec.specs.Chain.{AreRising, EachStands, StandsOn, IsAbove, IsUnforgotten, antecedents, nothing_told};
ghost use Rattle.craig_spec.specs.Needed.{IsOriginal, unforgotten};
ghost use Rattle.craig_proof.specs.Lent.{AreWithin, step_at, steps_at};
ghost use Rattle.craig_proof.specs.NeededSteps.{TellsSteps};
ghost use Rattle.craig_proof.specs.StoredSteps.{OriginalsNormal};
ghost use Rattle.craig_proof.specs.Tracer.{Appends, chain_of};

use crate::packed_steps::PackedSteps;
use crate::stored_steps::StoredSteps;
use crate::{NeededStep, Step, Tracer};
use std::alloc::{AllocError, Global};

/// Reads the resolutions into the list, in place of those that it had.
fn unpack(rest: PackedSteps<'_>, into: &mut Vec<Step>) -> Result<(), AllocError>
    ensures { OnOk result (chain_of into.new.items ≡ rest.entry) }
{
    into.clear();
    let mut left = rest;
    while let Some(step) = left.next() {
        into.push(step)?;
    }
    Ok(())
}

/// Tells the step at the place. Its chain is read into the list.
fn tell<T: Tracer>(
    steps: &StoredSteps,
    place: usize,
    chain: &mut Vec<Step>,
    into: &mut T,
) -> Result<(), AllocError>
    requires within { place < length steps.now }
    requires above { ForSome (T.told into.old) (λ t. IsAbove t (step_at steps.now place).id) }
    requires normal { IsOriginal (step_at steps.now place).origin → IsNormal (step_at steps.now place).literals }
    requires unforgotten { ForSome (T.told into.old) (λ t. All (IsUnforgotten t.steps) (antecedents (step_at steps.now place).origin)) }
    requires stands { ForSome (T.told into.old) (λ t. StandsOn t.steps (step_at steps.now place).literals (step_at steps.now place).origin) }
    ensures told { OnOk result (Appends (T.told into.old) (T.told into.new) (unforgotten (step_at steps.now place))) }
    ensures tells { is_some (T.told into.new) ≡ is_some (T.told into.old) }
    ensures kept { T.kept into.new ≡ T.kept into.old }
{
    let id = steps.id(place);
    let literals = steps.literals(place);
    match steps.step(place) {
        NeededStep::Original(part, _) => into.original(id, part, literals),
        NeededStep::Derived(first, rest) => {
            unpack(rest, chain)?;
            into.derived(id, literals, first, chain.as_slice())
        }
    }
}

/// Tells the steps at the places, first to last.
pub(crate) fn tell_all<T: Tracer>(
    alloc: Global,
    steps: &StoredSteps,
    places: &[usize],
    into: &mut T,
) -> Result<(), AllocError>
    requires within { AreWithin steps.now places.now }
    requires rising { AreRising (steps_at steps.now places.now) }
    requires stand { EachStands (steps_at steps.now places.now) }
    requires normal { OriginalsNormal (steps_at steps.now places.now) }
    requires nothing { ForSome (T.told into.old) (λ t. t ≡ nothing_told) }
    ensures told { OnOk result (TellsSteps (steps_at steps.now places.now) (T.told into.old) (T.told into.new)) }
    ensures tells { is_some (T.told into.new) ≡ is_some (T.told into.old) }
    ensures kept { T.kept into.new ≡ T.kept into.old }
{
    let mut chain = Vec::new(alloc);
    for place in places {
        tell(steps, *place, &mut chain, into)?;
    }
    Ok(())
}
