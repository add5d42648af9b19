//! The walk back along the trail, which resolves with the reasons of literals.
ghost use Rattle.std.specs.Prelude.{◌≡◌, ◌<◌, ℕ, true, false, All, Contains, IfOk, OnOk, length};
ghost use Rattle.std.specs.BinaryHeap.{heap_items, heap_len};
ghost use Rattle.craig_proof.specs.Tracer.{chain_of};
ghost use Rattle.craig_watch.specs.Held.{IsConsistent};
ghost use Rattle.craig_analyze.specs.declared.staying.Staying.TheVariants.{InnerLevels};
ghost use Rattle.craig_analyze.specs.Resolvent.{AreForced, HasEnded, HasForced, HasFound, HasPresent, HasResolved, IsResolvable, IsGreatestTaken, IsUnresolved, at_place, view_of};

use crate::resolvent::Resolvent;
use crate::staying::Staying;
use craig_base::Lit;
use craig_proof::{Step, Steps};
use craig_watch::Held;
use std::alloc::AllocError;

impl Resolvent {
    /// Resolves back along the trail until one pending literal is left of the levels above 0, which is given.
    pub(crate) fn find_asserting(
        &mut self,
        held: &Held,
        steps: &mut Steps,
    ) -> Result<Lit, AllocError>
        requires consistent { IsConsistent held.now }
        requires level { 0 < held.now.level }
        requires unresolved { (bound : ℕ) × IsUnresolved InnerLevels held.now bound (view_of self.old) }
        requires present { HasPresent held.now (view_of self.old) }
        ensures { IfOk result (λ first. HasFound held.now first (chain_of steps.old) (chain_of steps.new) (view_of self.old) (view_of self.new)) }
    {
        let mut place = self.take_greatest();
        while !self.is_at_root(held) {
            self.resolve_on(held, Staying::InnerLevels, steps, place)?;
            place = self.take_greatest();
        }
        Ok(held.trail()[place].not())
    }

    /// Resolves all pending literals away, which are of level 0.
    pub(crate) fn resolve_root(&mut self, held: &Held, steps: &mut Steps) -> Result<(), AllocError>
        requires consistent { IsConsistent held.now }
        requires unresolved { (bound : ℕ) × IsUnresolved InnerLevels held.now bound (view_of self.old) }
        requires root { All (λ p. (at_place held.now.trail p).level ≡ 0) (heap_items self.old.pending) }
        ensures { OnOk result (HasEnded held.now (chain_of steps.old) (chain_of steps.new) (view_of self.old) (view_of self.new)) }
    {
        while !self.pending.is_empty() {
            let place = self.take_greatest();
            self.resolve_on(held, Staying::InnerLevels, steps, place)?;
        }
        Ok(())
    }

    /// Resolves back along the trail until nothing is pending, where all that is resolved on has a reason.
    pub(crate) fn resolve_forced(
        &mut self,
        held: &Held,
        staying: Staying,
        steps: &mut Steps,
    ) -> Result<(), AllocError>
        requires consistent { IsConsistent held.now }
        requires forced { AreForced staying held.now }
        requires unresolved { (bound : ℕ) × IsUnresolved staying held.now bound (view_of self.old) }
        ensures { OnOk result (HasForced staying held.now (chain_of steps.old) (chain_of steps.new) (view_of self.old) (view_of self.new)) }
    {
        while !self.pending.is_empty() {
            let place = self.take_greatest();
            self.resolve_on(held, staying, steps, place)?;
        }
        Ok(())
    }

    /// Resolves with the reason of the literal at a place that was taken out.
    fn resolve_on(
        &mut self,
        held: &Held,
        staying: Staying,
        steps: &mut Steps,
        place: usize,
    ) -> Result<(), AllocError>
        requires { IsResolvable staying held.now place (view_of self.old) }
        ensures { OnOk result (HasResolved staying held.now place (chain_of steps.old) (chain_of steps.new) (view_of self.old) (view_of self.new)) }
    {
        let lit = held.trail()[place];
        let Some(antecedent) = held.reason(lit.var()) else {
            unreachable!();
        };
        let pivot = lit.not();
        steps.push(Step { pivot, antecedent })?;
        self.meet(held, staying, antecedent)
    }

    /// Takes the greatest pending place out.
    fn take_greatest(&mut self) -> usize
        requires { 0 < heap_len self.old.pending }
        ensures { IsGreatestTaken result (view_of self.old) (view_of self.new) }
    {
        match self.pending.pop() {
            Some(place) => place,
            None => unreachable!(),
        }
    }

    /// Whether all pending places are of level 0.
    fn is_at_root(&self, held: &Held) -> bool
        requires { All (λ p. p < length held.now.trail) (heap_items self.now.pending) }
        ensures root { result ≡ true → All (λ p. (at_place held.now.trail p).level ≡ 0) (heap_items self.now.pending) }
        ensures above { result ≡ false → (p : ℕ) × Contains (heap_items self.now.pending) p × (0 < (at_place held.now.trail p).level) }
    {
        match self.pending.peek() {
            Some(place) => level_at_place(held, *place) == 0,
            None => true,
        }
    }
}

/// The level of the literal at a place of the trail.
fn level_at_place(held: &Held, place: usize) -> u32
    requires { place < length held.now.trail }
    ensures level { result ≡ (at_place held.now.trail place).level }
    ensures consistent { IsConsistent held.now }
{
    held.level_of(held.trail()[place].var())
}
