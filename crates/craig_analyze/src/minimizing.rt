//! A learnt clause is made shorter: what follows from its other literals is resolved away.
//!
//! Sörensson and Biere, "Minimizing Learned Clauses", SAT 2009. Literals are resolved on from the last on the trail to the
//! first, so that each stands in one clause of the chain at most.
ghost use Rattle.std.specs.Prelude.{◌<◌, ◌≤◌, List, All, OnOk, length};
ghost use Rattle.craig_spec.specs.Chain.{ChainStep};
ghost use Rattle.craig_proof.specs.Tracer.{chain_of};
ghost use Rattle.craig_watch.specs.Held.{IsConsistent};
ghost use Rattle.craig_watch.specs.Trail.{IsFalse};
ghost use Rattle.craig_analyze.specs.Resolvent.{HasFound, HasMinimized, IsSetAside, ResolventView, view_of};

use crate::meeting::is_forced;
use crate::resolvent::Resolvent;
use crate::staying::Staying;
use craig_base::Lit;
use craig_proof::Steps;
use craig_watch::Held;
use std::alloc::AllocError;

impl Resolvent {
    /// Resolves all pending literals away, which are of level 0, and those of lower levels that follow from the others.
    pub(crate) fn minimize(
        &mut self,
        held: &Held,
        first: Lit,
        steps: &mut Steps,
    ) -> Result<(), AllocError>
        requires consistent { IsConsistent held.now }
        requires level { 0 < held.now.level }
        requires found { (before : List ChainStep) × (old : ResolventView) × HasFound held.now first before (chain_of steps.old) old (view_of self.old) }
        ensures { OnOk result (HasMinimized held.now first (chain_of steps.old) (chain_of steps.new) (view_of self.old) (view_of self.new)) }
    {
        self.set_aside(held)?;
        self.resolve_forced(held, Staying::Irredundant, steps)
    }

    /// Makes those literals of lower levels pending that follow from the others.
    fn set_aside(&mut self, held: &Held) -> Result<(), AllocError>
        requires consistent { IsConsistent held.now }
        requires falsified { All (λ l. IsFalse held.now.trail l) self.old.lower.items }
        ensures { OnOk result (IsSetAside held.now (view_of self.old) (view_of self.new)) }
    {
        self.redundancy.begin(held, self.lower.as_slice())?;
        let mut place = self.lower.len();
        while place > 0 {
            place -= 1;
            self.set_aside_at(held, place)?;
        }
        Ok(())
    }

    /// Makes the literal at a place pending where it follows from the others.
    fn set_aside_at(&mut self, held: &Held, place: usize) -> Result<(), AllocError>
        requires consistent { IsConsistent held.now }
        requires falsified { All (λ l. IsFalse held.now.trail l) self.old.lower.items }
        requires within { place < length self.old.lower.items }
        ensures aside { OnOk result (IsSetAside held.now (view_of self.old) (view_of self.new)) }
        ensures within { OnOk result (place ≤ length self.new.lower.items) }
    {
        let lit = self.lower[place];
        if !is_forced(held, lit) {
            return Ok(());
        }
        if !self.redundancy.find(held, &self.variables, lit.var())? {
            return Ok(());
        }
        self.lower.remove(place);
        self.pending.push(held.place_of(lit.var()))?;
        Ok(())
    }
}
