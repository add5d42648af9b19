//! A tracer that keeps the whole refutation, and tells another the part of it that one clause needs.
//!
//! Kept steps stand in a list by rising id. What a root needs is found from the last needed step to the first, as proof
//! checkers do since Goldberg and Novikov (DATE 2003), but by a set of ids in place of a mark a step.

ghost use Rattle.std.specs.Prelude.{◌≡◌, ℕ, List, Some, None, true, false, All, is_some, IfOk, OnOk, OnErr, IsErr};
ghost use Rattle.std.specs.Option.{ForSome, option_map};
ghost use Rattle.craig_base.specs.Clauses.{IsNormal};
ghost use Rattle.craig_spec.specs.Chain.{ChainStep, Told, IsTold, IsAbove, IsUnforgotten, ChainOk, Derived, antecedents, clause_told, nothing_told, with_step, without_id};
ghost use Rattle.craig_spec.specs.Needed.{AllFollow, IsNeededPart, Reclaims};
ghost use Rattle.craig_spec.specs.PackedChain.{packed_chain};
ghost use Rattle.craig_proof.specs.ChainStore.{HasDerived, IsDerivedUnder, IsReplayed};
ghost use Rattle.craig_proof.specs.Reclaiming.{AreAllInUse};
ghost use Rattle.craig_proof.specs.Tracer.{chain_of, original_step, derived_step, Appends, AreUnforgotten, IsReclaimed, IsToldChain};

use crate::finding::needed_steps;
use crate::replay::tell_all;
use crate::stored_steps::StoredSteps;
use crate::{Needed, Step, Tracer};
use craig_base::{ClauseId, Lit, Part};
use std::alloc::{AllocError, Global};
use std::marker::Model;

/// A tracer that keeps what it is told, and tells another tracer the steps that one clause needs.
///
/// After a call that wanted memory in vain each further call that can say so is refused.
#[derive(Drop)]
pub struct ChainStore {
    // by rising id
    steps: StoredSteps,
    // the last id that was told
    greatest: Option<ClauseId>,
    // whether a call wanted memory in vain
    dead: bool,
}

impl Model for ChainStore {
    ghost use Rattle.craig_proof.specs.ChainStore.{ChainStoreView};

    ghost Value = { ChainStoreView };

    ghost use Rattle.craig_spec.specs.Chain.{Told};
    ghost use Rattle.craig_proof.specs.StoredSteps.{IsStore, told_of};

    ghost view = { λ s. record { told = told_of s.greatest s.steps; dead = s.dead } };

    ghost invariant = { λ s. IsStore (told_of s.greatest s.steps) };
}

impl ChainStore {
    /// The store that was told nothing, which takes no memory.
    pub fn new(alloc: Global) -> ChainStore
        ensures { result ≡ record { told = nothing_told; dead = false } }
    {
        ChainStore {
            steps: StoredSteps::new(alloc),
            greatest: None,
            dead: false,
        }
    }

    /// Tells `into` the steps that the root needs, by rising id and under their ids: the root's own, and with each
    /// step those of its antecedents. The store stays as it is. The root isn't forgotten, and `into` was told nothing.
    /// It takes memory for a reference a needed step, and apart from what `into` does its time grows with the length of
    /// the needed chains times the logarithm of the store's.
    pub fn replay<T: Tracer>(&self, root: ClauseId, into: &mut T) -> Result<(), AllocError>
        requires root { IsUnforgotten self.now.told.steps root.0 }
        requires nothing { ForSome (T.told into.old) (λ t. t ≡ nothing_told) }
        ensures told { OnOk result (IsReplayed self.now.told.steps root.0 (T.told into.old) (T.told into.new)) }
        ensures tells { is_some (T.told into.new) ≡ is_some (T.told into.old) }
        ensures kept { T.kept into.new ≡ T.kept into.old }
        ensures refused { self.now.dead ≡ true → IsErr result }
    {
        if self.dead {
            return Err(AllocError);
        }
        let alloc = self.steps.allocator();
        let needed = needed_steps(alloc, &self.steps, root)?;
        tell_all(alloc, &self.steps, needed.as_slice(), into)
    }

    /// The steps that the root needs, lent one by one, for more than one walk over them. The root isn't forgotten. Memory
    /// and time grow with what is needed, as those of [`replay`](ChainStore::replay) without what that tells.
    pub fn needed(&self, root: ClauseId) -> Result<Needed<'_>, AllocError>
        requires { IsUnforgotten self.now.told.steps root.0 }
        ensures needed { IfOk result (IsNeededPart self.now.told.steps root.0) }
        ensures refused { self.now.dead ≡ true → IsErr result }
    {
        if self.dead {
            return Err(AllocError);
        }
        Needed::of_root(self.steps.allocator(), &self.steps, root)
    }

    /// The packed chain of a derived clause whose step is kept, lent as it lies: how far the first antecedent is before the
    /// clause's id, and then for each resolution the number of its pivot and how far its antecedent is before that id. The
    /// number of a pivot is twice its dense variable, and one more where it is negated. All are in groups of seven bits, the
    /// lowest first, as few as do, with the top bit set in each byte but a number's last.
    pub fn packed(&self, id: ClauseId) -> &[u8]
        requires { HasDerived self.now.told.steps id.0 }
        ensures { (first : ℕ) (rest : List ChainStep) → IsDerivedUnder self.now.told.steps id.0 first rest → result.now ≡ packed_chain id.0 first rest }
    {
        self.steps.packed(self.steps.place(id))
    }

    /// What was told is a list of steps by rising id, each on those before it, and each clause of it is true
    /// wherever the originals are that it needs.
    pub fn each_clause_follows(&self)
        ensures told { IsTold self.now.told }
        ensures follows { AllFollow self.now.told.steps }
    {
        let _steps = &self.steps;
    }
}

impl Tracer for ChainStore {
    ghost told = { λ s. Some s.told };

    ghost kept = { λ _. tt };

    fn original(&mut self, id: ClauseId, part: Part, lits: &[Lit]) -> Result<(), AllocError>
        requires above { ForSome (Some self.old.told) (λ t. IsAbove t id.0) }
        requires normal { IsNormal lits.now }
        ensures told { OnOk result (Appends (Some self.old.told) (Some self.new.told) (original_step id.0 part.0 lits.now)) }
        ensures tells { is_some (Some self.new.told) ≡ is_some (Some self.old.told) }
        ensures unchanged { OnErr result (self.new.told ≡ self.old.told) }
        ensures alive { OnOk result (self.new.dead ≡ false) }
        ensures dead { OnErr result (self.new.dead ≡ true) }
        ensures refused { self.old.dead ≡ true → IsErr result }
    {
        if self.dead {
            return Err(AllocError);
        }
        self.dead = true;
        self.steps.push_original(id, part, lits)?;
        self.greatest = Some(id);
        self.dead = false;
        Ok(())
    }

    fn derived(
        &mut self,
        id: ClauseId,
        lits: &[Lit],
        first: ClauseId,
        rest: &[Step],
    ) -> Result<(), AllocError>
        requires above { ForSome (Some self.old.told) (λ t. IsAbove t id.0) }
        requires unforgotten { AreUnforgotten (Some self.old.told) first.0 (chain_of rest.now) }
        requires chain { IsToldChain (Some self.old.told) lits.now first.0 (chain_of rest.now) }
        ensures told { OnOk result (Appends (Some self.old.told) (Some self.new.told) (derived_step id.0 lits.now first.0 rest.now)) }
        ensures tells { is_some (Some self.new.told) ≡ is_some (Some self.old.told) }
        ensures unchanged { OnErr result (self.new.told ≡ self.old.told) }
        ensures alive { OnOk result (self.new.dead ≡ false) }
        ensures dead { OnErr result (self.new.dead ≡ true) }
        ensures refused { self.old.dead ≡ true → IsErr result }
    {
        if self.dead {
            return Err(AllocError);
        }
        self.dead = true;
        self.steps.push_derived(id, lits, first, rest)?;
        self.greatest = Some(id);
        self.dead = false;
        Ok(())
    }

    fn forget(&mut self, id: ClauseId)
        requires { ForSome (Some self.old.told) (λ t. IsUnforgotten t.steps id.0) }
        ensures told { Some self.new.told ≡ option_map (without_id id.0) (Some self.old.told) }
        ensures dead { self.new.dead ≡ self.old.dead }
    {
        self.steps.forget(id);
    }

    fn reclaim(&mut self)
        ensures told { IsReclaimed (Some self.old.told) (Some self.new.told) }
        ensures tells { is_some (Some self.new.told) ≡ is_some (Some self.old.told) }
        ensures in_use { AreAllInUse self.old.told.steps self.new.told.steps }
        ensures dead { self.new.dead ≡ self.old.dead }
    {
        self.steps.reclaim();
    }
}
