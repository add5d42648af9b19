//! Two tracers that are told the same.

ghost use Rattle.std.specs.Prelude.{◌≡◌, true, false, is_some, OnOk, OnErr, IsErr};
ghost use Rattle.std.specs.Option.{ForSome, option_map};
ghost use Rattle.craig_base.specs.Clauses.{IsNormal};
ghost use Rattle.craig_spec.specs.Chain.{IsAbove, IsUnforgotten, without_id};
ghost use Rattle.craig_proof.specs.Pair.{Agree, PairAppends, pair_kept, pair_told};
ghost use Rattle.craig_proof.specs.Tracer.{chain_of, original_step, derived_step, Appends, AreUnforgotten, IsReclaimed, IsToldChain};

use crate::{Step, Tracer};
use craig_base::{ClauseId, Lit, Part};
use std::alloc::AllocError;
use std::marker::Model;

/// Two tracers that are told the same.
///
/// It tells the meaning of the first, or that of the second where the first tells none. After a call that wanted
/// memory in vain the two may differ, each further call that can say so is refused, and `forget` does nothing.
#[derive(Drop)]
pub struct Pair<T: Tracer, U: Tracer> {
    // told first
    first: T,
    // told what the first was told
    second: U,
    // whether a call wanted memory in vain
    dead: bool,
}

impl<T: Tracer, U: Tracer> Model for Pair<T, U> {
    ghost use Rattle.std.specs.Prelude.{◌≡◌, false};
    ghost use Rattle.craig_proof.specs.Pair.{PairView, Agree};

    ghost Value = { PairView T U };

    ghost view = { λ p. record { first = p.first; second = p.second; dead = p.dead } };

    ghost invariant = { λ p. p.dead ≡ false → Agree (T.told p.first) (U.told p.second) };
}

impl<T: Tracer, U: Tracer> Pair<T, U> {
    /// The pair of the two tracers.
    pub fn new(first: T, second: U) -> Pair<T, U>
        requires { Agree (T.told first) (U.told second) }
        ensures first { result.first ≡ first }
        ensures second { result.second ≡ second }
        ensures alive { result.dead ≡ false }
    {
        Pair {
            first,
            second,
            dead: false,
        }
    }

    /// The first tracer.
    pub fn first(&self) -> &T
        ensures value { result.now ≡ self.now.first }
        ensures agree { self.now.dead ≡ false → Agree (T.told self.now.first) (U.told self.now.second) }
    {
        &self.first
    }

    /// The second tracer.
    pub fn second(&self) -> &U
        ensures value { result.now ≡ self.now.second }
        ensures agree { self.now.dead ≡ false → Agree (T.told self.now.first) (U.told self.now.second) }
    {
        &self.second
    }
}

impl<T: Tracer, U: Tracer> Tracer for Pair<T, U> {
    ghost told = { λ p. pair_told T.told U.told p };

    ghost Kept = { T.Kept × U.Kept };

    ghost kept = { λ p. pair_kept T.kept U.kept p };

    fn original(&mut self, id: ClauseId, part: Part, lits: &[Lit]) -> Result<(), AllocError>
        requires above { ForSome (pair_told T.told U.told self.old) (λ t. IsAbove t id.0) }
        requires normal { IsNormal lits.now }
        ensures told { OnOk result (PairAppends T.told U.told self.old self.new (original_step id.0 part.0 lits.now)) }
        ensures tells { is_some (pair_told T.told U.told self.new) ≡ is_some (pair_told T.told U.told self.old) }
        ensures kept { pair_kept T.kept U.kept self.new ≡ pair_kept T.kept U.kept self.old }
        ensures first { OnOk result (Appends (T.told self.old.first) (T.told self.new.first) (original_step id.0 part.0 lits.now)) }
        ensures second { OnOk result (Appends (U.told self.old.second) (U.told self.new.second) (original_step id.0 part.0 lits.now)) }
        ensures alive { OnOk result (self.new.dead ≡ false) }
        ensures dead { OnErr result (self.new.dead ≡ true) }
        ensures refused { self.old.dead ≡ true → IsErr result }
    {
        if self.dead {
            return Err(AllocError);
        }
        self.dead = true;
        self.first.original(id, part, lits)?;
        self.second.original(id, part, lits)?;
        self.dead = false;
        Ok(())
    }

    fn derived(
        &mut self,
        id: ClauseId,
        lits: &[Lit],
        first: ClauseId,
        rest: &[Step],
    ) -> Result<(), AllocError>
        requires above { ForSome (pair_told T.told U.told self.old) (λ t. IsAbove t id.0) }
        requires unforgotten { AreUnforgotten (pair_told T.told U.told self.old) first.0 (chain_of rest.now) }
        requires chain { IsToldChain (pair_told T.told U.told self.old) lits.now first.0 (chain_of rest.now) }
        ensures told { OnOk result (PairAppends T.told U.told self.old self.new (derived_step id.0 lits.now first.0 rest.now)) }
        ensures tells { is_some (pair_told T.told U.told self.new) ≡ is_some (pair_told T.told U.told self.old) }
        ensures kept { pair_kept T.kept U.kept self.new ≡ pair_kept T.kept U.kept self.old }
        ensures first { OnOk result (Appends (T.told self.old.first) (T.told self.new.first) (derived_step id.0 lits.now first.0 rest.now)) }
        ensures second { OnOk result (Appends (U.told self.old.second) (U.told self.new.second) (derived_step id.0 lits.now first.0 rest.now)) }
        ensures alive { OnOk result (self.new.dead ≡ false) }
        ensures dead { OnErr result (self.new.dead ≡ true) }
        ensures refused { self.old.dead ≡ true → IsErr result }
    {
        if self.dead {
            return Err(AllocError);
        }
        self.dead = true;
        self.first.derived(id, lits, first, rest)?;
        self.second.derived(id, lits, first, rest)?;
        self.dead = false;
        Ok(())
    }

    fn forget(&mut self, id: ClauseId)
        requires { ForSome (pair_told T.told U.told self.old) (λ t. IsUnforgotten t.steps id.0) }
        ensures told { pair_told T.told U.told self.new ≡ option_map (without_id id.0) (pair_told T.told U.told self.old) }
        ensures kept { pair_kept T.kept U.kept self.new ≡ pair_kept T.kept U.kept self.old }
        ensures first { self.old.dead ≡ false → T.told self.new.first ≡ option_map (without_id id.0) (T.told self.old.first) }
        ensures second { self.old.dead ≡ false → U.told self.new.second ≡ option_map (without_id id.0) (U.told self.old.second) }
        ensures dead { self.new.dead ≡ self.old.dead }
    {
        if !self.dead {
            self.first.forget(id);
            self.second.forget(id);
        }
    }

    fn reclaim(&mut self)
        ensures told { IsReclaimed (pair_told T.told U.told self.old) (pair_told T.told U.told self.new) }
        ensures tells { is_some (pair_told T.told U.told self.new) ≡ is_some (pair_told T.told U.told self.old) }
        ensures kept { pair_kept T.kept U.kept self.new ≡ pair_kept T.kept U.kept self.old }
        ensures unchanged { self.new ≡ self.old }
        ensures dead { self.new.dead ≡ self.old.dead }
    {}
}
