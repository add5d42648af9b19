//! A tracer that interpolates at one cut while it is told: partial interpolants clause by clause after McMillan, CAV 2003,
//! and Pudlák, JSL 1997, in the labelled form of D'Silva, Kroening, Purandare and Weissenbacher, VMCAI 2010.
ghost use Rattle.std.specs.Prelude.{◌≡◌, ◌≤◌, ◌<◌, ◌↔◌, Some, None, true, false, All, is_some, length, IfSome, OnOk, OnErr, IsErr};
ghost use Rattle.std.specs.Option.{ForSome, option_map};
ghost use Rattle.craig_base.specs.Clauses.{IsNormal};
ghost use Rattle.craig_spec.specs.Chain.{Told, IsAbove, IsUnforgotten, ChainOk, Derived, antecedents, clause_told, nothing_told, without_id};
ghost use Rattle.craig_spec.specs.Needed.{Reclaims};
ghost use Rattle.craig_proof.specs.Tracer.{chain_of, original_step, derived_step, Appends};
ghost use Rattle.craig_aig.specs.Growth.{ArenaGrows};
ghost use Rattle.craig_itp.specs.CutTracer.{Setting, new_tracer, setting};
ghost use Rattle.craig_itp.specs.Interpolants.{AreNoted, HasSharedInputs, HasValueAt};

use crate::chain_edge::{chain_edge, leaf_edge};
use crate::step_edge::{StepEdge, edge_of};
use craig_aig::{Aig, Edge, Level};
use craig_base::{ClauseId, Lit, Part};
use craig_label::Sides;
use craig_proof::{ChainStore, Step, Tracer};
use craig_system::System;
use std::alloc::{AllocError, Global};
use std::marker::Model;

/// A tracer that builds the edge of each clause that it is told at one cut: its partial interpolant by the rules of a
/// system. It owns the arena of the edges, and hands it back at the end.
///
/// After a call that wanted memory in vain each further call that can say so is refused. What was told is then as
/// before, and gates may be left that nothing names.
#[derive(Drop)]
pub struct CutTracer<'a, S: System> {
    store: ChainStore,
    aig: Aig,
    // the nodes that the arena had at first
    older: Level,
    // one for each told step, in order
    edges: Vec<StepEdge>,
    sides: &'a Sides,
    cut: u16,
    system: &'a S,
    dead: bool,
}

impl<'a, S: System> Model for CutTracer<'a, S> {
    ghost use Rattle.std.specs.Prelude.{take};
    ghost use Rattle.craig_itp.specs.CutTracer.{CutTracerView, IsCutTracer};

    ghost Value = { CutTracerView S };

    ghost view = { λ c. record { told = c.store.told; nodes = c.aig; older = take c.older c.aig; sides = c.sides.now; cut = c.cut; system = c.system.now; dead = c.dead } };

    ghost invariant = { λ c. IsCutTracer c.sides.now c.cut (S.marks c.system.now) c.store.told c.older c.aig c.edges.items };
}

impl<'a, S: System> CutTracer<'a, S> {
    /// The tracer that was told nothing, at the cut that puts the parts from 1 to `cut` on side A, the later ones on side B
    /// and part 0 on both, where its originals are leaves of side B.
    /// It adds its nodes to those of the arena, and takes no memory.
    pub fn new(
        alloc: Global,
        aig: Aig,
        sides: &'a Sides,
        cut: u16,
        system: &'a S,
    ) -> CutTracer<'a, S>
        requires { cut ≤ sides.now.parts }
        ensures { result ≡ new_tracer aig sides.now cut system.now }
    {
        let older = aig.level();
        CutTracer {
            store: ChainStore::new(alloc),
            aig,
            older,
            edges: Vec::new(alloc),
            sides,
            cut,
            system,
            dead: false,
        }
    }

    /// The edge of the clause that was told under the id, where one was: of the arena, with the value of its partial
    /// interpolant. Where the sides have noted each variable of the told originals in their parts, each input of its cone
    /// occurs on both sides of the cut.
    pub fn edge(&self, id: ClauseId) -> Option<Edge>
        ensures none { (result ≡ None) ↔ (clause_told self.now.told.steps id.0 ≡ None) }
        ensures within { IfSome result (λ e. e.place < length self.now.nodes) }
        ensures value { IfSome result (HasValueAt (setting (S.marks self.now.system) self.now) self.now.told.steps id.0 self.now.nodes) }
        ensures inputs { AreNoted self.now.sides self.now.told.steps → IfSome result (HasSharedInputs self.now.sides self.now.cut self.now.nodes) }
    {
        self.store.each_clause_follows();
        edge_of(self.edges.as_slice(), id)
    }

    /// The arena, with the nodes that it had at first at its front. Older edges have kept their functions.
    pub fn into_aig(self) -> Aig
        ensures nodes { result ≡ self.entry.nodes }
        ensures grows { ArenaGrows self.entry.older result }
    {
        self.aig
    }
}

impl<'a, S: System> Tracer for CutTracer<'a, S> {
    ghost told = { λ v. Some v.told };

    ghost Kept = { Setting };

    ghost kept = { λ v. setting (S.marks v.system) v };

    fn original(&mut self, id: ClauseId, part: Part, lits: &[Lit]) -> Result<(), AllocError>
        requires above { ForSome (Some self.old.told) (λ t. IsAbove t id.0) }
        requires normal { IsNormal lits.now }
        ensures told { OnOk result (Appends (Some self.old.told) (Some self.new.told) (original_step id.0 part.0 lits.now)) }
        ensures tells { is_some (Some self.new.told) ≡ is_some (Some self.old.told) }
        ensures kept { setting (S.marks self.new.system) self.new ≡ setting (S.marks self.old.system) self.old }
        ensures unchanged { OnErr result (self.new.told ≡ self.old.told) }
        ensures alive { OnOk result (self.new.dead ≡ false) }
        ensures dead { OnErr result (self.new.dead ≡ true) }
        ensures refused { self.old.dead ≡ true → IsErr result }
    {
        if self.dead {
            return Err(AllocError);
        }
        self.dead = true;
        self.store.each_clause_follows();
        let edge = leaf_edge(&mut self.aig, self.sides, self.cut, self.system, part, lits)?;
        self.edges.reserve(1)?;
        self.store.original(id, part, lits)?;
        self.edges.push_reserved(StepEdge { id, edge });
        self.dead = false;
        Ok(())
    }

    fn derived(
        &mut self,
        id: ClauseId,
        lits: &[Lit],
        first: ClauseId,
        rest: &[Step],
    ) -> Result<(), AllocError>
        requires above { ForSome (Some self.old.told) (λ t. IsAbove t id.0) }
        requires unforgotten { ForSome (Some self.old.told) (λ t. All (IsUnforgotten t.steps) (antecedents (Derived first.0 (chain_of rest.now)))) }
        requires chain { ForSome (Some self.old.told) (λ t. ChainOk (clause_told t.steps) lits.now first.0 (chain_of rest.now)) }
        ensures told { OnOk result (Appends (Some self.old.told) (Some self.new.told) (derived_step id.0 lits.now first.0 rest.now)) }
        ensures tells { is_some (Some self.new.told) ≡ is_some (Some self.old.told) }
        ensures kept { setting (S.marks self.new.system) self.new ≡ setting (S.marks self.old.system) self.old }
        ensures unchanged { OnErr result (self.new.told ≡ self.old.told) }
        ensures alive { OnOk result (self.new.dead ≡ false) }
        ensures dead { OnErr result (self.new.dead ≡ true) }
        ensures refused { self.old.dead ≡ true → IsErr result }
    {
        if self.dead {
            return Err(AllocError);
        }
        self.dead = true;
        self.store.each_clause_follows();
        let edges = self.edges.as_slice();
        let edge = chain_edge(
            &mut self.aig,
            edges,
            self.sides,
            self.cut,
            self.system,
            first,
            rest,
        )?;
        self.edges.reserve(1)?;
        self.store.derived(id, lits, first, rest)?;
        self.edges.push_reserved(StepEdge { id, edge });
        self.dead = false;
        Ok(())
    }

    fn forget(&mut self, id: ClauseId)
        requires { ForSome (Some self.old.told) (λ t. IsUnforgotten t.steps id.0) }
        ensures told { Some self.new.told ≡ option_map (without_id id.0) (Some self.old.told) }
        ensures kept { setting (S.marks self.new.system) self.new ≡ setting (S.marks self.old.system) self.old }
        ensures dead { self.new.dead ≡ self.old.dead }
    {
        self.store.forget(id);
    }

    fn reclaim(&mut self)
        ensures told { (t : Told) → Some self.old.told ≡ Some t → (u : Told) × (Some self.new.told ≡ Some u) × Reclaims t u }
        ensures tells { is_some (Some self.new.told) ≡ is_some (Some self.old.told) }
        ensures kept { setting (S.marks self.new.system) self.new ≡ setting (S.marks self.old.system) self.old }
        ensures unchanged { self.new ≡ self.old }
    {}
}
