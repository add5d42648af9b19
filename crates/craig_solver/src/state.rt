//! What a solver keeps.
ghost use Rattle.std.specs.Prelude.{◌≡◌, ◌≢◌, ℕ, ◌+◌, ◌<◌, ◌≤◌, [], ◌∷◌, ◌++◌, Some, None, All, IfOk, OnOk, OnErr, is_some, max};
ghost use Rattle.std.specs.Option.{ForSome};
ghost use Rattle.craig_spec.specs.Chain.{nothing_told};
ghost use Rattle.craig_base.specs.Clauses.{IsNormal};
ghost use Rattle.craig_proof.specs.Tracer.{Appends, original_step};
ghost use Rattle.craig_solver.specs.Solver.{HoldsNext, IsSolved};
ghost use Rattle.craig_solver.specs.State.{AcceptsClause, ForgetsRoot, ForgetsUnits, IsState, LetsLearntGo, MayAccept, accepting, living_view, state_clauses, state_with};
ghost use Rattle.craig_solver.specs.Told.{TellsNext};

use crate::Answer;
use crate::copying::copy_of;
use crate::schedule::Schedule;
use crate::settling::{answer_for, root_of, units_of};
use craig_base::{ClauseId, Flags, Lit, Lits, Normal, Part, normal};
use craig_order::Order;
use craig_proof::Tracer;
use craig_search::{Bar, Workspace, may_go, search};
use craig_watch::Held;
use std::alloc::{AllocError, Global};

/// The flags of an accepted clause.
const ORIGINAL: Flags = Flags {
    learnt: false,
    kept: false,
    glue: 0,
};

/// The accepted clauses, and what a search needs.
#[derive(Drop)]
pub(crate) struct State<T: Tracer> {
    // as they were written
    pub(crate) accepted: Vec<(Part, Lits)>,
    pub(crate) held: Held,
    pub(crate) order: Order,
    pub(crate) tracer: T,
    // the ids of the held clauses that are not learnt, rising
    pub(crate) held_ids: Vec<ClauseId>,
    // the empty clause of the last refutation, until the next search
    pub(crate) root: Option<ClauseId>,
    // how many units were told for it, with the ids directly below its own
    pub(crate) units: u64,
    // when learnt clauses are let go
    pub(crate) schedule: Schedule,
    // what a search keeps for the next one
    pub(crate) workspace: Workspace,
}

impl<T: Tracer> State<T> {
    /// No clause and no known variable, which takes no memory.
    pub(crate) fn new(alloc: Global, tracer: T) -> State<T>
        requires nothing { ForSome (T.told tracer) (λ t. t ≡ nothing_told) }
        ensures state { IsState (state_with (T.told result.tracer) result) }
        ensures accepted { result.accepted.items ≡ [] }
        ensures vars { result.held.vars ≡ 0 }
        ensures held_ids { result.held_ids.items ≡ [] }
        ensures tracer { result.tracer ≡ tracer }
        ensures root { result.root ≡ None }
    {
        craig_proof::laws::covering_is_kept();
        State {
            accepted: Vec::new(alloc),
            held: Held::new(alloc),
            order: Order::new(alloc),
            tracer,
            held_ids: Vec::new(alloc),
            root: None,
            units: 0,
            schedule: Schedule::new(),
            workspace: Workspace::new(alloc),
        }
    }

    /// Makes the variables below the number known.
    pub(crate) fn reach(&mut self, vars: u32) -> Result<(), AllocError>
        requires few { vars ≤ 2147483648 }
        requires state { IsState (state_with (T.told self.old.tracer) self.old) }
        ensures state { OnOk result (IsState (state_with (T.told self.new.tracer) self.new)) }
        ensures vars { OnOk result (self.new.held.vars ≡ max self.old.held.vars vars) }
        ensures held { OnOk result (self.new.held.arena ≡ self.old.held.arena) }
        ensures held_ids { self.new.held_ids.items ≡ self.old.held_ids.items }
        ensures accepted { self.new.accepted.items ≡ self.old.accepted.items }
        ensures tracer { self.new.tracer ≡ self.old.tracer }
        ensures root { self.new.root ≡ self.old.root }
    {
        self.held.grow(vars)?;
        self.order.grow(vars)
    }

    /// Accepts a clause, and holds it unless it is a tautology.
    pub(crate) fn add(&mut self, part: Part, lits: &[Lit]) -> Result<(), AllocError>
        requires known { All (λ l. l.var < self.old.held.vars) lits.now }
        requires state { IsState (state_with (T.told self.old.tracer) self.old) }
        ensures state { OnOk result (IsState (state_with (T.told self.new.tracer) self.new)) }
        ensures added { OnOk result (AcceptsClause part lits.now (T.told self.old.tracer) (T.told self.new.tracer) self.old self.new) }
        ensures unchanged { OnErr result (self.new.accepted.items ≡ self.old.accepted.items) }
        ensures vars { self.new.held.vars ≡ self.old.held.vars }
        ensures tells { is_some (T.told self.new.tracer) ≡ is_some (T.told self.old.tracer) }
        ensures kept { T.kept self.new.tracer ≡ T.kept self.old.tracer }
    {
        let written = copy_of(*self.accepted.allocator(), lits)?;
        self.hold_normal(part, lits)?;
        self.accepted.push((part, written))?;
        Ok(())
    }

    /// Holds the normal form of a clause unless it is a tautology, so that the clause may be accepted.
    fn hold_normal(&mut self, part: Part, lits: &[Lit]) -> Result<(), AllocError>
        requires known { All (λ l. l.var < self.old.held.vars) lits.now }
        requires state { IsState (state_with (T.told self.old.tracer) self.old) }
        ensures state { OnOk result (IsState (accepting part lits.now (state_with (T.told self.new.tracer) self.new))) }
        ensures held { OnOk result (HoldsNext lits.now (state_clauses self.old) (state_clauses self.new)) }
        ensures told { OnOk result (TellsNext part lits.now (T.told self.old.tracer) (T.told self.new.tracer)) }
        ensures vars { self.new.held.vars ≡ self.old.held.vars }
        ensures accepted { self.new.accepted.items ≡ self.old.accepted.items }
        ensures root { self.new.root ≡ self.old.root }
        ensures tells { is_some (T.told self.new.tracer) ≡ is_some (T.told self.old.tracer) }
        ensures kept { T.kept self.new.tracer ≡ T.kept self.old.tracer }
    {
        match normal(*self.accepted.allocator(), lits)? {
            Normal::Clause(clause) => self.hold(part, clause.as_slice()),
            Normal::Tautology => Ok(()),
        }
    }

    /// Holds a normal clause, so that one with the same literals may be accepted.
    fn hold(&mut self, part: Part, lits: &[Lit]) -> Result<(), AllocError>
        requires normal { IsNormal lits.now }
        requires known { All (λ l. l.var < self.old.held.vars) lits.now }
        requires state { IsState (state_with (T.told self.old.tracer) self.old) }
        ensures state { OnOk result (MayAccept part lits.now (state_with (T.told self.new.tracer) self.new)) }
        ensures held { OnOk result (state_clauses self.new ≡ state_clauses self.old ++ lits.now ∷ []) }
        ensures told { OnOk result ((id : ℕ) × Appends (T.told self.old.tracer) (T.told self.new.tracer) (original_step id part.0 lits.now)) }
        ensures vars { self.new.held.vars ≡ self.old.held.vars }
        ensures accepted { self.new.accepted.items ≡ self.old.accepted.items }
        ensures root { self.new.root ≡ self.old.root }
        ensures tells { is_some (T.told self.new.tracer) ≡ is_some (T.told self.old.tracer) }
        ensures kept { T.kept self.new.tracer ≡ T.kept self.old.tracer }
    {
        craig_proof::laws::covered_chain_is_told();
        let id = self.held.hold(lits, ORIGINAL)?;
        self.tracer.original(id, part, lits)?;
        self.held_ids.push(id)?;
        Ok(())
    }

    /// Searches for a model of the accepted clauses and the assumptions.
    pub(crate) fn solve(
        &mut self,
        assumptions: &[(Part, Lit)],
        limit: Option<u64>,
    ) -> Result<Answer, AllocError>
        requires known { All (λ a. a.1.var < self.old.held.vars) assumptions.now }
        requires limit { limit ≢ Some 0 }
        requires state { IsState (state_with (T.told self.old.tracer) self.old) }
        ensures state { OnOk result (IsState (state_with (T.told self.new.tracer) self.new)) }
        ensures solved { IfOk result (IsSolved (living_view self.old) (living_view self.new) (T.told self.new.tracer) assumptions.now limit) }
        ensures vars { self.new.held.vars ≡ self.old.held.vars }
        ensures accepted { self.new.accepted.items ≡ self.old.accepted.items }
        ensures tells { is_some (T.told self.new.tracer) ≡ is_some (T.told self.old.tracer) }
        ensures kept { T.kept self.new.tracer ≡ T.kept self.old.tracer }
    {
        let alloc = *self.accepted.allocator();
        self.let_learnt_go();
        self.forget_root();
        let held = &mut self.held;
        let order = &mut self.order;
        let tracer = &mut self.tracer;
        let workspace = &mut self.workspace;
        let verdict = search(alloc, held, order, tracer, workspace, assumptions, limit)?;
        self.root = root_of(&verdict);
        self.units = units_of(&verdict);
        answer_for(alloc, held, order, verdict)
    }

    /// Lets the worse half of the clauses go that earlier searches learnt, once enough were learnt.
    fn let_learnt_go(&mut self)
        requires { IsState (state_with (T.told self.old.tracer) self.old) }
        ensures state { IsState (state_with (T.told self.new.tracer) self.new) }
        ensures lets_go { LetsLearntGo (state_with (T.told self.old.tracer) self.old) (state_with (T.told self.new.tracer) self.new) }
        ensures tells { is_some (T.told self.new.tracer) ≡ is_some (T.told self.old.tracer) }
        ensures kept { T.kept self.new.tracer ≡ T.kept self.old.tracer }
    {
        let given = self.held.arena().given();
        let others = (self.held_ids.len() as u64).saturating_add(self.workspace.units());
        let learnt = given.saturating_sub(others);
        if !self.schedule.is_due(learnt) {
            return;
        }
        let mut bar = Bar::new(&self.held, 0);
        for number in 0..given {
            self.let_go_if_bad(ClauseId(number), &mut bar);
        }
        self.held.let_go_all(&[]);
    }

    /// Lets a learnt clause go where it is bad and no reason, and forgets its id.
    fn let_go_if_bad(&mut self, id: ClauseId, bar: &mut Bar)
        requires { IsState (state_with (T.told self.old.tracer) self.old) }
        ensures state { IsState (state_with (T.told self.new.tracer) self.new) }
        ensures lets_go { LetsLearntGo (state_with (T.told self.old.tracer) self.old) (state_with (T.told self.new.tracer) self.new) }
        ensures tells { is_some (T.told self.new.tracer) ≡ is_some (T.told self.old.tracer) }
        ensures kept { T.kept self.new.tracer ≡ T.kept self.old.tracer }
    {
        craig_proof::laws::covered_chain_is_told();
        if !may_go(&self.held, id, bar) {
            return;
        }
        self.held.let_go(id);
        self.tracer.forget(id);
    }

    /// Forgets the root of the last refutation and its units.
    fn forget_root(&mut self)
        requires { IsState (state_with (T.told self.old.tracer) self.old) }
        ensures state { IsState (state_with (T.told self.new.tracer) self.new) }
        ensures forgets { ForgetsRoot (state_with (T.told self.old.tracer) self.old) (state_with (T.told self.new.tracer) self.new) }
        ensures tells { is_some (T.told self.new.tracer) ≡ is_some (T.told self.old.tracer) }
        ensures kept { T.kept self.new.tracer ≡ T.kept self.old.tracer }
    {
        if let Some(root) = self.root {
            self.forget_units(root);
            self.tracer.forget(root);
            self.root = None;
        }
    }

    /// Forgets the units of the last refutation, first to last.
    fn forget_units(&mut self, root: ClauseId)
        requires root { self.old.root ≡ Some root }
        requires state { IsState (state_with (T.told self.old.tracer) self.old) }
        ensures state { IsState (state_with (T.told self.new.tracer) self.new) }
        ensures forgets { ForgetsUnits (state_with (T.told self.old.tracer) self.old) (state_with (T.told self.new.tracer) self.new) }
        ensures units { self.new.units ≡ 0 }
        ensures tells { is_some (T.told self.new.tracer) ≡ is_some (T.told self.old.tracer) }
        ensures kept { T.kept self.new.tracer ≡ T.kept self.old.tracer }
    {
        while self.units > 0 {
            self.forget_unit(root);
        }
    }

    /// Forgets the first unit of the last refutation.
    fn forget_unit(&mut self, root: ClauseId)
        requires some { 0 < self.old.units }
        requires root { self.old.root ≡ Some root }
        requires state { IsState (state_with (T.told self.old.tracer) self.old) }
        ensures state { IsState (state_with (T.told self.new.tracer) self.new) }
        ensures forgets { ForgetsUnits (state_with (T.told self.old.tracer) self.old) (state_with (T.told self.new.tracer) self.new) }
        ensures units { self.new.units + 1 ≡ self.old.units }
        ensures tells { is_some (T.told self.new.tracer) ≡ is_some (T.told self.old.tracer) }
        ensures kept { T.kept self.new.tracer ≡ T.kept self.old.tracer }
    {
        self.tracer.forget(ClauseId(root.0 - self.units));
        self.units -= 1;
    }
}
