//! The incremental solver, which keeps what a search has learnt for the next one: Eén and Sörensson, "Temporal Induction
//! by Incremental SAT Solving", Electronic Notes in Theoretical Computer Science 89(4), 2003.
ghost use Rattle.std.specs.Prelude.{◌≡◌, ◌≢◌, ℕ, ◌<◌, ◌≤◌, [], true, false, Some, None, All, IfOk, OnOk, OnErr, IsErr, is_some, length, max, slice_index_or};
ghost use Rattle.std.specs.Option.{ForSome};
ghost use Rattle.craig_spec.specs.Chain.{nothing_told};
ghost use Rattle.craig_solver.specs.Answer.{IsDefiniteAnswer, accepted_clauses};
ghost use Rattle.craig_solver.specs.Solver.{IsAdded, IsSolved, StandFor};
ghost use Rattle.craig_solver.specs.Told.{AreAllAccepted, IsRootTold, IsToldOf};

use crate::Answer;
use crate::state::State;
use craig_base::{Lit, Lits, Part};
use craig_proof::Tracer;
use std::alloc::{AllocError, Global};
use std::marker::Model;

/// An incremental solver over dense variables, with a tracer that is told its clauses.
///
/// Contracts see the accepted clauses as they were written, each with its part, the number of known variables, the held
/// clauses that are not learnt, the tracer, the root of the last answer of `solve` if that was a refutation, and whether
/// memory was refused. After an `AllocError` the solver is dead: its accepted clauses are as before, it shows no root, and
/// each later call that can answer `AllocError` does so.
#[derive(Drop)]
pub struct Solver<T: Tracer> {
    state: State<T>,
    dead: bool,
}

impl<T: Tracer> Model for Solver<T> {
    ghost use Rattle.std.specs.Prelude.{◌≡◌, false, [], None, if◌then◌else◌};
    ghost use Rattle.craig_solver.specs.Solver.{SolverView};
    ghost use Rattle.craig_solver.specs.State.{IsState, clauses_under, root_number, state_with};

    ghost Value = { SolverView T };

    ghost view = { λ s. record { accepted = s.state.accepted.items; vars = s.state.held.vars; held = if s.dead then [] else clauses_under s.state.held.arena s.state.held_ids.items; tracer = s.state.tracer; root = if s.dead then None else root_number s.state.root; dead = s.dead } };

    ghost invariant = { λ s. s.dead ≡ false → IsState (state_with (T.told s.state.tracer) s.state) };
}

impl<T: Tracer> Solver<T> {
    /// A solver that accepted no clause and knows no variable. It takes no memory. A tracer that tells its meaning was
    /// told nothing yet.
    pub fn new(alloc: Global, tracer: T) -> Solver<T>
        requires { ForSome (T.told tracer) (λ t. t ≡ nothing_told) }
        ensures { result ≡ record { accepted = []; vars = 0; held = []; tracer = tracer; root = None; dead = false } }
    {
        Solver {
            state: State::new(alloc, tracer),
            dead: false,
        }
    }

    /// Makes all variables below `vars` known. No variable becomes unknown. After an error some of them may be known.
    pub fn reach(&mut self, vars: u32) -> Result<(), AllocError>
        requires { vars ≤ 2147483648 }
        ensures reached { OnOk result (self.new ≡ record self.old { vars = max self.old.vars vars }) }
        ensures accepted { self.new.accepted ≡ self.old.accepted }
        ensures alive { OnOk result (self.new.dead ≡ false) }
        ensures dead { OnErr result (self.new.dead ≡ true) }
        ensures refused { self.old.dead ≡ true → IsErr result }
        ensures tells { is_some (T.told self.new.tracer) ≡ is_some (T.told self.old.tracer) }
        ensures kept { T.kept self.new.tracer ≡ T.kept self.old.tracer }
    {
        if self.dead {
            return Err(AllocError);
        }
        self.dead = true;
        self.state.reach(vars)?;
        self.dead = false;
        Ok(())
    }

    /// Accepts a clause of a part: literals of known variables, in any order, with repeats or opposite ones. It is
    /// stored as written. Unless it is a tautology, it is held without repeats, behind the clauses that were held
    /// before, and the tracer is told of it as an original of its part: also where the same clause or an empty one is
    /// held. The known variables stay the same, after an error too.
    pub fn add(&mut self, part: Part, lits: &[Lit]) -> Result<(), AllocError>
        requires { All (λ l. l.var < self.old.vars) lits.now }
        ensures added { OnOk result (IsAdded part lits.now (T.told self.old.tracer) (T.told self.new.tracer) self.old self.new) }
        ensures unchanged { OnErr result (self.new.accepted ≡ self.old.accepted) }
        ensures vars { self.new.vars ≡ self.old.vars }
        ensures alive { OnOk result (self.new.dead ≡ false) }
        ensures dead { OnErr result (self.new.dead ≡ true) }
        ensures refused { self.old.dead ≡ true → IsErr result }
        ensures tells { is_some (T.told self.new.tracer) ≡ is_some (T.told self.old.tracer) }
        ensures kept { T.kept self.new.tracer ≡ T.kept self.old.tracer }
    {
        if self.dead {
            return Err(AllocError);
        }
        self.dead = true;
        self.state.add(part, lits)?;
        self.dead = false;
        Ok(())
    }

    /// Searches for values of the known variables that make all accepted clauses and all assumptions true.
    ///
    /// Each assumption is a literal of a known variable, in a part. The answer is a model; or assumptions, by their
    /// places, that no assignment makes true together with the accepted clauses; or as many learnt clauses as `limit`
    /// says, which is not 0: lemmas, each of which follows from the accepted clauses, without the assumptions, has
    /// variables of theirs alone, is no tautology and contains none of them. Without a limit no lemmas are answered.
    /// A tracer that tells its meaning was then told the empty clause of a refutation, its root,
    /// which rests on accepted clauses and on the units of these assumptions alone. The root of the answer before and
    /// its units are forgotten. The accepted clauses stay, and the held ones may change the order of their literals.
    ///
    /// What was learnt is kept for the solves after this one, but for the worse half of it once much was learnt, which is
    /// forgotten.
    pub fn solve(
        &mut self,
        assumptions: &[(Part, Lit)],
        limit: Option<u64>,
    ) -> Result<Answer, AllocError>
        requires known { All (λ a. a.1.var < self.old.vars) assumptions.now }
        requires limit { limit ≢ Some 0 }
        ensures solved { IfOk result (IsSolved self.old self.new (T.told self.new.tracer) assumptions.now limit) }
        ensures decided { limit ≡ None → IfOk result IsDefiniteAnswer }
        ensures accepted { self.new.accepted ≡ self.old.accepted }
        ensures vars { self.new.vars ≡ self.old.vars }
        ensures alive { OnOk result (self.new.dead ≡ false) }
        ensures dead { OnErr result (self.new.dead ≡ true) }
        ensures refused { self.old.dead ≡ true → IsErr result }
        ensures tells { is_some (T.told self.new.tracer) ≡ is_some (T.told self.old.tracer) }
        ensures kept { T.kept self.new.tracer ≡ T.kept self.old.tracer }
    {
        if self.dead {
            return Err(AllocError);
        }
        self.dead = true;
        let answer = self.state.solve(assumptions, limit)?;
        self.dead = false;
        Ok(answer)
    }

    /// The number of known variables: they are those below it.
    pub fn vars(&self) -> u32
        ensures value { result ≡ self.now.vars }
        ensures few { self.now.vars ≤ 2147483648 }
    {
        self.state.held.vars()
    }

    /// The accepted clauses as they were written, each with its part, first to last.
    pub fn accepted(&self) -> &[(Part, Lits)]
        ensures value { result.now ≡ self.now.accepted }
        ensures known { self.now.dead ≡ false → All (λ a. All (λ l. l.var < self.now.vars) a.1) self.now.accepted }
    {
        self.state.accepted.as_slice()
    }

    /// How many clauses are held that are not learnt. A dead solver shows none.
    pub fn held_len(&self) -> usize
        ensures value { result ≡ length self.now.held }
        ensures stand { self.now.dead ≡ false → StandFor (accepted_clauses self.now.accepted) self.now.held }
    {
        if self.dead {
            return 0;
        }
        self.state.held_ids.len()
    }

    /// The literals of a held clause that is not learnt, in any order. These clauses are counted from 0, in the order
    /// in which they were added.
    pub fn held(&self, place: usize) -> &[Lit]
        requires { place < length self.now.held }
        ensures { result.now ≡ slice_index_or self.now.held place [] }
    {
        let id = self.state.held_ids[place];
        self.state.held.arena().lits(id)
    }

    /// The tracer. Where it tells its meaning, the steps that it keeps stand on one another, each original is an
    /// accepted clause or the unit of an assumption, each accepted clause that is no tautology is an original, and the
    /// root of the last answer, if that was a refutation, is an empty clause that isn't forgotten. Where it was none, no
    /// unit is left that isn't forgotten.
    pub fn tracer(&self) -> &T
        ensures value { result.now ≡ self.now.tracer }
        ensures told { self.now.dead ≡ false → ForSome (T.told self.now.tracer) (IsToldOf self.now.accepted) }
        ensures units { self.now.dead ≡ false → self.now.root ≡ None → ForSome (T.told self.now.tracer) (AreAllAccepted self.now.accepted) }
        ensures root { IsRootTold (T.told self.now.tracer) self.now.root }
        ensures dead { self.now.dead ≡ true → self.now.root ≡ None }
    {
        &self.state.tracer
    }
}
