//! Clauses come and go under a trail, which is lengthened by decisions and goes back.
ghost use Rattle.std.specs.Prelude.{◌≡◌, ◌≢◌, ◌+◌, ◌<◌, ◌≤◌, [], ◌∷◌, Some, None, ℕ, All, AllPairs, IfOk, OnErr, OnOk, length};
ghost use Rattle.craig_spec.specs.Literal.{Literal};
ghost use Rattle.craig_base.specs.Literals.{literal_code};
ghost use Rattle.craig_watch.specs.Watches.{WatchesBoth, beside_for, list_of, without_all};
ghost use Rattle.craig_base.specs.Arena.{ChangesClause, ChangesOnly, IsArena, IsLive, changed, clause_at, without};
ghost use Rattle.craig_base.specs.Clauses.{IsNormal};
ghost use Rattle.craig_watch.specs.Trail.{decisions, part_up_to, value_under, with_reason};
ghost use Rattle.craig_watch.specs.Held.{IsComplete, MayBeHeld, held_clause, nothing_held, with_decision, with_held};
ghost use Rattle.craig_watch.specs.WatchedState.{IsSound, shown};
ghost use Rattle.craig_watch.specs.declared.value.Value.TheVariants.{Free, True};

use crate::assigned::Assigned;
use crate::beside::Beside;
use crate::trail_entry::TrailEntry;
use crate::watch_lists::WatchLists;
use crate::watched::Watched;
use craig_base::{Arena, ClauseId, Flags, Lit};
use std::alloc::{AllocError, Global};

impl Watched {
    /// No clause, no known variable and an empty trail, which takes no memory.
    pub fn new(alloc: Global) -> Watched
        ensures shown { shown result ≡ nothing_held }
        ensures sound { IsSound result }
    {
        Watched {
            arena: Arena::new(alloc),
            assigned: Assigned::new(alloc),
            lists: WatchLists::new(alloc),
            looked: 0,
            walked: 0,
        }
    }

    /// Makes the variables below the number known. After an error all is shown as before.
    pub fn grow(&mut self, vars: usize) -> Result<(), AllocError>
        requires sound { IsSound self.old }
        requires more { self.old.assigned.vars ≤ vars }
        requires few { vars ≤ 2147483648 }
        ensures known { OnOk result (shown self.new ≡ record (shown self.old) { vars = vars }) }
        ensures unchanged { OnErr result (shown self.new ≡ shown self.old) }
        ensures sound { IsSound self.new }
    {
        self.lists.grow(2 * vars)?;
        self.assigned.grow(vars)?;
        Ok(())
    }

    /// Gives the next id of a clause.
    pub fn number(&mut self) -> Result<ClauseId, AllocError>
        requires sound { IsSound self.old }
        ensures numbered { OnOk result (shown self.new ≡ record (shown self.old) { arena = record self.old.arena { given = self.old.arena.given + 1 } }) }
        ensures next { IfOk result (λ id. id.0 ≡ self.old.arena.given) }
        ensures fresh { IfOk result (λ id. clause_at self.old.arena id.0 ≡ None) }
        ensures unchanged { OnErr result (shown self.new ≡ shown self.old) }
        ensures sound { IsSound self.new }
    {
        self.arena.number()
    }

    /// Sets the flags of a held clause.
    pub fn set_flags(&mut self, id: ClauseId, flags: Flags)
        requires sound { IsSound self.old }
        requires live { IsLive self.old.arena id.0 }
        ensures changed { shown self.new ≡ record (shown self.old) { arena = changed (λ c. record c { flags = flags }) self.old.arena id.0 } }
        ensures only { ChangesClause self.old.arena self.new.arena id.0 (λ c. record c { flags = flags }) }
        ensures sound { IsSound self.new }
    {
        self.arena.set_flags(id, flags);
    }

    /// Holds a clause under the next id.
    pub fn hold(&mut self, lits: &[Lit], flags: Flags) -> Result<ClauseId, AllocError>
        requires sound { IsSound self.old }
        requires normal { IsNormal lits.now }
        requires known { All (λ l. l.var < self.old.assigned.vars) lits.now }
        requires fits { MayBeHeld (shown self.old) lits.now }
        ensures held { OnOk result (shown self.new ≡ with_held (shown self.old) lits.now flags) }
        ensures next { IfOk result (λ id. id.0 ≡ self.old.arena.given) }
        ensures fresh { IfOk result (λ id. clause_at self.old.arena id.0 ≡ None) }
        ensures only { IfOk result (λ id. ChangesOnly self.old.arena self.new.arena id.0 (Some (record { literals = lits.now; flags = flags }))) }
        ensures unchanged { OnErr result (shown self.new ≡ shown self.old) }
        ensures sound { IsSound self.new }
    {
        if lits.len() < 2 {
            return self.arena.add(lits, flags);
        }
        self.hold_watched(lits, flags)
    }

    /// Holds a clause of two or more literals, which the first two watch.
    fn hold_watched(&mut self, lits: &[Lit], flags: Flags) -> Result<ClauseId, AllocError>
        requires sound { IsSound self.old }
        requires long { 1 < length lits.now }
        requires normal { IsNormal lits.now }
        requires known { All (λ l. l.var < self.old.assigned.vars) lits.now }
        requires fits { MayBeHeld (shown self.old) lits.now }
        ensures held { OnOk result (shown self.new ≡ with_held (shown self.old) lits.now flags) }
        ensures next { IfOk result (λ id. id.0 ≡ self.old.arena.given) }
        ensures fresh { IfOk result (λ id. clause_at self.old.arena id.0 ≡ None) }
        ensures only { IfOk result (λ id. ChangesOnly self.old.arena self.new.arena id.0 (Some (record { literals = lits.now; flags = flags }))) }
        ensures unchanged { OnErr result (shown self.new ≡ shown self.old) }
        ensures sound { IsSound self.new }
    {
        let id = ClauseId(self.arena.given());
        let first = lits[0];
        let second = lits[1];
        self.watch_both(id, first, second, lits.len() == 2)?;
        match self.arena.add(lits, flags) {
            Ok(given) => Ok(given),
            Err(error) => {
                self.lists.pop(second);
                self.lists.pop(first);
                Err(error)
            }
        }
    }

    /// Puts a clause that is held next into the lists of the two literals. After an error all is as before.
    fn watch_both(
        &mut self,
        id: ClauseId,
        first: Lit,
        second: Lit,
        pair: bool,
    ) -> Result<(), AllocError>
        requires first { literal_code first < length self.old.lists }
        requires second { literal_code second < length self.old.lists }
        requires differ { first ≢ second }
        ensures watched { OnOk result (WatchesBoth self.old.lists self.new.lists id first second pair) }
        ensures same { OnErr result ((l : Literal) → list_of self.new.lists l ≡ list_of self.old.lists l) }
        ensures rest { self.new ≡ record self.old { lists = self.new.lists } }
        ensures sized { length self.new.lists ≡ length self.old.lists }
    {
        self.lists.push(first, id, beside(pair, second))?;
        match self.lists.push(second, id, beside(pair, first)) {
            Ok(()) => Ok(()),
            Err(error) => {
                self.lists.pop(first);
                Err(error)
            }
        }
    }

    /// Lets a held clause go, which is the reason of no literal on the trail.
    pub fn let_go(&mut self, id: ClauseId)
        requires sound { IsSound self.old }
        requires live { IsLive self.old.arena id.0 }
        requires no_reason { All (λ e. e.reason ≢ Some id) self.old.assigned.trail }
        ensures without { shown self.new ≡ record (shown self.old) { arena = without self.old.arena id.0 } }
        ensures only { ChangesOnly self.old.arena self.new.arena id.0 None }
        ensures sound { IsSound self.new }
    {
        let lits = self.arena.lits(id);
        if lits.len() < 2 {
            self.arena.kill(id);
            return;
        }
        let first = lits[0];
        let second = lits[1];
        let place = self.lists.place_of(first, id);
        self.lists.remove(first, place);
        let index = self.lists.place_of(second, id);
        self.lists.remove(second, index);
        self.arena.kill(id);
    }

    /// Lets held clauses go, of which none is the reason of a literal on the trail. Each list is walked once.
    pub fn let_go_all(&mut self, ids: &[ClauseId])
        requires sound { IsSound self.old }
        requires live { All (λ id. IsLive self.old.arena id.0) ids.now }
        requires distinct { AllPairs (λ i j. i ≢ j) ids.now }
        requires no_reason { All (λ id. All (λ e. e.reason ≢ Some id) self.old.assigned.trail) ids.now }
        ensures without { shown self.new ≡ record (shown self.old) { arena = without_all self.old.arena ids.now } }
        ensures gone { All (λ id. clause_at self.new.arena id.0 ≡ None) ids.now }
        ensures others { (k : ℕ) → All (λ id. k ≢ id.0) ids.now → clause_at self.new.arena k ≡ clause_at self.old.arena k }
        ensures sound { IsSound self.new }
    {
        kill_all(&mut self.arena, ids);
        self.lists.keep_live(&self.arena);
    }

    /// Opens a level and assigns the literal as its decision.
    pub fn decide(&mut self, literal: Lit)
        requires sound { IsSound self.old }
        requires known { literal.var < self.old.assigned.vars }
        requires free { value_under self.old.assigned.trail literal ≡ Free }
        requires complete { IsComplete self.old.arena self.old.assigned.trail }
        ensures decided { shown self.new ≡ with_decision (shown self.old) literal }
        ensures sound { IsSound self.new }
    {
        let looked = if self.walked < self.assigned.len() {
            0
        } else {
            self.looked
        };
        self.looked = looked;
        self.walked = self.assigned.len();
        let level = self.assigned.level() + 1;
        self.assigned.push(TrailEntry {
            literal,
            level,
            reason: None,
        });
    }

    /// Makes the held unit clause of a true literal its reason, where nothing is decided.
    pub fn set_reason(&mut self, literal: Lit, id: ClauseId)
        requires sound { IsSound self.old }
        requires level { decisions self.old.assigned.trail ≡ 0 }
        requires true_literal { value_under self.old.assigned.trail literal ≡ True }
        requires unit { held_clause self.old.arena id.0 ≡ Some (literal ∷ []) }
        ensures rests { shown self.new ≡ record (shown self.old) { trail = with_reason literal.var id self.old.assigned.trail } }
        ensures sound { IsSound self.new }
    {
        self.assigned.set_reason(literal.var(), id);
    }

    /// Goes back to a level that is not above the present one.
    pub fn back_to(&mut self, level: u32)
        requires sound { IsSound self.old }
        requires present { level ≤ decisions self.old.assigned.trail }
        ensures back { shown self.new ≡ record (shown self.old) { trail = part_up_to level self.old.assigned.trail; level = level } }
        ensures sound { IsSound self.new }
    {
        self.assigned.back_to(level);
        self.walked = self.walked.min(self.assigned.len());
    }
}

/// Takes the clauses of the ids out of the arena, and closes its gaps.
fn kill_all(arena: &mut Arena, ids: &[ClauseId])
    requires live { All (λ id. IsLive arena.old id.0) ids.now }
    requires distinct { AllPairs (λ i j. i ≢ j) ids.now }
    ensures without { arena.new ≡ without_all arena.old ids.now }
    ensures is_arena { IsArena arena.new }
{
    for id in ids {
        arena.kill(*id);
    }
    arena.compact();
    let _ = arena.given();
}

/// What stands beside the entry of a clause, of two literals or more, of which this is one.
fn beside(pair: bool, other: Lit) -> Beside
    ensures { result ≡ beside_for pair other }
{
    if pair {
        Beside::Other(other)
    } else {
        Beside::Blocker(other)
    }
}
