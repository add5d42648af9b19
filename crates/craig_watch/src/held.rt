//! Held clauses and their trail.
//!
//! A trail of literals with decision levels and reasons is that of Marques-Silva and Sakallah, "GRASP", IEEE
//! Transactions on Computers 48, 1999, and its stack of assigned literals that of Eén and Sörensson, "An Extensible
//! SAT-solver", SAT 2003.
ghost use Rattle.std.specs.Prelude.{◌≡◌, ◌≢◌, ◌<◌, ◌≤◌, [], ◌∷◌, false, true, Some, None, ℕ, All, AllPairs, IfOk, IfSome, OnOk, OnErr, IsErr, length, map, max, nat_lt, slice_get};
ghost use Rattle.std.specs.Option.{option_map};
ghost use Rattle.craig_base.specs.Arena.{IsLive, ChangesClause, ChangesOnly, changed, clause_at, with_id, without};
ghost use Rattle.craig_base.specs.Clauses.{IsNormal};
ghost use Rattle.craig_watch.specs.Trail.{IsAssigned, entry_of, part_up_to, value_under, with_reason};
ghost use Rattle.craig_watch.specs.Held.{IsComplete, IsConsistent, IsFalsified, IsLengthened, IsRefused, MayBeHeld, held_clause, nothing_held, with_decision, with_held};
ghost use Rattle.craig_watch.specs.Watches.{AreWatchers, without_all};
ghost use Rattle.craig_watch.specs.declared.value.Value.TheVariants.{Free, True};

use crate::value::Value;
use crate::watched::Watched;
use craig_base::{Arena, ClauseId, Flags, Lit, Var};
use std::alloc::{AllocError, Global};
use std::marker::Model;

/// The clauses that a solver holds, and the trail of the literals that are assigned.
///
/// Variables and literals are dense. Contracts see the clauses, the number of known variables, the trail, the
/// present decision level, and whether memory was refused. Each literal on the trail has its level, which is the
/// number of decisions up to it, and, unless it was decided, its reason, a held clause whose other literals were
/// false before. After an `AllocError` the value is dead: the clauses are the same, and each later call that can
/// answer `AllocError` does so.
#[derive(Drop)]
pub struct Held {
    // the clauses, the trail and the lists of watches
    watched: Watched,
    dead: bool,
}

impl Model for Held {
    ghost use Rattle.craig_watch.specs.Trail.{decisions};
    ghost use Rattle.craig_watch.specs.Held.{HeldView};
    ghost use Rattle.craig_watch.specs.WatchedState.{IsSound};

    ghost Value = { HeldView };

    ghost view = { λ h. record { arena = h.watched.arena; vars = h.watched.assigned.vars; trail = h.watched.assigned.trail; level = decisions h.watched.assigned.trail; dead = h.dead } };

    ghost invariant = { λ h. IsSound h.watched };
}

impl Held {
    /// No clause, no known variable and an empty trail, which takes no memory.
    pub fn new(alloc: Global) -> Held
        ensures { result ≡ nothing_held }
    {
        Held {
            watched: Watched::new(alloc),
            dead: false,
        }
    }

    /// Makes all variables below `vars` known. No variable becomes unknown. This makes the room of the trail too,
    /// so that assigning takes no memory.
    pub fn grow(&mut self, vars: u32) -> Result<(), AllocError>
        requires { vars ≤ 2147483648 }
        ensures grown { OnOk result (self.new ≡ record self.old { vars = max self.old.vars vars }) }
        ensures alive { OnOk result (self.new.dead ≡ false) }
        ensures dead { OnErr result (self.new.dead ≡ true) }
        ensures refused { self.old.dead ≡ true → IsErr result }
        ensures unchanged { OnErr result (self.new ≡ record self.old { dead = true }) }
        ensures consistent { IsConsistent self.new }
    {
        if self.dead {
            return Err(AllocError);
        }
        self.dead = true;
        if vars > self.vars() {
            self.watched.grow(vars as usize)?;
        }
        self.dead = false;
        Ok(())
    }

    /// Gives the next id of a clause, under which nothing is ever held.
    pub fn number(&mut self) -> Result<ClauseId, AllocError>
        ensures numbered { OnOk result (self.new ≡ record self.old { arena = with_id self.old.arena }) }
        ensures next { IfOk result (λ id. id.0 ≡ self.old.arena.given) }
        ensures fresh { IfOk result (λ id. clause_at self.old.arena id.0 ≡ None) }
        ensures alive { OnOk result (self.new.dead ≡ false) }
        ensures dead { OnErr result (self.new.dead ≡ true) }
        ensures refused { self.old.dead ≡ true → IsErr result }
        ensures unchanged { OnErr result (self.new ≡ record self.old { dead = true }) }
        ensures consistent { IsConsistent self.new }
    {
        if self.dead {
            return Err(AllocError);
        }
        self.dead = true;
        let id = self.watched.number()?;
        self.dead = false;
        Ok(id)
    }

    /// Holds a clause under the next id. The literals stay in their order.
    pub fn hold(&mut self, lits: &[Lit], flags: Flags) -> Result<ClauseId, AllocError>
        requires normal { IsNormal lits.now }
        requires known { All (λ l. l.var < self.old.vars) lits.now }
        requires fits { MayBeHeld self.old lits.now }
        ensures held { OnOk result (self.new ≡ with_held self.old lits.now flags) }
        ensures next { IfOk result (λ id. id.0 ≡ self.old.arena.given) }
        ensures fresh { IfOk result (λ id. clause_at self.old.arena id.0 ≡ None) }
        ensures only { IfOk result (λ id. ChangesOnly self.old.arena self.new.arena id.0 (Some (record { literals = lits.now; flags = flags }))) }
        ensures alive { OnOk result (self.new.dead ≡ false) }
        ensures dead { OnErr result (self.new.dead ≡ true) }
        ensures refused { self.old.dead ≡ true → IsErr result }
        ensures unchanged { OnErr result (self.new ≡ record self.old { dead = true }) }
        ensures consistent { IsConsistent self.new }
    {
        if self.dead {
            return Err(AllocError);
        }
        self.dead = true;
        let id = self.watched.hold(lits, flags)?;
        self.dead = false;
        Ok(id)
    }

    /// Lets a held clause go, which is the reason of no literal on the trail.
    pub fn let_go(&mut self, id: ClauseId)
        requires live { IsLive self.old.arena id.0 }
        requires no_reason { All (λ e. e.reason ≢ Some id) self.old.trail }
        ensures without { self.new ≡ record self.old { arena = without self.old.arena id.0 } }
        ensures only { ChangesOnly self.old.arena self.new.arena id.0 None }
        ensures consistent { IsConsistent self.new }
    {
        self.watched.let_go(id);
    }

    /// Lets held clauses go, each of which is the reason of no literal on the trail, and closes the gaps that they leave.
    /// The cost is that of one walk over all clauses and over the lists of all literals, however many clauses go.
    pub fn let_go_all(&mut self, ids: &[ClauseId])
        requires live { All (λ id. IsLive self.old.arena id.0) ids.now }
        requires distinct { AllPairs (λ i j. i ≢ j) ids.now }
        requires no_reason { All (λ id. All (λ e. e.reason ≢ Some id) self.old.trail) ids.now }
        ensures without { self.new ≡ record self.old { arena = without_all self.old.arena ids.now } }
        ensures gone { All (λ id. clause_at self.new.arena id.0 ≡ None) ids.now }
        ensures others { (k : ℕ) → All (λ id. k ≢ id.0) ids.now → clause_at self.new.arena k ≡ clause_at self.old.arena k }
        ensures consistent { IsConsistent self.new }
    {
        self.watched.let_go_all(ids);
    }

    /// Sets the flags of a held clause.
    pub fn set_flags(&mut self, id: ClauseId, flags: Flags)
        requires { IsLive self.old.arena id.0 }
        ensures changed { self.new ≡ record self.old { arena = changed (λ c. record c { flags = flags }) self.old.arena id.0 } }
        ensures only { ChangesClause self.old.arena self.new.arena id.0 (λ c. record c { flags = flags }) }
        ensures consistent { IsConsistent self.new }
    {
        self.watched.set_flags(id, flags);
    }

    /// Opens a level and assigns the literal as its decision.
    pub fn decide(&mut self, lit: Lit)
        requires known { lit.var < self.old.vars }
        requires free { value_under self.old.trail lit ≡ Free }
        requires complete { IsComplete self.old.arena self.old.trail }
        ensures decided { self.new ≡ with_decision self.old lit }
        ensures consistent { IsConsistent self.new }
    {
        self.watched.decide(lit);
    }

    /// Goes back to a level that is not above the present one. The variables of higher levels become free, and
    /// all others stay as they are. The cost is that of what is undone.
    pub fn back_to(&mut self, level: u32)
        requires { level ≤ self.old.level }
        ensures back { self.new ≡ record self.old { trail = part_up_to level self.old.trail; level = level } }
        ensures consistent { IsConsistent self.new }
    {
        self.watched.back_to(level);
    }

    /// Makes the held unit clause of a true literal its reason, at level 0. The clause that was its reason before may be
    /// let go then.
    pub fn set_reason(&mut self, lit: Lit, id: ClauseId)
        requires level { self.old.level ≡ 0 }
        requires true_literal { value_under self.old.trail lit ≡ True }
        requires unit { held_clause self.old.arena id.0 ≡ Some (lit ∷ []) }
        ensures rests { self.new ≡ record self.old { trail = with_reason lit.var id self.old.trail } }
        ensures consistent { IsConsistent self.new }
    {
        self.watched.set_reason(lit, id);
    }

    /// What the trail says of a literal of a known variable.
    pub fn value(&self, lit: Lit) -> Value
        requires { lit.var < self.now.vars }
        ensures { result ≡ value_under self.now.trail lit }
    {
        self.watched.assigned.value(lit)
    }

    /// The level at which a variable was assigned.
    pub fn level_of(&self, var: Var) -> u32
        requires { IsAssigned self.now.trail var.0 }
        ensures { option_map (λ e. e.level) (entry_of self.now.trail var.0) ≡ Some result }
    {
        self.watched.assigned.level_of(var)
    }

    /// The clause that forced a variable that is assigned, and none where it was decided.
    pub fn reason(&self, var: Var) -> Option<ClauseId>
        requires { IsAssigned self.now.trail var.0 }
        ensures { option_map (λ e. e.reason) (entry_of self.now.trail var.0) ≡ Some result }
    {
        self.watched.assigned.reason(var)
    }

    /// The position on the trail of a variable that is assigned, counted from 0.
    pub fn place_of(&self, var: Var) -> usize
        requires { IsAssigned self.now.trail var.0 }
        ensures within { result < length self.now.trail }
        ensures entry { slice_get self.now.trail result ≡ entry_of self.now.trail var.0 }
    {
        self.watched.assigned.place_of(var)
    }

    /// The present decision level, 0 before the first decision.
    pub fn level(&self) -> u32
        ensures value { result ≡ self.now.level }
        ensures consistent { IsConsistent self.now }
    {
        self.watched.assigned.level()
    }

    /// The number of known variables: they are those below it.
    pub fn vars(&self) -> u32
        ensures value { result ≡ self.now.vars }
        ensures consistent { IsConsistent self.now }
    {
        self.watched.assigned.vars()
    }

    /// Whether the variable is known.
    pub fn known(&self, var: Var) -> bool
        ensures { result ≡ nat_lt var.0 self.now.vars }
    {
        var.0 < self.vars()
    }

    /// The held clauses.
    pub fn arena(&self) -> &Arena
        ensures value { result.now ≡ self.now.arena }
        ensures consistent { IsConsistent self.now }
    {
        &self.watched.arena
    }

    /// The true literals in the order in which they were assigned.
    pub fn trail(&self) -> &[Lit]
        ensures value { result.now ≡ map (λ e. e.literal) self.now.trail }
        ensures consistent { IsConsistent self.now }
    {
        self.watched.assigned.literals()
    }

    /// The ids of the held clauses of two or more literals that have this one among their first two, in any order.
    pub fn watchers(&self, lit: Lit) -> &[ClauseId]
        requires { lit.var < self.now.vars }
        ensures { AreWatchers self.now.arena lit result.now }
    {
        self.watched.lists.ids(lit)
    }

    /// Assigns what held clauses force until nothing changes or a held clause is false, whose id is given then.
    /// Propagation is complete where none is given. The literals of a clause may change their order. After an error
    /// nothing is said of the trail but that it is consistent.
    pub fn propagate(&mut self) -> Result<Option<ClauseId>, AllocError>
        ensures lengthened { OnOk result (IsLengthened self.old self.new) }
        ensures complete { IfOk result (λ conflict. conflict ≡ None → IsComplete self.new.arena self.new.trail) }
        ensures falsified { IfOk result (λ conflict. IfSome conflict (λ id. IsFalsified self.new id.0)) }
        ensures alive { OnOk result (self.new.dead ≡ false) }
        ensures dead { OnErr result (self.new.dead ≡ true) }
        ensures refused { self.old.dead ≡ true → IsErr result }
        ensures same_clauses { OnErr result (IsRefused self.old self.new) }
        ensures consistent { IsConsistent self.new }
    {
        if self.dead {
            return Err(AllocError);
        }
        self.dead = true;
        let conflict = self.watched.propagate()?;
        self.dead = false;
        Ok(conflict)
    }
}
