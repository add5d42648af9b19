//! The literals that are assigned, and the tables by which they are looked up.
ghost use Rattle.std.specs.Prelude.{◌≡◌, ◌<◌, ◌≤◌, ◌++◌, [], ◌∷◌, Some, OnOk, OnErr, length, map, slice_get, if◌then◌else◌};
ghost use Rattle.std.specs.Option.{option_map};
ghost use Rattle.craig_watch.specs.Trail.{IsAssigned, decisions, entry_of, part_up_to, value_under, with_reason};
ghost use Rattle.craig_watch.specs.Assigned.{IsTrail, TakesLast};
ghost use Rattle.craig_watch.specs.declared.value.Value.TheVariants.{Free};

use crate::assignment::Assignment;
use crate::trail_entry::TrailEntry;
use crate::value::Value;
use crate::watch_lists::code;
use craig_base::{ClauseId, Lit, Var};
use std::alloc::{AllocError, Global};
use std::marker::Model;

/// What is noted of a variable that was never assigned.
const UNASSIGNED: Assignment = Assignment {
    place: 0,
    level: 0,
    reason: None,
};

/// The literals that are assigned, in the order in which they were assigned, with their levels and reasons.
///
/// Assigning takes no memory: its room is made where variables become known.
#[derive(Drop)]
pub struct Assigned {
    literals: Vec<Lit>,
    // by variable, its place, level and reason where it is assigned, and else what is left of an earlier assignment
    assignments: Vec<Assignment>,
    // by the code of a literal, its value
    values: Vec<Value>,
}

impl Model for Assigned {
    ghost use Rattle.std.specs.Prelude.{length, vec_capacity};
    ghost use Rattle.craig_watch.specs.Assigned.{AreValues, AssignedView, IsTrail};
    ghost use Rattle.craig_watch.specs.HeldFields.{IsStored, trail_of};

    ghost Value = { AssignedView };

    ghost view = { λ s. record { vars = length s.assignments.items; trail = trail_of s.literals.items s.assignments.items } };

    ghost invariant = { λ s. record { stored : IsStored s.literals.items s.assignments.items (vec_capacity s.literals); values : AreValues s.values.items (length s.assignments.items) (trail_of s.literals.items s.assignments.items); trail : IsTrail (length s.assignments.items) (trail_of s.literals.items s.assignments.items) } };
}

impl Assigned {
    /// No variable is known and nothing is assigned, which takes no memory.
    pub fn new(alloc: Global) -> Assigned
        ensures { result ≡ record { vars = 0; trail = [] } }
    {
        Assigned {
            literals: Vec::new(alloc),
            assignments: Vec::new(alloc),
            values: Vec::new(alloc),
        }
    }

    /// Makes the variables below the number known. After an error all is as before.
    pub fn grow(&mut self, vars: usize) -> Result<(), AllocError>
        requires more { self.old.vars ≤ vars }
        requires few { vars ≤ 2147483648 }
        ensures known { OnOk result (self.new ≡ record self.old { vars = vars }) }
        ensures unchanged { OnErr result (self.new ≡ self.old) }
        ensures is_trail { IsTrail self.new.vars self.new.trail }
    {
        self.literals
            .reserve(vars.saturating_sub(self.literals.len()))?;
        self.values.resize(2 * vars, Value::Free)?;
        self.assignments.resize(vars, UNASSIGNED)?;
        Ok(())
    }

    /// Puts a literal last on the trail.
    pub fn push(&mut self, entry: TrailEntry)
        requires known { entry.literal.var < self.old.vars }
        requires free { value_under self.old.trail entry.literal ≡ Free }
        requires level { entry.level ≡ decisions (self.old.trail ++ entry ∷ []) }
        ensures pushed { self.new ≡ record self.old { trail = self.old.trail ++ entry ∷ [] } }
        ensures is_trail { IsTrail self.new.vars self.new.trail }
    {
        let place = self.literals.len() as u32;
        self.assignments[entry.literal.var().0 as usize] = Assignment {
            place,
            level: entry.level,
            reason: entry.reason,
        };
        self.values[code(entry.literal)] = Value::True;
        self.values[code(entry.literal.not())] = Value::False;
        let _ = self.literals.push(entry.literal);
    }

    /// Takes the last literal from the trail.
    fn take_last(&mut self)
        requires { 0 < length self.old.trail }
        ensures taken { TakesLast self.old self.new }
        ensures is_trail { IsTrail self.new.vars self.new.trail }
    {
        let Some(lit) = self.literals.pop() else {
            unreachable!();
        };
        self.values[code(lit)] = Value::Free;
        self.values[code(lit.not())] = Value::Free;
    }

    /// Goes back to a level that is not above the present one. The cost is that of what is undone.
    pub fn back_to(&mut self, level: u32)
        requires { level ≤ decisions self.old.trail }
        ensures back { self.new ≡ record self.old { trail = part_up_to level self.old.trail } }
        ensures level { decisions self.new.trail ≡ level }
        ensures is_trail { IsTrail self.new.vars self.new.trail }
    {
        while self.level() > level {
            self.take_last();
        }
    }

    /// Makes a clause the reason of a variable that is assigned, where nothing is decided.
    pub fn set_reason(&mut self, var: Var, id: ClauseId)
        requires assigned { IsAssigned self.old.trail var.0 }
        requires level { decisions self.old.trail ≡ 0 }
        ensures rests { self.new ≡ record self.old { trail = with_reason var.0 id self.old.trail } }
        ensures is_trail { IsTrail self.new.vars self.new.trail }
    {
        self.assignments[var.0 as usize].reason = Some(id);
    }

    /// The present decision level, 0 before the first decision.
    pub fn level(&self) -> u32
        ensures value { result ≡ decisions self.now.trail }
        ensures is_trail { IsTrail self.now.vars self.now.trail }
    {
        match self.literals.last() {
            Some(lit) => self.assignments[lit.var().0 as usize].level,
            None => 0,
        }
    }

    /// The number of known variables: they are those below it.
    pub fn vars(&self) -> u32
        ensures value { result ≡ self.now.vars }
        ensures is_trail { IsTrail self.now.vars self.now.trail }
    {
        self.assignments.len() as u32
    }

    /// The true literals in the order in which they were assigned.
    pub fn literals(&self) -> &[Lit]
        ensures { result.now ≡ map (λ e. e.literal) self.now.trail }
    {
        self.literals.as_slice()
    }

    /// How many literals are assigned.
    pub fn len(&self) -> usize
        ensures { result ≡ length self.now.trail }
    {
        self.literals.len()
    }

    /// The value of a literal of a known variable.
    pub fn value(&self, lit: Lit) -> Value
        requires { lit.var < self.now.vars }
        ensures { result ≡ value_under self.now.trail lit }
    {
        self.values[code(lit)]
    }

    /// The position on the trail of a variable that is assigned, counted from 0.
    pub fn place_of(&self, var: Var) -> usize
        requires { IsAssigned self.now.trail var.0 }
        ensures within { result < length self.now.trail }
        ensures entry { slice_get self.now.trail result ≡ entry_of self.now.trail var.0 }
    {
        self.assignments[var.0 as usize].place as usize
    }

    /// The level at which a variable was assigned.
    pub fn level_of(&self, var: Var) -> u32
        requires { IsAssigned self.now.trail var.0 }
        ensures { option_map (λ e. e.level) (entry_of self.now.trail var.0) ≡ Some result }
    {
        self.assignments[var.0 as usize].level
    }

    /// The clause that forced a variable that is assigned, and none where it was decided.
    pub fn reason(&self, var: Var) -> Option<ClauseId>
        requires { IsAssigned self.now.trail var.0 }
        ensures { option_map (λ e. e.reason) (entry_of self.now.trail var.0) ≡ Some result }
    {
        self.assignments[var.0 as usize].reason
    }
}
