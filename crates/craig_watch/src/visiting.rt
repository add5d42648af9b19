//! The walk of the list of a literal that became false.
ghost use Rattle.std.specs.Prelude.{◌≡◌, ◌<◌, None, IfOk, OnOk, OnErr, length, slice_index_or};
ghost use Rattle.craig_spec.specs.Literal.{Literal};
ghost use Rattle.craig_base.specs.Arena.{IsLive, literals_at};
ghost use Rattle.craig_watch.specs.declared.beside.Beside.TheVariants.{Other};
ghost use Rattle.craig_watch.specs.Trail.{IsFalse, decisions, level_at};
ghost use Rattle.craig_watch.specs.Watches.{Watches, list_of};
ghost use Rattle.craig_watch.specs.WatchedState.{Continues, Exchanges, HasVisited, HasWalkedList, IsForcedBy, IsOpenPlace, IsSound, IsVisiting, LosesEntry, MayMove, StandsFirst, ids_of, with_forced};

use crate::beside::Beside;
use crate::trail_entry::TrailEntry;
use crate::value::Value;
use crate::visit::Visit;
use crate::watched::Watched;
use craig_base::{ClauseId, Lit};
use std::alloc::AllocError;

impl Watched {
    /// Assigns a free literal that a held clause forces.
    pub fn force(&mut self, literal: Lit, id: ClauseId)
        requires sound { IsSound self.old }
        requires forced { IsForcedBy self.old literal id.0 }
        ensures forced { self.new ≡ with_forced self.old literal id }
        ensures continues { Continues self.old self.new }
    {
        let level = self.assigned.level();
        self.assigned.push(TrailEntry {
            literal,
            level,
            reason: Some(id),
        });
    }

    /// Exchanges the first two literals of a clause.
    pub fn turn(&mut self, id: ClauseId)
        requires sound { IsSound self.old }
        requires live { IsLive self.old.arena id.0 }
        requires long { 1 < length (literals_at self.old.arena id.0) }
        ensures turned { Exchanges self.old self.new id 0 1 }
        ensures lists { self.new.lists ≡ self.old.lists }
    {
        self.arena.swap(id, 0, 1);
    }

    /// Lets a later literal watch a clause in the place of one of the first two, whose entry for it is given. After an
    /// error all is as before.
    pub fn move_watch(
        &mut self,
        id: ClauseId,
        place: usize,
        other: usize,
        index: usize,
    ) -> Result<(), AllocError>
        requires { MayMove self.old id place other index }
        ensures continues { Continues self.old self.new }
        ensures moved { OnOk result (Exchanges self.old self.new id place other) }
        ensures entry { OnOk result ((d : Literal) → LosesEntry self.old self.new (slice_index_or (literals_at self.old.arena id.0) place d) index) }
        ensures unchanged { OnErr result (self.new ≡ self.old) }
    {
        let lits = self.arena.lits(id);
        let old = lits[place];
        let new = lits[other];
        let blocker = lits[1 - place];
        self.lists.push(new, id, Beside::Blocker(blocker))?;
        self.lists.remove(old, index);
        self.arena.swap(id, place, other);
        Ok(())
    }

    /// A place behind the first two whose literal isn't false.
    pub fn open_place(&self, id: ClauseId) -> Option<usize>
        requires sound { IsSound self.now }
        requires live { IsLive self.now.arena id.0 }
        ensures { IsOpenPlace self.now.assigned.trail (literals_at self.now.arena id.0) result }
    {
        let lits = self.arena.lits(id);
        for place in 2..lits.len() {
            if self.assigned.value(lits[place]) != Value::False {
                return Some(place);
            }
        }
        None
    }

    /// Walks the list of a literal that became false, until a clause is false, which is given then.
    pub fn walk(&mut self, lit: Lit) -> Result<Option<ClauseId>, AllocError>
        requires sound { IsSound self.old }
        requires known { lit.var < self.old.assigned.vars }
        requires falsified { IsFalse self.old.assigned.trail lit }
        requires present { level_at self.old.assigned.trail lit ≡ decisions self.old.assigned.trail }
        ensures continues { Continues self.old self.new }
        ensures walked { IfOk result (λ conflict. HasWalkedList self.new lit conflict) }
    {
        let mut index = 0;
        while index < self.lists.len(lit) {
            match self.visit(lit, index)? {
                Visit::Stays => index += 1,
                Visit::Moved => {}
                Visit::Conflict(id) => return Ok(Some(id)),
            }
        }
        Ok(None)
    }

    /// Visits one entry of the list.
    fn visit(&mut self, lit: Lit, index: usize) -> Result<Visit, AllocError>
        requires { IsVisiting self.old lit index }
        ensures continues { Continues self.old self.new }
        ensures visited { IfOk result (λ v. HasVisited self.old self.new lit index v) }
    {
        match self.lists.beside(lit, index) {
            Beside::Other(other) => Ok(self.visit_pair(lit, index, other)),
            Beside::Blocker(blocker) => {
                match self.assigned.value(blocker) {
                    Value::True => Ok(Visit::Stays),
                    _ => self.visit_long(lit, index),
                }
            }
        }
    }

    /// Visits the entry of a clause of two literals, of which this is the other one.
    fn visit_pair(&mut self, lit: Lit, index: usize, other: Lit) -> Visit
        requires visiting { IsVisiting self.old lit index }
        requires beside { slice_index_or (list_of self.old.lists lit).beside index (Other other) ≡ Other other }
        ensures continues { Continues self.old self.new }
        ensures visited { HasVisited self.old self.new lit index result }
    {
        match self.assigned.value(other) {
            Value::True => Visit::Stays,
            Value::False => Visit::Conflict(self.lists.id(lit, index)),
            Value::Free => {
                let id = self.lists.id(lit, index);
                self.force(other, id);
                Visit::Stays
            }
        }
    }

    /// At which of the first two places of a clause the literal stands that watches it.
    fn own_place(&self, id: ClauseId, lit: Lit) -> usize
        requires { Watches self.now.arena id.0 lit }
        ensures { StandsFirst (literals_at self.now.arena id.0) lit result }
    {
        if self.arena.lits(id)[0] == lit { 0 } else { 1 }
    }

    /// Visits an entry, and its clause.
    fn visit_long(&mut self, lit: Lit, index: usize) -> Result<Visit, AllocError>
        requires { IsVisiting self.old lit index }
        ensures continues { Continues self.old self.new }
        ensures visited { IfOk result (λ v. HasVisited self.old self.new lit index v) }
    {
        let id = self.lists.id(lit, index);
        let place = self.own_place(id, lit);
        let other = self.arena.lits(id)[1 - place];
        match self.assigned.value(other) {
            Value::True => {
                self.lists.set_beside(lit, index, Beside::Blocker(other));
                Ok(Visit::Stays)
            }
            _ => self.visit_rest(lit, index, id, place),
        }
    }

    /// Moves the watch of a clause that became false, where a literal behind the first two isn't.
    fn visit_rest(
        &mut self,
        lit: Lit,
        index: usize,
        id: ClauseId,
        place: usize,
    ) -> Result<Visit, AllocError>
        requires visiting { IsVisiting self.old lit index }
        requires entry { slice_index_or (ids_of self.old lit) index id ≡ id }
        requires own { StandsFirst (literals_at self.old.arena id.0) lit place }
        ensures continues { Continues self.old self.new }
        ensures visited { IfOk result (λ v. HasVisited self.old self.new lit index v) }
    {
        match self.open_place(id) {
            Some(open) => {
                self.move_watch(id, place, open, index)?;
                Ok(Visit::Moved)
            }
            None => Ok(self.visit_unit(lit, index, id, place)),
        }
    }

    /// Visits a clause of which only the other watch may not be false.
    fn visit_unit(&mut self, lit: Lit, index: usize, id: ClauseId, place: usize) -> Visit
        requires visiting { IsVisiting self.old lit index }
        requires entry { slice_index_or (ids_of self.old lit) index id ≡ id }
        requires own { StandsFirst (literals_at self.old.arena id.0) lit place }
        requires rest { IsOpenPlace self.old.assigned.trail (literals_at self.old.arena id.0) None }
        ensures continues { Continues self.old self.new }
        ensures visited { HasVisited self.old self.new lit index result }
    {
        let other = self.arena.lits(id)[1 - place];
        match self.assigned.value(other) {
            Value::True => Visit::Stays,
            Value::False => Visit::Conflict(id),
            Value::Free => {
                self.force(other, id);
                Visit::Stays
            }
        }
    }
}
