//! The look at clauses that wait, and propagation.
ghost use Rattle.std.specs.Prelude.{◌≡◌, ◌+◌, ◌<◌, ◌≤◌, IfOk, OnOk, length};
ghost use Rattle.craig_base.specs.Arena.{IsLive, literals_at};
ghost use Rattle.craig_watch.specs.Held.{IsLengthened};
ghost use Rattle.craig_watch.specs.WatchedState.{Continues, HasLookedAt, HasLookedAtAll, HasPropagated, IsLatest, IsRanked, IsSound, rank_of, shown};

use crate::value::Value;
use crate::watched::Watched;
use craig_base::{ClauseId, Lit};
use std::alloc::AllocError;

impl Watched {
    /// Assigns what held clauses force until nothing changes or a held clause is false, whose id is given then.
    pub fn propagate(&mut self) -> Result<Option<ClauseId>, AllocError>
        requires { IsSound self.old }
        ensures lengthened { IsLengthened (shown self.old) (shown self.new) }
        ensures sound { IsSound self.new }
        ensures propagated { IfOk result (λ conflict. HasPropagated self.new conflict) }
    {
        if let Some(conflict) = self.look_at_waiting()? {
            return Ok(Some(conflict));
        }
        while self.walked < self.assigned.len() {
            let lit = self.assigned.literals()[self.walked].not();
            if let Some(conflict) = self.walk(lit)? {
                return Ok(Some(conflict));
            }
            self.walked += 1;
        }
        Ok(None)
    }

    /// Looks at the clauses that wait, by rising id, until one is false, which is given then.
    fn look_at_waiting(&mut self) -> Result<Option<ClauseId>, AllocError>
        requires { IsSound self.old }
        ensures lengthened { IsLengthened (shown self.old) (shown self.new) }
        ensures sound { IsSound self.new }
        ensures looked { IfOk result (λ conflict. HasLookedAtAll self.new conflict) }
    {
        while self.looked < self.arena.given() {
            if let Some(conflict) = self.look(ClauseId(self.looked))? {
                return Ok(Some(conflict));
            }
            self.looked += 1;
        }
        Ok(None)
    }

    /// Looks at a clause that waits, if one is held under the id: it is watched by literals that are true or free, and
    /// else by those that became false last.
    fn look(&mut self, id: ClauseId) -> Result<Option<ClauseId>, AllocError>
        requires sound { IsSound self.old }
        requires waits { self.old.looked ≤ id.0 }
        ensures continues { Continues self.old self.new }
        ensures looked { IfOk result (λ conflict. HasLookedAt self.new id.0 conflict) }
    {
        if !self.arena.live(id) {
            return Ok(None);
        }
        self.arrange(id, 0)?;
        self.arrange(id, 1)?;
        Ok(self.settle(id))
    }

    /// Assigns what a clause forces whose first two literals are well chosen, or gives it where it is false.
    fn settle(&mut self, id: ClauseId) -> Option<ClauseId>
        requires sound { IsSound self.old }
        requires live { IsLive self.old.arena id.0 }
        requires ranked { IsRanked self.old.assigned.trail (literals_at self.old.arena id.0) 2 }
        ensures continues { Continues self.old self.new }
        ensures looked { HasLookedAt self.new id.0 result }
    {
        let lits = self.arena.lits(id);
        if lits.is_empty() {
            return Some(id);
        }
        let first = lits[0];
        match self.assigned.value(first) {
            Value::True => None,
            Value::False => Some(id),
            Value::Free => {
                if lits.len() < 2 {
                    self.force(first, id);
                    return None;
                }
                match self.assigned.value(lits[1]) {
                    Value::False => {
                        self.force(first, id);
                        None
                    }
                    _ => None,
                }
            }
        }
    }

    /// Puts the literal that is false last, or not at all, to one of the first two places of a clause that waits.
    fn arrange(&mut self, id: ClauseId, place: usize) -> Result<(), AllocError>
        requires sound { IsSound self.old }
        requires live { IsLive self.old.arena id.0 }
        requires waits { self.old.looked ≤ id.0 }
        requires first { place < 2 }
        requires ranked { IsRanked self.old.assigned.trail (literals_at self.old.arena id.0) place }
        ensures continues { Continues self.old self.new }
        ensures live { OnOk result (IsLive self.new.arena id.0) }
        ensures ranked { OnOk result (IsRanked self.new.assigned.trail (literals_at self.new.arena id.0) (place + 1)) }
    {
        if place >= self.arena.lits(id).len() {
            return Ok(());
        }
        let best = self.last_false(id, place);
        if best == place {
            return Ok(());
        }
        if best == 1 {
            self.turn(id);
            return Ok(());
        }
        let old = self.arena.lits(id)[place];
        let index = self.lists.place_of(old, id);
        self.move_watch(id, place, best, index)?;
        Ok(())
    }

    /// The place from this one on of the literal that is false last, or not at all.
    fn last_false(&self, id: ClauseId, from: usize) -> usize
        requires sound { IsSound self.now }
        requires live { IsLive self.now.arena id.0 }
        requires within { from < length (literals_at self.now.arena id.0) }
        ensures from { from ≤ result }
        ensures within { result < length (literals_at self.now.arena id.0) }
        ensures last { IsLatest self.now.assigned.trail (literals_at self.now.arena id.0) from result }
    {
        let lits = self.arena.lits(id);
        let mut best = from;
        for place in from..lits.len() {
            if self.rank(lits[place]) > self.rank(lits[best]) {
                best = place;
            }
        }
        best
    }

    /// How late the literal became false, by its level; a literal that isn't false counts as later than each.
    fn rank(&self, lit: Lit) -> u32
        requires { lit.var < self.now.assigned.vars }
        ensures { result ≡ rank_of self.now.assigned.trail lit }
    {
        if self.assigned.value(lit) == Value::False {
            self.assigned.level_of(lit.var())
        } else {
            4294967295
        }
    }
}
