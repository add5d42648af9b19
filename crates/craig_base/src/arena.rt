//! The clauses of a solver, each under the id that it was given.
ghost use Rattle.std.specs.Prelude.{◌≡◌, ◌<◌, ℕ, [], Some, None, length, is_some, remove, swap, IfOk, IfSome, OnErr, if◌then◌else◌, nat_eq};
ghost use Rattle.craig_base.specs.Arena.{IsArena, IsLive, clause_at, literals_at, changed, without, with_id, with_clause, ChangesOnly, ChangesClause};

use crate::clause_head::ClauseHead;
use crate::closing_gaps::close_gaps;
use crate::{ClauseId, Flags, Lit};
use std::alloc::{AllocError, Global};
use std::marker::Model;

/// The clauses of a solver, each with its flags.
///
/// Contracts see the live clauses by rising id, and how many ids were given. The table has a head for each id that was
/// given, so ids don't run out before memory does. The literals of all clauses lie in one list, in which those of a
/// clause that was let go stay until gaps are closed. A clause of n literals takes 4n + 24 bytes, beside what the two
/// lists have reserved.
#[derive(Drop)]
pub struct Arena {
    // by id
    heads: Vec<ClauseHead>,
    // those of all clauses, by rising id, with gaps where a clause was let go or got shorter
    literals: Vec<Lit>,
}

impl Model for Arena {
    ghost use Rattle.craig_base.specs.Arena.{ArenaView};

    ghost Value = { ArenaView };

    ghost use Rattle.craig_base.specs.ArenaTable.{AreLaidOut, arena_with};

    ghost view = { λ a. arena_with a.heads.items a.literals.items };

    ghost invariant = { λ a. AreLaidOut a.heads.items a.literals.items };
}

impl Arena {
    /// The arena without clauses, which gave no id and takes no memory.
    pub fn new(alloc: Global) -> Arena
        ensures empty { result ≡ record { clauses = []; given = 0 } }
        ensures is_arena { IsArena result }
    {
        Arena {
            heads: Vec::new(alloc),
            literals: Vec::new(alloc),
        }
    }

    /// Gives the next id, under which no clause is ever live. After an error the arena is as before.
    pub fn number(&mut self) -> Result<ClauseId, AllocError>
        ensures numbered { IfOk result (λ _. self.new ≡ with_id self.old) }
        ensures next { IfOk result (λ id. id.0 ≡ self.old.given) }
        ensures fresh { IfOk result (λ id. clause_at self.old id.0 ≡ None) }
        ensures not_live { IfOk result (λ id. clause_at self.new id.0 ≡ None) }
        ensures unchanged { OnErr result (self.new ≡ self.old) }
        ensures is_arena { IsArena self.new }
    {
        let id = ClauseId(self.given());
        let unused = ClauseHead {
            start: self.literals.len(),
            length: 0,
            glue: 0,
            learnt: false,
            kept: false,
            live: false,
        };
        self.heads.push(unused)?;
        Ok(id)
    }

    /// Adds a clause, which is live under the next id. After an error the arena is as before.
    pub fn add(&mut self, lits: &[Lit], flags: Flags) -> Result<ClauseId, AllocError>
        ensures added { IfOk result (λ _. self.new ≡ with_clause self.old (record { literals = lits.now; flags = flags })) }
        ensures next { IfOk result (λ id. id.0 ≡ self.old.given) }
        ensures fresh { IfOk result (λ id. clause_at self.old id.0 ≡ None) }
        ensures only { IfOk result (λ id. ChangesOnly self.old self.new id.0 (Some (record { literals = lits.now; flags = flags }))) }
        ensures unchanged { OnErr result (self.new ≡ self.old) }
        ensures is_arena { IsArena self.new }
    {
        let id = ClauseId(self.given());
        // room for the head first, so that no literal stays behind where there is none
        self.heads.reserve(1)?;
        let start = self.literals.len();
        self.literals.extend_from_slice(lits)?;
        self.heads.push_reserved(ClauseHead {
            start,
            length: lits.len(),
            glue: flags.glue,
            learnt: flags.learnt,
            kept: flags.kept,
            live: true,
        });
        Ok(id)
    }

    /// How many ids were given: the ids are those below this number.
    pub fn given(&self) -> u64
        ensures value { result ≡ self.now.given }
        ensures is_arena { IsArena self.now }
    {
        self.heads.len() as u64
    }

    /// Whether a clause is live under the id.
    pub fn live(&self, id: ClauseId) -> bool
        ensures live { result ≡ is_some (clause_at self.now id.0) }
        ensures is_arena { IsArena self.now }
    {
        match self.heads.get(id.0 as usize) {
            Some(head) => head.live,
            None => false,
        }
    }

    /// The literals of a live clause, in the order in which they are kept.
    pub fn lits(&self, id: ClauseId) -> &[Lit]
        requires { IsLive self.now id.0 }
        ensures literals { result.now ≡ literals_at self.now id.0 }
        ensures is_arena { IsArena self.now }
    {
        let head = self.heads[id.0 as usize];
        &self.literals[head.start..head.start + head.length]
    }

    /// The flags of a live clause.
    pub fn flags(&self, id: ClauseId) -> Flags
        requires { IsLive self.now id.0 }
        ensures { IfSome (clause_at self.now id.0) (λ c. result ≡ c.flags) }
    {
        self.heads[id.0 as usize].flags()
    }

    /// Sets the flags of a live clause.
    pub fn set_flags(&mut self, id: ClauseId, flags: Flags)
        requires { IsLive self.old id.0 }
        ensures changed { self.new ≡ changed (λ c. record c { flags = flags }) self.old id.0 }
        ensures only { ChangesClause self.old self.new id.0 (λ c. record c { flags = flags }) }
        ensures is_arena { IsArena self.new }
    {
        self.heads[id.0 as usize].set_flags(flags);
    }

    /// Exchanges the literals at two places of a live clause.
    pub fn swap(&mut self, id: ClauseId, left: usize, right: usize)
        requires live { IsLive self.old id.0 }
        requires left { left < length (literals_at self.old id.0) }
        requires right { right < length (literals_at self.old id.0) }
        ensures changed { self.new ≡ changed (λ c. record c { literals = swap c.literals left right }) self.old id.0 }
        ensures only { ChangesClause self.old self.new id.0 (λ c. record c { literals = swap c.literals left right }) }
        ensures is_arena { IsArena self.new }
    {
        let start = self.heads[id.0 as usize].start;
        self.literals.swap(start + left, start + right);
    }

    /// Takes the literal at the place out of a live clause; the later ones move up.
    pub fn shrink(&mut self, id: ClauseId, place: usize)
        requires live { IsLive self.old id.0 }
        requires place { place < length (literals_at self.old id.0) }
        ensures changed { self.new ≡ changed (λ c. record c { literals = remove c.literals place }) self.old id.0 }
        ensures only { ChangesClause self.old self.new id.0 (λ c. record c { literals = remove c.literals place }) }
        ensures is_arena { IsArena self.new }
    {
        let head = &mut self.heads[id.0 as usize];
        let out = head.start + place;
        let end = head.start + head.length;
        head.length -= 1;
        self.literals.copy_within(out + 1..end, out);
    }

    /// Lets a live clause go. Its id is never given again.
    pub fn kill(&mut self, id: ClauseId)
        requires { IsLive self.old id.0 }
        ensures without { self.new ≡ without self.old id.0 }
        ensures only { ChangesOnly self.old self.new id.0 None }
        ensures is_arena { IsArena self.new }
    {
        self.heads[id.0 as usize].live = false;
    }

    /// Closes the gaps that clauses which were let go or got shorter have left, in one walk over all ids that takes no
    /// memory. No id changes.
    pub fn compact(&mut self)
        ensures { self.new ≡ self.old }
    {
        let left = close_gaps(&mut self.heads, &mut self.literals);
        self.literals.truncate(left);
    }
}
