//! The clauses that one literal watches.
ghost use Rattle.std.specs.Prelude.{◌≡◌, ◌<◌, ◌≤◌, ◌+◌, [], OnOk, OnErr, Contains, length, slice_index_or, slice_set, take, ◌-◌};
ghost use Rattle.craig_watch.specs.Watches.{IsSwept, IsTakenOut, WatchListView, no_watches, with_watch};

use crate::beside::Beside;
use craig_base::{Arena, ClauseId};
use std::alloc::{AllocError, Global};
use std::marker::Model;

/// The clauses that a literal watches, in any order, and beside each a literal that is looked at before the clause.
#[derive(Drop)]
pub struct WatchList {
    // by entry, the clause
    ids: Vec<ClauseId>,
    // by entry, what is looked at first
    beside: Vec<Beside>,
}

impl Model for WatchList {
    ghost use Rattle.std.specs.Prelude.{◌≡◌, length};
    ghost use Rattle.craig_watch.specs.Watches.{WatchListView};

    ghost Value = { WatchListView };

    ghost view = { λ w. record { ids = w.ids.items; beside = w.beside.items } };

    ghost invariant = { λ w. length w.beside.items ≡ length w.ids.items };
}

impl WatchList {
    /// The empty list, which takes no memory.
    pub fn new(alloc: Global) -> WatchList
        ensures { result ≡ no_watches }
    {
        WatchList {
            ids: Vec::new(alloc),
            beside: Vec::new(alloc),
        }
    }

    /// The clauses.
    pub fn ids(&self) -> &[ClauseId]
        ensures { result.now ≡ self.now.ids }
    {
        self.ids.as_slice()
    }

    /// How many clauses there are.
    pub fn len(&self) -> usize
        ensures ids { result ≡ length self.now.ids }
        ensures beside { result ≡ length self.now.beside }
    {
        self.ids.len()
    }

    /// The clause of the entry.
    pub fn id(&self, index: usize) -> ClauseId
        requires { index < length self.now.ids }
        ensures { result ≡ slice_index_or self.now.ids index result }
    {
        self.ids[index]
    }

    /// What stands beside the entry.
    pub fn beside(&self, index: usize) -> Beside
        requires { index < length self.now.ids }
        ensures { result ≡ slice_index_or self.now.beside index result }
    {
        self.beside[index]
    }

    /// Appends an entry. After an error the list is as before.
    pub fn push(&mut self, id: ClauseId, beside: Beside) -> Result<(), AllocError>
        ensures pushed { OnOk result (self.new ≡ with_watch self.old id beside) }
        ensures unchanged { OnErr result (self.new ≡ self.old) }
    {
        self.ids.push(id)?;
        if self.beside.push(beside).is_err() {
            self.ids.pop();
            return Err(AllocError);
        }
        Ok(())
    }

    /// Takes the last entry out.
    pub fn pop(&mut self)
        ensures ids { self.new.ids ≡ take (length self.old.ids - 1) self.old.ids }
        ensures beside { self.new.beside ≡ take (length self.old.beside - 1) self.old.beside }
    {
        self.ids.pop();
        self.beside.pop();
    }

    /// Takes an entry out; the last one takes its place.
    pub fn remove(&mut self, index: usize)
        requires { index < length self.old.ids }
        ensures ids { IsTakenOut index self.old.ids self.new.ids }
        ensures beside { IsTakenOut index self.old.beside self.new.beside }
    {
        self.ids.swap_remove(index);
        self.beside.swap_remove(index);
    }

    /// Takes the entries of clauses that aren't live out.
    pub fn keep_live(&mut self, arena: &Arena)
        ensures { IsSwept arena.now 0 self.old self.new }
    {
        let mut index = self.len();
        while index > 0 {
            index -= 1;
            self.keep_if_live(arena, index);
        }
    }

    /// Takes the entry out if its clause isn't live.
    fn keep_if_live(&mut self, arena: &Arena, index: usize)
        requires { index < length self.old.ids }
        ensures within { index ≤ length self.new.ids }
        ensures swept { (start : WatchListView) → IsSwept arena.now (index + 1) start self.old → IsSwept arena.now index start self.new }
    {
        if !arena.live(self.id(index)) {
            self.remove(index);
        }
    }

    /// Puts another literal beside an entry.
    pub fn set_beside(&mut self, index: usize, beside: Beside)
        requires { index < length self.old.ids }
        ensures { self.new ≡ record self.old { beside = slice_set self.old.beside index beside } }
    {
        self.beside[index] = beside;
    }

    /// The entry of a clause that is in the list; one that came late is found soon.
    pub fn place_of(&self, id: ClauseId) -> usize
        requires { Contains self.now.ids id }
        ensures within { result < length self.now.ids }
        ensures there { slice_index_or self.now.ids result id ≡ id }
    {
        let mut index = self.ids.len();
        while index > 0 {
            index -= 1;
            if self.ids[index] == id {
                return index;
            }
        }
        unreachable!()
    }
}
