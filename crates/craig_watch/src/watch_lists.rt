//! The lists of watches of all literals.
ghost use Rattle.std.specs.Prelude.{◌≡◌, ◌<◌, ◌≤◌, [], OnOk, OnErr, Contains, length, slice_index_or};
ghost use Rattle.craig_spec.specs.Literal.{Literal};
ghost use Rattle.craig_base.specs.Literals.{literal_code};
ghost use Rattle.craig_watch.specs.Watches.{ChangesList, IsSwept, TakesWatch, list_of, with_beside, with_watch, without_last};

use crate::beside::Beside;
use crate::watch_list::WatchList;
use craig_base::{Arena, ClauseId, Lit};
use std::alloc::{AllocError, Global};
use std::marker::Model;

/// For each literal the clauses that it watches.
#[derive(Drop)]
pub struct WatchLists {
    // by the code of the literal
    lists: Vec<WatchList>,
}

impl Model for WatchLists {
    ghost use Rattle.std.specs.Prelude.{List};
    ghost use Rattle.craig_watch.specs.Watches.{WatchListView};

    ghost Value = { List WatchListView };

    ghost view = { λ w. w.lists.items };
}

/// Twice the variable of the literal, and one more where it is negated.
pub fn code(lit: Lit) -> usize
    ensures { result ≡ literal_code lit }
{
    2 * lit.var().0 as usize + usize::from(lit.negated())
}

impl WatchLists {
    /// No list, which takes no memory.
    pub fn new(alloc: Global) -> WatchLists
        ensures { result ≡ [] }
    {
        WatchLists {
            lists: Vec::new(alloc),
        }
    }

    /// Makes empty lists until there are as many. After an error there may be some of them.
    pub fn grow(&mut self, count: usize) -> Result<(), AllocError>
        ensures sized { OnOk result (count ≤ length self.new) }
        ensures more { length self.old ≤ length self.new }
        ensures same { (l : Literal) → list_of self.new l ≡ list_of self.old l }
    {
        let alloc = *self.lists.allocator();
        while self.lists.len() < count {
            self.lists.push(WatchList::new(alloc))?;
        }
        Ok(())
    }

    /// The clauses that the literal watches.
    pub fn ids(&self, lit: Lit) -> &[ClauseId]
        requires { literal_code lit < length self.now }
        ensures { result.now ≡ (list_of self.now lit).ids }
    {
        self.lists[code(lit)].ids()
    }

    /// How many clauses the literal watches.
    pub fn len(&self, lit: Lit) -> usize
        requires { literal_code lit < length self.now }
        ensures { result ≡ length (list_of self.now lit).ids }
    {
        self.lists[code(lit)].len()
    }

    /// The clause of an entry.
    pub fn id(&self, lit: Lit, index: usize) -> ClauseId
        requires listed { literal_code lit < length self.now }
        requires within { index < length (list_of self.now lit).ids }
        ensures { result ≡ slice_index_or (list_of self.now lit).ids index result }
    {
        self.lists[code(lit)].id(index)
    }

    /// What stands beside an entry.
    pub fn beside(&self, lit: Lit, index: usize) -> Beside
        requires listed { literal_code lit < length self.now }
        requires within { index < length (list_of self.now lit).ids }
        ensures { result ≡ slice_index_or (list_of self.now lit).beside index result }
    {
        self.lists[code(lit)].beside(index)
    }

    /// Appends an entry. After an error all is as before.
    pub fn push(&mut self, lit: Lit, id: ClauseId, beside: Beside) -> Result<(), AllocError>
        requires { literal_code lit < length self.old }
        ensures pushed { OnOk result (ChangesList self.old self.new lit (with_watch (list_of self.old lit) id beside)) }
        ensures unchanged { OnErr result (self.new ≡ self.old) }
    {
        self.lists[code(lit)].push(id, beside)?;
        Ok(())
    }

    /// Takes the last entry of a list out.
    pub fn pop(&mut self, lit: Lit)
        requires { literal_code lit < length self.old }
        ensures { ChangesList self.old self.new lit (without_last (list_of self.old lit)) }
    {
        self.lists[code(lit)].pop();
    }

    /// Takes an entry out; the last one takes its place.
    pub fn remove(&mut self, lit: Lit, index: usize)
        requires listed { literal_code lit < length self.old }
        requires within { index < length (list_of self.old lit).ids }
        ensures { TakesWatch self.old self.new lit index }
    {
        self.lists[code(lit)].remove(index);
    }

    /// Takes the entries of clauses that aren't live out of all lists.
    pub fn keep_live(&mut self, arena: &Arena)
        ensures sized { length self.new ≡ length self.old }
        ensures swept { (l : Literal) → IsSwept arena.now 0 (list_of self.old l) (list_of self.new l) }
    {
        for place in 0..self.lists.len() {
            self.lists[place].keep_live(arena);
        }
    }

    /// Puts another literal beside an entry.
    pub fn set_beside(&mut self, lit: Lit, index: usize, beside: Beside)
        requires listed { literal_code lit < length self.old }
        requires within { index < length (list_of self.old lit).ids }
        ensures { ChangesList self.old self.new lit (with_beside (list_of self.old lit) index beside) }
    {
        self.lists[code(lit)].set_beside(index, beside);
    }

    /// The entry of a clause that the literal watches.
    pub fn place_of(&self, lit: Lit, id: ClauseId) -> usize
        requires listed { literal_code lit < length self.now }
        requires watched { Contains (list_of self.now lit).ids id }
        ensures within { result < length (list_of self.now lit).ids }
        ensures there { slice_index_or (list_of self.now lit).ids result id ≡ id }
    {
        self.lists[code(lit)].place_of(id)
    }
}
