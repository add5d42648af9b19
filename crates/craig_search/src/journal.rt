//! The list of the clauses that a search has learnt.
ghost use Rattle.std.specs.Prelude.{◌≡◌, ℕ, ◌<◌, ◌≤◌, true, [], ◌∷◌, ◌++◌, OnErr, OnOk, length, nat_eq, slice_index_or};
ghost use Rattle.std.specs.BTreeSet.{contains};
ghost use Rattle.std.specs.Ordering.{nat_cmp};
ghost use Rattle.craig_search.specs.StoredJournal.{MarksRepeat};

use crate::fingerprint::fingerprint;
use craig_base::Lit;
use std::alloc::{AllocError, Global};
use std::collections::BTreeSet;
use std::marker::Model;

/// The clauses that a search has learnt under a limit, in the order in which they were learnt: its lemmas.
///
/// Contracts see the list of the clauses. The literals of all of them lie in one list.
#[derive(Debug, Drop)]
pub struct Journal {
    // those of all clauses, first to last
    literals: Vec<Lit>,
    // where the literals of each clause end, rising
    ends: Vec<usize>,
    // those of all clauses, and of others that were learnt
    fingerprints: BTreeSet<u64>,
}

impl Model for Journal {
    ghost use Rattle.std.specs.Prelude.{List};
    ghost use Rattle.craig_spec.specs.Literal.{Clause};
    ghost use Rattle.craig_search.specs.StoredJournal.{AreStored, clauses_at_ends};

    ghost Value = { List Clause };

    ghost view = { λ j. clauses_at_ends 0 j.ends.items j.literals.items };

    ghost invariant = { λ j. AreStored j.literals.items j.ends.items j.fingerprints };
}

impl Journal {
    /// No clause, which takes no memory.
    pub(crate) fn new(alloc: Global) -> Journal
        ensures { result ≡ [] }
    {
        Journal {
            literals: Vec::new(alloc),
            ends: Vec::new(alloc),
            fingerprints: BTreeSet::new(alloc),
        }
    }

    /// Appends one clause. After an error the list is as before.
    pub(crate) fn push(&mut self, lits: &[Lit]) -> Result<(), AllocError>
        ensures pushed { OnOk result (self.new ≡ self.old ++ lits.now ∷ []) }
        ensures unchanged { OnErr result (self.new ≡ self.old) }
    {
        // room for the end first, so that no literal stays behind where there is none; a fingerprint may
        self.ends.reserve(1)?;
        note(&mut self.fingerprints, fingerprint(lits))?;
        self.literals.extend_from_slice(lits)?;
        self.ends.push_reserved(self.literals.len());
        Ok(())
    }

    /// Keeps the fingerprint of a clause that is not listed.
    pub(crate) fn keep_fingerprint(&mut self, lits: &[Lit]) -> Result<(), AllocError>
        ensures { self.new ≡ self.old }
    {
        note(&mut self.fingerprints, fingerprint(lits))
    }

    /// Whether a clause may have these literals in any order. Where one has, it is so; mostly it isn't where none has that
    /// was listed or whose fingerprint was kept.
    pub(crate) fn may_have(&self, lits: &[Lit]) -> bool
        ensures { MarksRepeat self.now lits.now result }
    {
        self.fingerprints.contains(&fingerprint(lits))
    }

    /// How many clauses there are.
    pub fn len(&self) -> usize
        ensures { result ≡ length self.now }
    {
        self.ends.len()
    }

    /// Whether there is no clause.
    pub fn is_empty(&self) -> bool
        ensures { result ≡ nat_eq (length self.now) 0 }
    {
        self.len() == 0
    }

    /// The literals of the clause at a place, which is counted from 0. They are over dense variables, in any order.
    pub fn lemma(&self, place: usize) -> &[Lit]
        requires { place < length self.now }
        ensures { result.now ≡ slice_index_or self.now place [] }
    {
        let start = start_of(self.ends.as_slice(), place);
        let end = self.ends[place];
        &self.literals[start..end]
    }
}

/// Puts a number into the set, from which none is taken out.
fn note(numbers: &mut BTreeSet<u64>, number: u64) -> Result<(), AllocError>
    ensures noted { OnOk result (contains nat_cmp numbers.new number ≡ true) }
    ensures stay { (n : ℕ) → contains nat_cmp numbers.old n ≡ true → contains nat_cmp numbers.new n ≡ true }
{
    numbers.insert(number)?;
    Ok(())
}

/// Where the literals of the clause at the place begin, by the ends of the clauses.
fn start_of(ends: &[usize], place: usize) -> usize
    requires { place ≤ length ends.now }
    ensures { result ≡ slice_index_or (0 ∷ ends.now) place 0 }
{
    if place == 0 {
        return 0;
    }
    ends[place - 1]
}
