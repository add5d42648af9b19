//! A tracer that counts what it is told.
ghost use Rattle.std.specs.Prelude.{None};

use craig_base::{ClauseId, Lit, Part};
use craig_proof::{Step, Tracer};
use std::alloc::AllocError;

/// How many clauses were told as derived, and how many steps the longest of their chains has behind its first clause.
#[derive(Clone, Copy, Debug, PartialEq, Eq)]
pub(crate) struct Counting {
    /// How many derived clauses.
    pub derived: usize,
    /// How many steps.
    pub longest: usize,
    /// How many ids were forgotten.
    pub forgotten: usize,
}

impl Counting {
    /// Nothing was told yet.
    pub(crate) fn new() -> Counting {
        Counting {
            derived: 0,
            longest: 0,
            forgotten: 0,
        }
    }
}

impl Tracer for Counting {
    ghost told = { λ _. None };

    ghost kept = { λ _. tt };

    fn original(&mut self, _id: ClauseId, _part: Part, _lits: &[Lit]) -> Result<(), AllocError> {
        Ok(())
    }

    fn derived(
        &mut self,
        _id: ClauseId,
        _lits: &[Lit],
        _first: ClauseId,
        rest: &[Step],
    ) -> Result<(), AllocError> {
        self.derived = self.derived.saturating_add(1);
        self.longest = self.longest.max(rest.len());
        Ok(())
    }

    fn forget(&mut self, _id: ClauseId) {
        self.forgotten = self.forgotten.saturating_add(1);
    }

    fn reclaim(&mut self) {}
}
