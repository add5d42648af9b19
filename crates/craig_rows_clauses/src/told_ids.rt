//! A tracer that notes what it is told.
ghost use Rattle.std.specs.Prelude.{None};

use craig_base::{ClauseId, Lit, Part};
use craig_proof::{Step, Tracer};
use std::alloc::{AllocError, Global};

/// The ids that a tracer was told, in order. It tells proofs no meaning.
#[derive(Drop)]
pub(crate) struct ToldIds {
    ids: Vec<u64>,
}

impl ToldIds {
    /// Nothing was told yet.
    pub(crate) fn new(alloc: Global) -> ToldIds {
        ToldIds {
            ids: Vec::new(alloc),
        }
    }

    /// The ids, first to last.
    pub(crate) fn as_slice(&self) -> &[u64] {
        self.ids.as_slice()
    }
}

impl Tracer for ToldIds {
    ghost told = { λ _. None };

    ghost kept = { λ _. tt };

    fn original(&mut self, id: ClauseId, _part: Part, _lits: &[Lit]) -> Result<(), AllocError> {
        self.ids.push(id.0)?;
        Ok(())
    }

    fn derived(
        &mut self,
        id: ClauseId,
        _lits: &[Lit],
        _first: ClauseId,
        _rest: &[Step],
    ) -> Result<(), AllocError> {
        self.ids.push(id.0)?;
        Ok(())
    }

    fn forget(&mut self, _id: ClauseId) {}

    fn reclaim(&mut self) {}
}
