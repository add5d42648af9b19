//! A tracer that listens to nothing.

ghost use Rattle.std.specs.Prelude.{None};

use crate::{Step, Tracer};
use craig_base::{ClauseId, Lit, Part};
use std::alloc::AllocError;

/// A tracer that keeps nothing, and tells no meaning.
#[derive(Clone, Copy, Debug)]
pub struct Silent;

impl Tracer for Silent {
    ghost told = { λ _. None };

    ghost kept = { λ _. tt };

    fn original(&mut self, _id: ClauseId, _part: Part, _lits: &[Lit]) -> Result<(), AllocError> {
        Ok(())
    }

    fn derived(
        &mut self,
        _id: ClauseId,
        _lits: &[Lit],
        _first: ClauseId,
        _rest: &[Step],
    ) -> Result<(), AllocError> {
        Ok(())
    }

    fn forget(&mut self, _id: ClauseId) {}

    fn reclaim(&mut self) {}
}
