//! The empty clause at level 0.
ghost use Rattle.std.specs.Prelude.{◌≡◌, [], IfOk};
ghost use Rattle.craig_watch.specs.Held.{IsFalsified};
ghost use Rattle.craig_analyze.specs.Learnt.{IsDerived};

use crate::analysis::Analysis;
use crate::learnt::Learnt;
use craig_base::{ClauseId, Lits};
use craig_proof::Steps;
use craig_watch::Held;
use std::alloc::{AllocError, Global};

impl Analysis {
    /// Derives the empty clause from a held clause that is false at level 0.
    ///
    /// The chain begins at `conflict`; `back` and `glue` are 0. An `AllocError` comes only for want of memory, and the
    /// workspace may be used again after it.
    pub fn refute_with(&mut self, held: &Held, conflict: ClauseId) -> Result<Learnt, AllocError>
        requires level { held.now.level ≡ 0 }
        requires conflict { IsFalsified held.now conflict.0 }
        ensures derived { IfOk result (IsDerived held.now.arena) }
        ensures begins { IfOk result (λ l. l.first ≡ conflict) }
        ensures empty { IfOk result (λ l. l.lits ≡ []) }
        ensures back { IfOk result (λ l. l.back ≡ 0) }
        ensures glue { IfOk result (λ l. l.glue ≡ 0) }
    {
        let mut rest = Steps::new(self.alloc);
        self.resolvent.begin(held, conflict)?;
        self.resolvent.resolve_root(held, &mut rest)?;
        Ok(Learnt {
            lits: Lits::new(self.alloc),
            first: conflict,
            rest,
            back: 0,
            glue: 0,
        })
    }
}

/// Derives the empty clause from a held clause that is false at level 0, as `Analysis::refute_with` does, in memory of
/// its own.
pub fn refute(alloc: Global, held: &Held, conflict: ClauseId) -> Result<Learnt, AllocError>
    requires level { held.now.level ≡ 0 }
    requires conflict { IsFalsified held.now conflict.0 }
    ensures derived { IfOk result (IsDerived held.now.arena) }
    ensures begins { IfOk result (λ l. l.first ≡ conflict) }
    ensures empty { IfOk result (λ l. l.lits ≡ []) }
    ensures back { IfOk result (λ l. l.back ≡ 0) }
    ensures glue { IfOk result (λ l. l.glue ≡ 0) }
{
    Analysis::new(alloc).refute_with(held, conflict)
}
