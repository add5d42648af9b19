//! Why an assumption fails: the decisions that make it false.
//!
//! After Eén and Sörensson, "An Extensible SAT-solver", SAT 2003.
ghost use Rattle.std.specs.Prelude.{IfOk};
ghost use Rattle.craig_watch.specs.Trail.{IsFalse};
ghost use Rattle.craig_analyze.specs.Core.{IsCore};

use crate::analysis::{Analysis, with_first};
use crate::learnt::Learnt;
use crate::staying::Staying;
use craig_base::Lit;
use craig_proof::Steps;
use craig_watch::Held;
use std::alloc::{AllocError, Global};

/// Why a literal is false.
#[derive(Debug, Drop)]
pub enum Core {
    /// The decisions that force its negation: the negation stands first, and behind it negations of decisions alone.
    Clause(Learnt),
    /// The negation was decided itself; the literal is given back.
    Clash(Lit),
}

impl Analysis {
    /// Finds out why a literal is false, at any level.
    ///
    /// `Clash` comes exactly where the negation of `failed` is itself a decision. The clause of `Clause` has the
    /// negation of `failed` first, and beside it negations of decisions alone, each once, and its chain begins at the
    /// reason of that negation; where `failed` is false at level 0 there is no other literal. Its `back` and `glue` are
    /// 0. An `AllocError` comes only for want of memory, and the workspace may be used again after it.
    pub fn final_core_with(&mut self, held: &Held, failed: Lit) -> Result<Core, AllocError>
        requires { IsFalse held.now.trail failed }
        ensures { IfOk result (IsCore held.now failed) }
    {
        let Some(reason) = held.reason(failed.var()) else {
            return Ok(Core::Clash(failed));
        };
        let mut rest = Steps::new(self.alloc);
        self.resolvent.begin_reason(held, failed, reason)?;
        self.resolvent
            .resolve_forced(held, Staying::Decisions, &mut rest)?;
        let lits = with_first(self.alloc, failed.not(), self.resolvent.lower.as_slice())?;
        Ok(Core::Clause(Learnt {
            lits,
            first: reason,
            rest,
            back: 0,
            glue: 0,
        }))
    }
}

/// Finds out why a literal is false, as `Analysis::final_core_with` does, in memory of its own.
pub fn final_core(alloc: Global, held: &Held, failed: Lit) -> Result<Core, AllocError>
    requires { IsFalse held.now.trail failed }
    ensures { IfOk result (IsCore held.now failed) }
{
    Analysis::new(alloc).final_core_with(held, failed)
}
